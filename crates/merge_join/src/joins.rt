//! Copies of one database made one.
ghost use Rattle.std.specs.Prelude.{◌≡◌, ◌<◌, true, length, IfOk, OnOk};
ghost use Rattle.std.specs.FinMap as table;
ghost use Rattle.vault_model.specs.Proper.{rises};
ghost use Rattle.vault_model.specs.Join.{kept, join};
ghost use Rattle.merge_tables.specs.Databases.{database, databases, shared_meta};
ghost use Rattle.merge_join.specs.Marks.{AreKept, AreKnown};

use merge_parts::joins::{all_versions, joined_meta, joined_state, latest_tomb};
use merge_parts::nodes::{known_ids, latest};
use merge_tables::databases::Database;
use merge_tables::ids::{push_ids, table_of};
use merge_tables::placements::Placement;
use merge_tables::states::LentState;
use merge_tables::tables::{Table, put_some};
use merge_tables::versions::VersionTable;
use outside_core::NoMemory;
use std::alloc::Global;
use uuid_core::Uuid;
use vault_model::Stamp;

/// Whether a node is kept.
fn is_kept(_members: &[Database], marked: &Table<bool>, id: &Uuid) -> bool
    requires { AreKept (databases _members.now) marked.now }
    ensures { result ≡ kept (databases _members.now) id.now }
{
    marked.get(id).is_some()
}

/// All ids that a member knows of, by rising id and each once.
pub fn rising_known_ids(alloc: Global, members: &[Database]) -> Result<Vec<Uuid>, NoMemory>
    ensures rising { IfOk result (λ us. rises (λ u. u) us.items ≡ true) }
    ensures known { IfOk result (λ us. AreKnown (databases members.now) us.items) }
{
    let ids = known_ids(alloc, members)?;
    let known = table_of(alloc, ids.as_slice())?;
    let mut rising = Vec::new(alloc);
    push_ids(&mut rising, &known)?;
    Ok(rising)
}

/// The versions of an entry in the join.
fn joined_entry<'a>(
    alloc: Global,
    members: &[Database<'a>],
    marked: &Table<bool>,
    id: &Uuid,
) -> Result<Option<VersionTable<'a>>, NoMemory>
    requires { AreKept (databases members.now) marked.now }
    ensures { IfOk result (λ v. v ≡ table.get (join (databases members.now)).entries id.now) }
{
    if is_kept(members, marked, id) {
        all_versions(alloc, members, id)
    } else {
        Ok(None)
    }
}

/// The state of a group in the join.
fn joined_group<'a>(
    members: &[Database<'a>],
    marked: &Table<bool>,
    id: &Uuid,
) -> Option<LentState<'a>>
    requires { AreKept (databases members.now) marked.now }
    ensures { result ≡ table.get (join (databases members.now)).groups id.now }
{
    if is_kept(members, marked, id) {
        joined_state(members, id)
    } else {
        None
    }
}

/// The place of a node in the join.
fn joined_place(members: &[Database], marked: &Table<bool>, id: &Uuid) -> Option<Placement>
    requires { AreKept (databases members.now) marked.now }
    ensures { result ≡ table.get (join (databases members.now)).places id.now }
{
    if is_kept(members, marked, id) {
        latest(members, id)
    } else {
        None
    }
}

/// The tombstone of an id in the join: the latest, unless the node is kept.
fn joined_tomb(members: &[Database], marked: &Table<bool>, id: &Uuid) -> Option<Stamp>
    requires { AreKept (databases members.now) marked.now }
    ensures { result ≡ table.get (join (databases members.now)).tombs id.now }
{
    if is_kept(members, marked, id) {
        None
    } else {
        latest_tomb(members, id)
    }
}

/// Puts the entries of the join into a table that has none. A refusal means that memory ran out.
fn put_entries<'a>(
    alloc: Global,
    entries: &mut Table<VersionTable<'a>>,
    members: &[Database<'a>],
    marked: &Table<bool>,
    known: &[Uuid],
) -> Result<(), NoMemory>
    requires none { entries.old ≡ table.empty }
    requires marked { AreKept (databases members.now) marked.now }
    requires known { AreKnown (databases members.now) known.now }
    ensures { OnOk result (entries.new ≡ (join (databases members.now)).entries) }
{
    for id in known {
        let joined = joined_entry(alloc, members, marked, id)?;
        put_some(entries, *id, joined)?;
    }
    Ok(())
}

/// Puts the groups of the join into a table that has none. A refusal means that memory ran out.
fn put_groups<'a>(
    groups: &mut Table<LentState<'a>>,
    members: &[Database<'a>],
    marked: &Table<bool>,
    known: &[Uuid],
) -> Result<(), NoMemory>
    requires none { groups.old ≡ table.empty }
    requires marked { AreKept (databases members.now) marked.now }
    requires known { AreKnown (databases members.now) known.now }
    ensures { OnOk result (groups.new ≡ (join (databases members.now)).groups) }
{
    for id in known {
        let joined = joined_group(members, marked, id);
        put_some(groups, *id, joined)?;
    }
    Ok(())
}

/// Puts the places of the join into a table that has none. A refusal means that memory ran out.
fn put_places(
    places: &mut Table<Placement>,
    members: &[Database],
    marked: &Table<bool>,
    known: &[Uuid],
) -> Result<(), NoMemory>
    requires none { places.old ≡ table.empty }
    requires marked { AreKept (databases members.now) marked.now }
    requires known { AreKnown (databases members.now) known.now }
    ensures { OnOk result (places.new ≡ (join (databases members.now)).places) }
{
    for id in known {
        let joined = joined_place(members, marked, id);
        put_some(places, *id, joined)?;
    }
    Ok(())
}

/// Puts the tombstones of the join into a table that has none. A refusal means that memory ran out.
fn put_tombs(
    tombs: &mut Table<Stamp>,
    members: &[Database],
    marked: &Table<bool>,
    known: &[Uuid],
) -> Result<(), NoMemory>
    requires none { tombs.old ≡ table.empty }
    requires marked { AreKept (databases members.now) marked.now }
    requires known { AreKnown (databases members.now) known.now }
    ensures { OnOk result (tombs.new ≡ (join (databases members.now)).tombs) }
{
    for id in known {
        let joined = joined_tomb(members, marked, id);
        put_some(tombs, *id, joined)?;
    }
    Ok(())
}

/// Puts the nodes and the tombstones of the join into a database that has none. A refusal means
/// that memory ran out.
fn put_nodes<'a>(
    alloc: Global,
    joined: &mut Database<'a>,
    members: &[Database<'a>],
    marked: &Table<bool>,
    known: &[Uuid],
) -> Result<(), NoMemory>
    requires entries { joined.old.entries ≡ table.empty }
    requires groups { joined.old.groups ≡ table.empty }
    requires places { joined.old.places ≡ table.empty }
    requires tombs { joined.old.tombs ≡ table.empty }
    requires marked { AreKept (databases members.now) marked.now }
    requires known { AreKnown (databases members.now) known.now }
    ensures { OnOk result (database joined.new ≡ record (join (databases members.now)) {
      root = joined.old.root;
      meta = shared_meta joined.old.meta;
    }) }
{
    put_entries(alloc, &mut joined.entries, members, marked, known)?;
    put_groups(&mut joined.groups, members, marked, known)?;
    put_places(&mut joined.places, members, marked, known)?;
    put_tombs(&mut joined.tombs, members, marked, known)?;
    Ok(())
}

/// Copies of one database made one: the nodes are the kept ones, which are marked, each with all
/// that the members have of it, at its latest place, and what is not kept has its latest tombstone.
/// The only refusal is that memory ran out.
pub fn join_marked<'a>(
    alloc: Global,
    members: &[Database<'a>],
    marked: &Table<bool>,
    known: &[Uuid],
) -> Result<Database<'a>, NoMemory>
    requires some { 0 < length members.now }
    requires marked { AreKept (databases members.now) marked.now }
    requires known { AreKnown (databases members.now) known.now }
    ensures { IfOk result (λ d. database d ≡ join (databases members.now)) }
{
    let meta = joined_meta(alloc, members)?;
    let mut joined = Database {
        root: members[0].root,
        entries: Table::new(alloc),
        groups: Table::new(alloc),
        places: Table::new(alloc),
        tombs: Table::new(alloc),
        meta,
    };
    match put_nodes(alloc, &mut joined, members, marked, known) {
        Ok(()) => Ok(joined),
        Err(fail) => {
            drop(joined);
            Err(fail)
        }
    }
}
