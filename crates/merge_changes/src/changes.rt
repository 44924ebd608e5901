//! The changes from one database to another.
ghost use Rattle.std.specs.Prelude.{◌≡◌, ◌&&◌, ◌++◌, [], ◌∷◌, cond, IfOk, OnOk, Some, true};
ghost use Rattle.std.specs.Option.{option_copied};
ghost use Rattle.vault_model.specs.Unite.{tabulate};
ghost use Rattle.merge_changes.specs.Equality.{same_all, same_state, same_stats};
ghost use Rattle.merge_tables.specs.Databases.{database};
ghost use Rattle.merge_changes.specs.declared.changes.Change.TheVariants.{Metadata, Deletions};
ghost use Rattle.merge_changes.specs.Changes.{changes_at, entry_changes, group_changes, is_last, node_changes, nodes_of, or_order, rising_ids, same_place, same_use, same_versions, stays_current};

use merge_nodes::shapes::LentEntry;
use merge_tables::databases::Database;
use merge_tables::ids::{push_both, push_ids};
use merge_tables::placements::Placement;
use merge_tables::states::LentState;
use merge_tables::tables::{Table, put_some};
use merge_tables::version_keys::VersionKey;
use merge_tables::versions::VersionTable;
use outside_core::{List, NoMemory};
use std::alloc::Global;
use uuid_core::Uuid;
use vault_model::{Stats, compare_group};

/// What a node is.
#[derive(Clone, Copy)]
pub enum Kind {
    Entry,
    Group,
}

/// A change of a node, or of the document.
#[derive(Clone, Copy)]
pub enum Change {
    /// The node is there only now.
    Created(Kind, Uuid),
    /// The node's versions with their use, or which of them is current, or its state, differ.
    Updated(Kind, Uuid),
    /// The node's place differs: its time, its parent or its previous parent.
    Moved(Kind, Uuid),
    /// The node was there only before.
    Deleted(Kind, Uuid),
    /// What the document says of itself differs.
    Metadata,
    /// The tombstones differ.
    Deletions,
    /// Nothing else that is listed differs, and the documents do: siblings, or the versions in an
    /// entry's history, are arranged in another way.
    Order,
}

/// What is the same in two documents: what they say of themselves, their tombstones, and all of
/// them.
#[derive(Clone, Copy)]
pub struct Sameness {
    pub meta: bool,
    pub tombs: bool,
    pub all: bool,
}

/// Whether two uses are equal.
fn is_use_same(first: Stats, second: Stats) -> bool
    ensures { result ≡ same_stats first second }
{
    first.accessed.cmp(&second.accessed).is_eq() && first.usage.cmp(&second.usage).is_eq()
}

/// Whether two versions are equal in mark and use.
fn is_version_same(first: &(VersionKey, Stats), second: &(VersionKey, Stats)) -> bool
    ensures { result ≡ same_use first.now second.now }
{
    first.0.cmp(&second.0).is_eq() && is_use_same(first.1, second.1)
}

/// Whether two lists of versions are equal.
fn are_rows_same(first: &[(VersionKey, Stats)], second: &[(VersionKey, Stats)]) -> bool
    ensures { result ≡ same_all same_use first.now second.now }
{
    if first.len() != second.len() {
        return false;
    }
    for (at, version) in first.iter().enumerate() {
        if !is_version_same(version, &second[at]) {
            return false;
        }
    }
    true
}

/// Whether all versions of two entries are equal.
fn are_versions_same(first: &VersionTable, second: &VersionTable) -> bool
    ensures { result ≡ same_versions first.now second.now }
{
    are_rows_same(first.rows(), second.rows())
}

/// Whether the last of these versions has this mark.
fn is_last(mark: &VersionKey, rows: &[(VersionKey, Stats)]) -> bool
    ensures { result ≡ is_last mark.now rows.now }
{
    if rows.len() == 0 {
        return false;
    }
    let last = rows.len() - 1;
    let newest = &rows[last];
    mark.cmp(&newest.0).is_eq()
}

/// Whether the version that was current still is: whether it is the greatest of these.
fn stays_current(older: Option<&LentEntry>, versions: &VersionTable) -> bool
    ensures { result ≡ stays_current (option_copied older.entry) versions.now }
{
    match older {
        Some(entry) => is_last(entry.current().mark(), versions.rows()),
        None => false,
    }
}

/// Whether an entry has the same versions, and the same one is current.
fn is_entry_same(older: Option<&LentEntry>, old: &VersionTable, new: &VersionTable) -> bool
    ensures { result
        ≡ (same_versions old.now new.now && stays_current (option_copied older.entry) new.now) }
{
    are_versions_same(old, new) && stays_current(older, new)
}

/// Whether the states of two groups are equal.
fn is_state_same(first: &LentState, second: &LentState) -> bool
    ensures { result ≡ same_state first.now second.now }
{
    first.modified().cmp(&second.modified()).is_eq()
        && compare_group(first.content(), second.content()).is_eq()
        && is_use_same(first.stats(), second.stats())
}

/// Whether two places are equal.
fn is_place_same(first: Option<Placement>, second: Option<Placement>) -> bool
    ensures { result ≡ same_place first second }
{
    match (first, second) {
        (None, None) => true,
        (Some(old), Some(new)) => {
            old.placed.cmp(&new.placed).is_eq()
                && old.parent.cmp(&new.parent).is_eq()
                && old.previous.cmp(&new.previous).is_eq()
        }
        _ => false,
    }
}

/// Appends a change unless nothing changed. A refusal means that memory ran out.
fn push_unless(changes: &mut List<Change>, change: Change, is_same: bool) -> Result<(), NoMemory>
    ensures { OnOk result (changes.new ≡ changes.old ++ cond is_same [] (change ∷ [])) }
{
    if is_same {
        return Ok(());
    }
    match changes.push(change) {
        Ok(()) => Ok(()),
        Err(_change) => Err(NoMemory),
    }
}

/// Appends the changes of an entry. A refusal means that memory ran out.
fn push_entry(
    changes: &mut List<Change>,
    older: &Table<LentEntry>,
    before: &Database,
    after: &Database,
    id: Uuid,
) -> Result<(), NoMemory>
    ensures { OnOk result (changes.new
        ≡ changes.old ++ entry_changes older.now (database before.now) (database after.now) id) }
{
    match (before.entries.get(&id), after.entries.get(&id)) {
        (None, None) => Ok(()),
        (None, Some(_)) => push_unless(changes, Change::Created(Kind::Entry, id), false),
        (Some(_), None) => push_unless(changes, Change::Deleted(Kind::Entry, id), false),
        (Some(old), Some(new)) => {
            let is_same = is_entry_same(older.get(&id), old, new);
            let stays = is_place_same(
                before.places.get(&id).copied(),
                after.places.get(&id).copied(),
            );
            push_unless(changes, Change::Updated(Kind::Entry, id), is_same)?;
            push_unless(changes, Change::Moved(Kind::Entry, id), stays)
        }
    }
}

/// Appends the changes of a group. A refusal means that memory ran out.
fn push_group(
    changes: &mut List<Change>,
    before: &Database,
    after: &Database,
    id: Uuid,
) -> Result<(), NoMemory>
    ensures { OnOk result (changes.new
        ≡ changes.old ++ group_changes (database before.now) (database after.now) id) }
{
    match (before.groups.get(&id), after.groups.get(&id)) {
        (None, None) => Ok(()),
        (None, Some(_)) => push_unless(changes, Change::Created(Kind::Group, id), false),
        (Some(_), None) => push_unless(changes, Change::Deleted(Kind::Group, id), false),
        (Some(old), Some(new)) => {
            let is_same = is_state_same(old, new);
            let stays = is_place_same(
                before.places.get(&id).copied(),
                after.places.get(&id).copied(),
            );
            push_unless(changes, Change::Updated(Kind::Group, id), is_same)?;
            push_unless(changes, Change::Moved(Kind::Group, id), stays)
        }
    }
}

/// Some ids in a table, each once.
pub fn table_of_ids(alloc: Global, ids: &[Uuid]) -> Result<Table<bool>, NoMemory>
    ensures { IfOk result (λ t. t ≡ tabulate ids.now (λ u. Some true)) }
{
    let mut table = Table::new(alloc);
    for id in ids {
        put_some(&mut table, *id, Some(true))?;
    }
    Ok(table)
}

/// The nodes of two databases, by rising id and each once.
fn rising_nodes(alloc: Global, before: &Database, after: &Database) -> Result<Vec<Uuid>, NoMemory>
    ensures { IfOk result (λ us. us.items
        ≡ rising_ids (nodes_of (database before.now) (database after.now))) }
{
    let mut ids = Vec::new(alloc);
    push_both(&mut ids, &before.entries, &before.groups)?;
    push_both(&mut ids, &after.entries, &after.groups)?;
    let table = table_of_ids(alloc, ids.as_slice())?;
    let mut rising = Vec::new(alloc);
    push_ids(&mut rising, &table)?;
    Ok(rising)
}

/// The changes of all nodes, by rising id, from a database, whose document had these entries, to
/// another.
pub fn changed_nodes(
    alloc: Global,
    older: &Table<LentEntry>,
    before: &Database,
    after: &Database,
) -> Result<List<Change>, NoMemory>
    ensures { IfOk result (λ cs. cs
        ≡ node_changes older.now (database before.now) (database after.now)) }
{
    let ids = rising_nodes(alloc, before, after)?;
    let mut changes = List::new(alloc);
    for id in ids.as_slice() {
        push_entry(&mut changes, older, before, after, *id)?;
        push_group(&mut changes, before, after, *id)?;
    }
    Ok(changes)
}

/// Appends to the changes of all nodes those of what the document says of itself and of its
/// tombstones; and, where there are none of these and the documents are not the same, that of its
/// arrangement. A refusal means that memory ran out.
pub fn push_document_changes(changes: &mut List<Change>, same: Sameness) -> Result<(), NoMemory>
    ensures { OnOk result (changes.new ≡ or_order same.all (changes.old
        ++ (cond same.meta [] (Metadata ∷ []) ++ cond same.tombs [] (Deletions ∷ [])))) }
{
    push_unless(changes, Change::Metadata, same.meta)?;
    push_unless(changes, Change::Deletions, same.tombs)?;
    let is_listed = changes.len() > 0;
    push_unless(changes, Change::Order, is_listed || same.all)
}
