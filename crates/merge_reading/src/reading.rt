//! A document's tree read into tables, which its parts are lent to.
ghost use Rattle.std.specs.Prelude.{◌≡◌, IfOk, OnOk};
ghost use Rattle.vault_model.specs.Join.{stats_join};
ghost use Rattle.vault_model.specs.SeenDoc.{doc_seen};
ghost use Rattle.vault_model.specs.SeenNodes.{bare_version, entry_record, entry_row, tree_seen};
ghost use Rattle.vault_model.specs.Shape.{versions_of};
ghost use Rattle.vault_model.specs.Tree.{IsDoc, db_in, new_previous, rooted, with_entry_previous, with_id, with_previous};
ghost use Rattle.vault_model.specs.Unite.{unite};
ghost use Rattle.merge_reading.specs.Columns.{HasColumns, one_version, with_entry, with_tree};

use merge_tables::ids::is_same;
use merge_tables::placements::Placement;
use merge_tables::states::LentState;
use merge_tables::tables::Table;
use merge_tables::version_keys::VersionKey;
use merge_tables::versions::VersionTable;
use outside_core::NoMemory;
use std::alloc::Global;
use uuid_core::Uuid;
use vault_model::{Doc, Entry, Group, Version};

/// What a document has of each of its nodes.
#[derive(Drop)]
pub struct Columns<'a> {
    pub entries: Table<VersionTable<'a>>,
    pub groups: Table<LentState<'a>>,
    pub places: Table<Placement>,
}

/// Adds a version, lent. A refusal means that memory ran out.
fn add_version<'a>(versions: &mut VersionTable<'a>, version: &'a Version) -> Result<(), NoMemory>
    ensures { OnOk result (versions.new
        ≡ unite stats_join (one_version (bare_version version.now)) versions.old) }
{
    versions.add(
        VersionKey::new(version.modified, &version.content),
        version.stats,
    )
}

/// All versions of an entry, lent.
fn versions_of<'a>(alloc: Global, entry: &'a Entry) -> Result<VersionTable<'a>, NoMemory>
    ensures { IfOk result (λ v. v ≡ versions_of (entry_record entry.now)) }
{
    let mut versions = VersionTable::new(alloc);
    let history = entry.history.as_slice();
    let mut at = history.len();
    while at > 0 {
        at -= 1;
        add_version(&mut versions, &history[at])?;
    }
    add_version(&mut versions, &entry.current)?;
    Ok(versions)
}

/// A previous parent, which is the new root where it was the old one.
fn new_previous(former: &Uuid, root: &Uuid, previous: Uuid) -> Uuid
    ensures { result ≡ new_previous former.now root.now previous }
{
    if is_same(former, &previous) {
        *root
    } else {
        previous
    }
}

/// Reads an entry of a group. A refusal means that memory ran out.
fn read_entry<'a>(
    alloc: Global,
    entry: &'a Entry,
    parent: Uuid,
    former: &Uuid,
    root: &Uuid,
    columns: &mut Columns<'a>,
) -> Result<(), NoMemory>
    ensures { OnOk result (columns.new ≡ with_entry parent
        (with_entry_previous former.now root.now (entry_row entry.now)) columns.old) }
{
    let versions = versions_of(alloc, entry)?;
    columns.entries.put(entry.id, versions)?;
    columns.places.put(
        entry.id,
        Placement {
            placed: entry.placed,
            parent,
            previous: new_previous(former, root, entry.previous),
        },
    )
}

/// Reads a group under an id, and all below it, where the root has another id. A refusal means that
/// memory ran out.
pub fn read_group<'a>(
    alloc: Global,
    group: &'a Group,
    id: Uuid,
    former: &Uuid,
    root: &Uuid,
    columns: &mut Columns<'a>,
) -> Result<(), NoMemory>
    ensures { OnOk result (columns.new ≡ with_tree
        (with_id id (with_previous former.now root.now (tree_seen group.now))) columns.old) }
{
    columns.groups.put(id, LentState::new(&group.state))?;
    for entry in group.entries.as_slice() {
        read_entry(alloc, entry, id, former, root, columns)?;
    }
    for child in group.groups.as_slice() {
        columns.places.put(
            child.id,
            Placement {
                placed: child.placed,
                parent: id,
                previous: new_previous(former, root, child.previous),
            },
        )?;
        read_group(alloc, child, child.id, former, root, columns)?;
    }
    Ok(())
}

/// What a document has of each of its nodes, its root under another id.
pub fn columns_of<'a>(alloc: Global, doc: &'a Doc, root: Uuid) -> Result<Columns<'a>, NoMemory>
    requires { IsDoc (rooted (doc_seen doc.now) root) }
    ensures { IfOk result (λ c. HasColumns (db_in (rooted (doc_seen doc.now) root)) c) }
{
    let mut columns = Columns {
        entries: Table::new(alloc),
        groups: Table::new(alloc),
        places: Table::new(alloc),
    };
    read_group(alloc, &doc.root, root, &doc.root.id, &root, &mut columns)?;
    Ok(columns)
}
