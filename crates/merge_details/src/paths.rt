//! The paths of nodes by their ids, in memory that is wiped.
ghost use Rattle.std.specs.Prelude.{◌≡◌, ◌++◌, ◌∷◌, [], IfOk, OnOk, map};
ghost use Rattle.vault_model.specs.SeenDoc.{doc_seen};
ghost use Rattle.vault_model.specs.SeenNodes.{entry_row, tree_seen};
ghost use Rattle.merge_details.specs.PathTables as spec;
ghost use Rattle.merge_details.specs.Paths.{path_in};

use crate::append;
use crate::tables::table_of;
use merge_tables::tables::Table;
use outside_core::NoMemory;
use secret_core::Secret;
use std::alloc::Global;
use std::marker::Model;
use tree_core::title;
use uuid_core::Uuid;
use vault_model::{Doc, Entry, Group};

/// The path of a node, in memory that is wiped, since names may be secret.
#[derive(Drop)]
pub struct OwnPath {
    text: Secret,
}

impl Model for OwnPath {
    ghost use Rattle.std.specs.Prelude.{List, ℕ};

    ghost Value = { List ℕ };

    ghost view = { λ path. path.text.bytes };
}

/// The paths of nodes by their ids.
pub type Paths = Table<OwnPath>;

// The rows of which a table of paths is made.
type PathRows = Vec<(Uuid, OwnPath)>;

/// The path at an id; nothing where there is none.
pub fn path_at<'p>(paths: &'p Paths, id: &Uuid) -> &'p [u8]
    ensures { result.now ≡ spec.path_at paths.now id.now }
{
    match paths.get(id) {
        Some(path) => path.text.lend(0, path.text.len()),
        None => &[],
    }
}

// The path of what has this name in a group of this path.
fn path_below(alloc: Global, above: &[u8], name: &[u8]) -> Result<Secret, NoMemory>
    ensures { IfOk result (λ path. path.bytes ≡ spec.path_below above.now name.now) }
{
    let room = above.len().saturating_add(name.len()).saturating_add(1);
    let mut path = Secret::with_room(alloc, room)?;
    append(alloc, &mut path, above)?;
    append(alloc, &mut path, b"/")?;
    append(alloc, &mut path, name)?;
    Ok(path)
}

// Puts a row after others.
fn push_path(rows: &mut PathRows, id: Uuid, text: Secret) -> Result<(), NoMemory>
    ensures { OnOk result (rows.new.items ≡ rows.old.items ++ (id, text.bytes) ∷ []) }
{
    match rows.push((id, OwnPath { text })) {
        Ok(()) => Ok(()),
        Err(_row) => Err(NoMemory),
    }
}

// Puts the paths of the entries of a group of this path after others.
fn push_entries(
    alloc: Global,
    rows: &mut PathRows,
    above: &[u8],
    entries: &[Entry],
) -> Result<(), NoMemory>
    ensures { OnOk result (rows.new.items
        ≡ rows.old.items ++ map (spec.entry_path above.now) (map entry_row entries.now)) }
{
    for entry in entries {
        push_path(rows, entry.id, path_below(alloc, above, title(entry))?)?;
    }
    Ok(())
}

// Puts the path of a group in one of this path after others, and gives it back.
fn push_child(
    alloc: Global,
    rows: &mut PathRows,
    above: &[u8],
    child: &Group,
) -> Result<Secret, NoMemory>
    ensures put { OnOk result (rows.new.items
        ≡ rows.old.items ++ spec.group_path above.now (tree_seen child.now) ∷ []) }
    ensures path { IfOk result (λ path. path.bytes
        ≡ (spec.group_path above.now (tree_seen child.now)).1) }
{
    let path = path_below(alloc, above, child.state.content.name.as_str().as_bytes())?;
    push_path(rows, child.id, path.copy(alloc)?)?;
    Ok(path)
}

// Puts the paths of all that is in a group of this path after others.
fn push_inside(
    alloc: Global,
    rows: &mut PathRows,
    above: &[u8],
    group: &Group,
) -> Result<(), NoMemory>
    ensures { OnOk result (rows.new.items
        ≡ rows.old.items ++ spec.paths_inside above.now (tree_seen group.now)) }
{
    push_entries(alloc, rows, above, group.entries.as_slice())?;
    for child in group.groups.as_slice() {
        let path = push_child(alloc, rows, above, child)?;
        push_inside(alloc, rows, path.lend(0, path.len()), child)?;
    }
    Ok(())
}

// The paths of all nodes below a root, and its own, beside their ids.
fn path_rows(alloc: Global, root: &Group) -> Result<PathRows, NoMemory>
    ensures { IfOk result (λ rows. rows.items ≡ spec.all_paths (tree_seen root.now)) }
{
    let mut rows = Vec::new(alloc);
    push_path(&mut rows, root.id, path_below(alloc, &[], &[])?)?;
    push_inside(alloc, &mut rows, &[], root)?;
    Ok(rows)
}

/// The paths of all nodes of a document.
pub fn paths_of(alloc: Global, doc: &Doc) -> Result<Paths, NoMemory>
    ensures { IfOk result (λ paths. spec.path_at paths ≡ path_in (doc_seen doc.now)) }
{
    let rows = path_rows(alloc, &doc.root)?;
    let paths = table_of(alloc, rows)?;
    Ok(paths)
}
