//! The paths of entries, each on a line.
ghost use Rattle.std.specs.BTreeSet.{contains};
ghost use Rattle.std.specs.Prelude.{◌≡◌, ◌++◌, IfOk, OnOk, false, map};
ghost use Rattle.vault_model.specs.Db.{NodeId, id_cmp};
ghost use Rattle.vault_model.specs.SeenDoc.{doc_seen};
ghost use Rattle.vault_model.specs.SeenNodes.{entry_row, tree_seen};
ghost use Rattle.cli_showing.specs.Paths.{is_among, paths_found};
ghost use Rattle.cli_showing.specs.inside.Walking as walking;
ghost use Rattle.cli_showing.specs.inside.Walking.{entry_line, entry_lines, tree_lines};

use crate::texts::append_three;
use outside_core::NoMemory;
use secret_core::Secret;
use std::alloc::Global;
use std::collections::BTreeSet;
use tree_core::title;
use uuid_core::Uuid;
use vault_model::{Doc, Entry, Group};

// Adds some ids to a set that is empty.
fn add_ids(set: &mut BTreeSet<Uuid>, ids: &[Uuid]) -> Result<(), NoMemory>
    requires { (id : NodeId) → contains id_cmp set.old id ≡ false }
    ensures { OnOk result ((id : NodeId)
        → contains id_cmp set.new id ≡ is_among ids.now id) }
{
    for id in ids {
        set.insert(*id)?;
    }
    Ok(())
}

// The set of some ids.
fn set_of(alloc: Global, ids: &[Uuid]) -> Result<BTreeSet<Uuid>, NoMemory>
    ensures { IfOk result (λ set. (id : NodeId) → contains id_cmp set id ≡ is_among ids.now id) }
{
    let mut set = BTreeSet::new(alloc);
    match add_ids(&mut set, ids) {
        Ok(()) => Ok(set),
        Err(fail) => {
            drop(set);
            Err(fail)
        }
    }
}

// What is before the titles of a group of this name.
fn front_below(alloc: Global, front: &[u8], name: &[u8]) -> Result<Secret, NoMemory>
    ensures { IfOk result (λ below. below.bytes ≡ walking.front_below front.now name.now) }
{
    let mut below = Secret::with_room(alloc, 0)?;
    match append_three(alloc, &mut below, front, name, b"/") {
        Ok(()) => Ok(below),
        Err(fail) => {
            drop(below);
            Err(fail)
        }
    }
}

// Puts the path of an entry after a text, where its id is in a set.
fn append_entry(
    alloc: Global,
    text: &mut Secret,
    ids: &BTreeSet<Uuid>,
    front: &[u8],
    entry: &Entry,
) -> Result<(), NoMemory>
    ensures { OnOk result (text.new.bytes ≡ text.old.bytes
        ++ entry_line (contains id_cmp ids.now) front.now (entry_row entry.now)) }
{
    if !ids.contains(&entry.id) {
        return Ok(());
    }
    append_three(alloc, text, front, title(entry), b"\n")
}

// The same of the entries of a group.
fn append_entries(
    alloc: Global,
    text: &mut Secret,
    ids: &BTreeSet<Uuid>,
    front: &[u8],
    entries: &[Entry],
) -> Result<(), NoMemory>
    ensures { OnOk result (text.new.bytes ≡ text.old.bytes
        ++ entry_lines (contains id_cmp ids.now) front.now (map entry_row entries.now)) }
{
    for entry in entries {
        append_entry(alloc, text, ids, front, entry)?;
    }
    Ok(())
}

// The same of a group and all below it.
fn append_group(
    alloc: Global,
    text: &mut Secret,
    ids: &BTreeSet<Uuid>,
    front: &[u8],
    group: &Group,
) -> Result<(), NoMemory>
    ensures { OnOk result (text.new.bytes ≡ text.old.bytes
        ++ tree_lines (contains id_cmp ids.now) front.now (tree_seen group.now)) }
{
    append_entries(alloc, text, ids, front, group.entries.as_slice())?;
    for child in group.groups.as_slice() {
        let name = child.state.content.name.as_str().as_bytes();
        let below = front_below(alloc, front, name)?;
        let appended = append_group(alloc, text, ids, below.lend(0, below.len()), child);
        drop(below);
        appended?;
    }
    Ok(())
}

/// The paths of the entries of these ids, in document order, in memory that is wiped.
pub(crate) fn paths_of(alloc: Global, doc: &Doc, ids: &[Uuid]) -> Result<Secret, NoMemory>
    ensures { IfOk result (λ text. text.bytes ≡ paths_found ids.now (doc_seen doc.now)) }
{
    let set = set_of(alloc, ids)?;
    let mut text = match Secret::with_room(alloc, 0) {
        Ok(text) => text,
        Err(fail) => {
            drop(set);
            return Err(fail);
        }
    };
    let appended = append_group(alloc, &mut text, &set, b"/", &doc.root);
    drop(set);
    match appended {
        Ok(()) => Ok(text),
        Err(fail) => {
            drop(text);
            Err(fail)
        }
    }
}
