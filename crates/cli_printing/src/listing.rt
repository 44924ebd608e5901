//! What a command prints.
ghost use Rattle.std.specs.Prelude.{◌≡◌, ◌++◌, [], IfErr, IfOk, OnOk, map, option_map};
ghost use Rattle.vault_model.specs.SeenDoc.{doc_seen};
ghost use Rattle.vault_model.specs.SeenNodes.{entry_row, tree_seen};
ghost use Rattle.cli_printing.specs.Listing as spec;
ghost use Rattle.cli_printing.specs.Listing.{group_lines, name_listed, title_lines, tree_listed, tree_with};
ghost use Rattle.tree_core.specs.Finding.{id_name};

use outside_core::{Bytes, NoMemory, Text};
use std::alloc::Global;
use tree_core::{find_group, title};
use uuid_core::Uuid;
use vault_model::{Doc, Entry, Group};

/// How groups are listed.
#[derive(Clone, Copy)]
pub struct Manner {
    /// With the groups below them.
    pub recursive: bool,
    /// With paths before names, in the place of spaces.
    pub flat: bool,
    /// With each name after the id of its node.
    pub ids: bool,
}

// Adds what is before the names in a group of this name.
fn add_front(text: &mut Bytes, front: &[u8], name: &[u8], flat: bool) -> Result<(), NoMemory>
    ensures { OnOk result (text.new ≡ text.old ++ spec.front_below flat front.now name.now) }
{
    text.add(front)?;
    if flat {
        text.add(name)?;
        text.add(b"/")
    } else {
        text.add(b"  ")
    }
}

// What is before the names in a group of this name.
fn front_below(alloc: Global, front: &[u8], name: &[u8], flat: bool) -> Result<Bytes, NoMemory>
    ensures { IfOk result (λ below. below ≡ spec.front_below flat front.now name.now) }
{
    let mut below = Bytes::new(alloc);
    match add_front(&mut below, front, name, flat) {
        Ok(()) => Ok(below),
        Err(fail) => {
            drop(below);
            Err(fail)
        }
    }
}

// Adds the id of a node in braces.
fn add_id(text: &mut Bytes, id: Uuid) -> Result<(), NoMemory>
    ensures { OnOk result (text.new ≡ text.old ++ id_name id) }
{
    let mut digits = [0; 36];
    let digits = id.encode_hyphenated(&mut digits);
    text.add(b"{")?;
    text.add(digits.as_bytes())?;
    text.add(b"}")
}

// Adds a name as it is listed: after the id of its node, where ids are listed.
fn add_name(text: &mut Bytes, ids: bool, id: Uuid, name: &[u8]) -> Result<(), NoMemory>
    ensures { OnOk result (text.new ≡ text.old ++ name_listed ids id name.now) }
{
    if ids {
        add_id(text, id)?;
        text.add(b" ")?;
    }
    text.add(name)
}

// Adds a line with a name as it is listed, after this prefix and before this end.
fn add_listed(
    text: &mut Bytes,
    ids: bool,
    front: &[u8],
    id: Uuid,
    name: &[u8],
    end: &[u8],
) -> Result<(), NoMemory>
    ensures { OnOk result (text.new
        ≡ text.old ++ ((front.now ++ name_listed ids id name.now) ++ end.now)) }
{
    text.add(front)?;
    add_name(text, ids, id, name)?;
    text.add(end)
}

// Adds a line for the title of each entry.
fn add_titles(text: &mut Bytes, ids: bool, front: &[u8], entries: &[Entry]) -> Result<(), NoMemory>
    ensures { OnOk result (text.new ≡ text.old
        ++ title_lines ids front.now (map entry_row entries.now)) }
{
    for entry in entries {
        add_listed(text, ids, front, entry.id, title(entry), b"\n")?;
    }
    Ok(())
}

/// Adds the lines of a group's entries, then those of its groups.
pub fn add_group(
    alloc: Global,
    text: &mut Bytes,
    manner: Manner,
    front: &[u8],
    group: &Group,
) -> Result<(), NoMemory>
    ensures { OnOk result (text.new ≡ text.old
        ++ group_lines manner.recursive manner.flat manner.ids front.now (tree_seen group.now)) }
{
    add_titles(text, manner.ids, front, group.entries.as_slice())?;
    for child in group.groups.as_slice() {
        let name = child.state.content.name.as_str().as_bytes();
        add_listed(text, manner.ids, front, child.id, name, b"/\n")?;
        if manner.recursive {
            let below = front_below(alloc, front, name, manner.flat)?;
            let added = add_group(alloc, text, manner, below.as_slice(), child);
            drop(below);
            added?;
        }
    }
    Ok(())
}

// The group of this id: the first in document order.
fn group_with<'a>(group: &'a Group, id: Uuid) -> Option<&'a Group>
    ensures { option_map (λ found. tree_seen found.now) result
        ≡ tree_with id (tree_seen group.now) }
{
    if group.id == id {
        return Some(group);
    }
    for child in group.groups.as_slice() {
        if let Some(found) = group_with(child, id) {
            return Some(found);
        }
    }
    None
}

/// The group that is listed: the root, or the one that a path names.
pub fn group_listed<'a>(doc: &'a Doc, path: &Option<Text>) -> Option<&'a Group>
    ensures { option_map (λ found. tree_seen found.now) result
        ≡ tree_listed path.now (doc_seen doc.now) }
{
    match path {
        Some(path) => group_with(&doc.root, find_group(doc, path.as_str())?),
        None => Some(&doc.root),
    }
}
