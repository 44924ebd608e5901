//! Nodes of a tree, found by their ids.

ghost use Rattle.std.specs.Prelude.{◌≡◌, find, is_some, map, option_map, position};
ghost use Rattle.std.specs.List.{list_any};
ghost use Rattle.vault_model.specs.Join.{is_id};
ghost use Rattle.vault_model.specs.SeenDoc.{doc_seen};
ghost use Rattle.vault_model.specs.SeenNodes.{entry_row, tree_seen};
ghost use Rattle.vault_model.specs.Tree.{node_ids};
ghost use Rattle.vault_model.specs.declared.nodes.Group.{out-Group};
ghost use Rattle.tree_core.specs.Changes as spec;

use uuid_core::Uuid;
use vault_model::{Doc, Entry, Group};

/// Reports whether two ids are the same.
pub fn is_same(first: Uuid, second: Uuid) -> bool
    ensures { result ≡ is_id first second }
{
    first.cmp(&second).is_eq()
}

/// Reports whether a group of this id is this one or below it.
pub fn has_group(group: &Group, id: Uuid) -> bool
    ensures { result ≡ spec.has_group id (tree_seen group.now) }
{
    if is_same(group.id, id) {
        return true;
    }
    for child in group.groups.as_slice() {
        if has_group(child, id) {
            return true;
        }
    }
    false
}

// Reports whether a node of this id is this group or below it.
fn has_node(group: &Group, id: Uuid) -> bool
    ensures { result ≡ list_any (is_id id) (node_ids (tree_seen group.now)) }
{
    if is_same(id, group.id) {
        return true;
    }
    for entry in group.entries.as_slice() {
        if is_same(id, entry.id) {
            return true;
        }
    }
    for child in group.groups.as_slice() {
        if has_node(child, id) {
            return true;
        }
    }
    false
}

/// Reports whether a new node may have this id: it is not nil, no node's and no tombstone's.
pub fn is_free(doc: &Doc, id: Uuid) -> bool
    ensures { result ≡ spec.is_free id (doc_seen doc.now) }
{
    if is_same(Uuid::nil(), id) || has_node(&doc.root, id) {
        return false;
    }
    for tomb in doc.tombs.as_slice() {
        if is_same(tomb.id, id) {
            return false;
        }
    }
    true
}

// The first of the groups in a group that is the one of this id or has it below it.
pub(crate) fn way_to(group: &Group, id: Uuid) -> Option<usize>
    ensures { result
        ≡ position (λ g. spec.has_group id (tree_seen g)) (out-Group group.now).groups }
{
    group
        .groups
        .as_slice()
        .iter()
        .position(|child| has_group(child, id))
}

/// The group of this id: this one or one below it.
pub fn group_of(group: &Group, id: Uuid) -> Option<&Group>
    ensures { option_map (λ found. tree_seen found.now) result
        ≡ spec.group_with id (tree_seen group.now) }
{
    if is_same(group.id, id) {
        return Some(group);
    }
    let at = way_to(group, id)?;
    group_of(group.groups.get(at)?, id)
}

// A group's own entry of this id.
fn own_entry(group: &Group, id: Uuid) -> Option<&Entry>
    ensures { option_map (λ found. entry_row found.now) result
        ≡ spec.own_entry id (tree_seen group.now) }
{
    for entry in group.entries.as_slice() {
        if is_same(entry.id, id) {
            return Some(entry);
        }
    }
    None
}

/// The entry of this id in the group of another.
pub fn entry_of(root: &Group, group: Uuid, id: Uuid) -> Option<&Entry>
    ensures { option_map (λ found. entry_row found.now) result
        ≡ spec.entry_at group id (tree_seen root.now) }
{
    own_entry(group_of(root, group)?, id)
}

// Reports whether one of some entries has this id.
fn has_own_entry(entries: &[Entry], id: Uuid) -> bool
    ensures { result ≡ is_some (find (λ e. is_id e.0 id) (map entry_row entries.now)) }
{
    for entry in entries {
        if is_same(entry.id, id) {
            return true;
        }
    }
    false
}

/// The group that holds the entry of this id: this one or one below it.
pub fn holder(group: &Group, id: Uuid) -> Option<Uuid>
    ensures { result ≡ spec.holder id (tree_seen group.now) }
{
    if has_own_entry(group.entries.as_slice(), id) {
        return Some(group.id);
    }
    for child in group.groups.as_slice() {
        if let Some(found) = holder(child, id) {
            return Some(found);
        }
    }
    None
}
