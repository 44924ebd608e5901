//! Groups moved from group to group.

ghost use Rattle.std.specs.Prelude.{◌≡◌, ◌≢◌, IfSome, IsSome, MatchResult, Some, false, true};
ghost use Rattle.vault_model.specs.Db.{nil_id};
ghost use Rattle.vault_model.specs.SeenDoc.{doc_seen};
ghost use Rattle.vault_model.specs.SeenNodes.{tree_seen};
ghost use Rattle.vault_model.specs.Tree.{is_elsewhere};
ghost use Rattle.tree_core.specs.After as after;
ghost use Rattle.tree_core.specs.Changes as spec;
ghost use Rattle.tree_moves.specs.GroupPlaces as places;

use crate::groups::{fill_group, take_group};
use crate::parents::parent_of;
use outside_core::NoMemory;
use std::alloc::Global;
use tree_core::{TreeFail, find_group};
use tree_groups::{LEVELS, fits, levels_below, new_group, put_group};
use tree_steps::{group_of, has_group, is_same, time_after};
use uuid_core::Uuid;
use vault_model::{Doc, Group, Stamp};

/// Moves a group from one group to the place that is kept for it in another. Takes no memory.
pub fn move_group_to_place(root: &mut Group, from: Uuid, to: Uuid, id: Uuid, time: Stamp)
    requires there { IsSome (places.group_at from id (tree_seen root.old)) }
    ensures { IfSome (places.group_at from id (tree_seen root.old))
        (λ g. tree_seen root.new ≡ places.group_placed from to time g (tree_seen root.old)) }
{
    if let Some(mut group) = take_group(root, from, id) {
        group.placed = time;
        group.previous = from;
        fill_group(root, to, group);
    }
}

// Moves a group from one group to the end of another's groups: a place is made for it first, which
// is all that takes memory. A refusal changes nothing.
fn move_group_in(
    alloc: Global,
    root: &mut Group,
    from: Uuid,
    to: Uuid,
    id: Uuid,
    time: Stamp,
) -> Result<(), NoMemory>
    requires other { from ≢ to }
    requires there { IsSome (places.group_at from id (tree_seen root.old)) }
    requires outside { IfSome (places.group_at from id (tree_seen root.old))
        (λ g. spec.has_group to g ≡ false) }
    requires goal { spec.has_group to (tree_seen root.old) ≡ true }
    requires no_nil { is_elsewhere (tree_seen root.old) nil_id ≡ true }
    ensures { MatchResult result (λ _. IfSome (places.group_at from id (tree_seen root.old))
        (λ g. tree_seen root.new ≡ spec.group_moved from to time g (tree_seen root.old)))
        (λ _. tree_seen root.new ≡ tree_seen root.old) }
{
    let place = new_group(alloc, Uuid::nil(), "", time)?;
    match put_group(root, to, place) {
        Some(Ok(())) => {
            move_group_to_place(root, from, to, id, time);
            Ok(())
        }
        _ => Err(NoMemory),
    }
}

/// Since when a group is in a group of this tree that it is moved to; or why it is not moved there.
pub fn time_of_move(root: &Group, to: Uuid, moving: &Group, now: Stamp) -> Result<Stamp, TreeFail>
    ensures { result ≡ places.time_of_move to (tree_seen moving.now) now (tree_seen root.now) }
{
    if has_group(moving, to) {
        return Err(TreeFail::IntoItself(moving.id));
    }
    let below = levels_below(root, to, LEVELS).unwrap_or(0);
    if !fits(moving, below) {
        return Err(TreeFail::TooDeep);
    }
    time_after(now, moving.placed)
}

/// Moves the group of this id from the group that holds it to the end of another's groups. A refusal
/// changes nothing.
pub fn move_found(
    alloc: Global,
    doc: &mut Doc,
    from: Uuid,
    to: Uuid,
    id: Uuid,
    now: Stamp,
) -> Result<(), TreeFail>
    requires other { from ≢ to }
    requires parent { spec.parent_of id (doc_seen doc.old).tree ≡ Some from }
    requires goal { spec.has_group to (doc_seen doc.old).tree ≡ true }
    ensures { IfSome (spec.group_with id (doc_seen doc.old).tree)
        (λ g. after.Changes (after.group_moved_to to g now (doc_seen doc.old)) result
        (doc_seen doc.old) (doc_seen doc.new)) }
{
    let Some(moving) = group_of(&doc.root, id) else {
        return Err(TreeFail::NoSuchPath);
    };
    let time = time_of_move(&doc.root, to, moving, now)?;
    match move_group_in(alloc, &mut doc.root, from, to, id, time) {
        Ok(()) => Ok(()),
        Err(_) => Err(TreeFail::NoMemory),
    }
}

/// Moves the group that a path names to the end of the groups in the group that another path names.
/// It is there since now, or a second after the time since when it was in its old group if that is
/// later, and its old group is its previous parent. A refusal changes nothing.
pub fn move_group(
    alloc: Global,
    doc: &mut Doc,
    path: &str,
    group: &str,
    now: Stamp,
) -> Result<(), TreeFail>
    ensures { after.Changes (after.after_move_group path.now group.now now (doc_seen doc.old))
        result (doc_seen doc.old) (doc_seen doc.new) }
{
    let Some(id) = find_group(doc, path) else {
        return Err(TreeFail::NoSuchPath);
    };
    let Some(to) = find_group(doc, group) else {
        return Err(TreeFail::NoSuchPath);
    };
    let Some(from) = parent_of(&doc.root, id) else {
        return Err(TreeFail::RootFixed);
    };
    if is_same(from, to) {
        return Err(TreeFail::AlreadyThere);
    }
    move_found(alloc, doc, from, to, id, now)
}
