//! Groups put into the bin.

ghost use Rattle.std.specs.Prelude.{◌≡◌, ◌≢◌, [], IfSome, IsSome, MatchResult, None, Some, false, true};
ghost use Rattle.vault_model.specs.Db.{nil_id};
ghost use Rattle.vault_model.specs.Tree.{Tree, id_of, is_elsewhere};
ghost use Rattle.vault_model.specs.SeenDoc.{doc_seen};
ghost use Rattle.vault_model.specs.SeenNodes.{tree_seen};
ghost use Rattle.vault_model.specs.declared.nodes.Group.{out-Group};
ghost use Rattle.tree_core.specs.After as spec;
ghost use Rattle.tree_core.specs.Changes.{changed_at, group_moved, group_with, has_group, parent_of, with_group};
ghost use Rattle.tree_core.specs.NewNodes.{empty_group};
ghost use Rattle.tree_moves.specs.GroupPlaces.{group_at};
ghost use Rattle.tree_removals.specs.Removes.{Removes, with_bin_in};

use crate::recycling::put_top;
use outside_core::NoMemory;
use std::alloc::Global;
use tree_core::{Removed, TreeFail};
use tree_moves::tree_groups::{LEVELS, fits, new_bin, new_group, put_group};
use tree_moves::{move_found, move_group_to_place};
use tree_steps::{group_of, is_free, time_after};
use uuid_core::Uuid;
use vault_model::{Bin, Doc, Group, Stamp, Timed};

/// Puts the group of this id, which another holds, into the bin that is there.
pub(crate) fn recycle_group(
    alloc: Global,
    doc: &mut Doc,
    from: Uuid,
    id: Uuid,
    now: Stamp,
) -> Result<Removed, TreeFail>
    requires other { from ≢ (doc_seen doc.old).meta.bin.value.id }
    requires parent { parent_of id (doc_seen doc.old).tree ≡ Some from }
    requires goal { has_group (doc_seen doc.old).meta.bin.value.id (doc_seen doc.old).tree ≡ true }
    ensures { IfSome (group_with id (doc_seen doc.old).tree)
        (λ g. Removes (spec.group_recycled None g now (doc_seen doc.old)) result (doc_seen doc.old)
        (doc_seen doc.new)) }
{
    let to = doc.meta.bin.value.id;
    match move_found(alloc, doc, from, to, id, now) {
        Ok(()) => Ok(Removed::Recycled),
        Err(fail) => Err(fail),
    }
}

// Puts a bin with a place in it after the other groups of the root.
fn put_with_place(
    root: &mut Group,
    mut group: Group,
    bin: Uuid,
    place: Group,
) -> Result<(), NoMemory>
    ensures { MatchResult result (λ _. (filled : Tree)
        × (filled ≡ changed_at bin (with_group (tree_seen place)) (tree_seen group))
        × (tree_seen root.new
        ≡ changed_at (out-Group root.old).id (with_group filled) (tree_seen root.old)))
        (λ _. tree_seen root.new ≡ tree_seen root.old) }
{
    match put_group(&mut group, bin, place) {
        Some(Ok(())) => put_top(root, group),
        _ => {
            drop(group);
            Err(NoMemory)
        }
    }
}

// Puts a new bin with a place for a group after the other groups of the root.
fn put_bin(alloc: Global, root: &mut Group, bin: Uuid, now: Stamp) -> Result<(), NoMemory>
    requires { has_group bin (tree_seen root.old) ≡ false }
    ensures { MatchResult result (λ _. (hole : Tree)
        × (hole ≡ empty_group nil_id [] now)
        × (tree_seen root.new
        ≡ changed_at bin (with_group hole) (with_bin_in bin now (tree_seen root.old))))
        (λ _. tree_seen root.new ≡ tree_seen root.old) }
{
    let group = new_bin(alloc, bin, now)?;
    match new_group(alloc, Uuid::nil(), "", now) {
        Ok(place) => put_with_place(root, group, bin, place),
        Err(fail) => {
            drop(group);
            Err(fail)
        }
    }
}

// A group that is to be moved: the group that it is in, its id, and since when it is in its new
// group.
#[derive(Clone, Copy)]
struct Moving {
    from: Uuid,
    id: Uuid,
    time: Stamp,
}

// Makes the bin, and puts a group into it.
fn move_to_new_bin(
    alloc: Global,
    root: &mut Group,
    bin: Uuid,
    now: Stamp,
    group: Moving,
) -> Result<(), NoMemory>
    requires there { IsSome (group_at group.from group.id (tree_seen root.old)) }
    requires absent { is_elsewhere (tree_seen root.old) bin ≡ true }
    requires no_nil { is_elsewhere (with_bin_in bin now (tree_seen root.old)) nil_id ≡ true }
    ensures { MatchResult result (λ _. IfSome (group_at group.from group.id (tree_seen root.old))
        (λ g. tree_seen root.new
        ≡ group_moved group.from bin group.time g (with_bin_in bin now (tree_seen root.old))))
        (λ _. tree_seen root.new ≡ tree_seen root.old) }
{
    put_bin(alloc, root, bin, now)?;
    move_group_to_place(root, group.from, bin, group.id, group.time);
    Ok(())
}

/// Makes the bin, and puts the group of this id, which another holds, into it.
pub(crate) fn recycle_with_new_bin(
    alloc: Global,
    doc: &mut Doc,
    from: Uuid,
    id: Uuid,
    bin: Uuid,
    now: Stamp,
) -> Result<Removed, TreeFail>
    requires parent { parent_of id (doc_seen doc.old).tree ≡ Some from }
    requires absent { has_group (doc_seen doc.old).meta.bin.value.id (doc_seen doc.old).tree
        ≡ false }
    ensures { IfSome (group_with id (doc_seen doc.old).tree)
        (λ g. Removes (spec.group_recycled (Some bin) g now (doc_seen doc.old)) result
        (doc_seen doc.old) (doc_seen doc.new)) }
{
    let Some(moving) = group_of(&doc.root, id) else {
        return Err(TreeFail::NoSuchPath);
    };
    if !fits(moving, LEVELS - 2) {
        return Err(TreeFail::TooDeep);
    }
    if !is_free(doc, bin) {
        return Err(TreeFail::IdTaken(bin));
    }
    let since = time_after(now, doc.meta.bin.changed)?;
    let time = time_after(now, moving.placed)?;
    move_to_new_bin(alloc, &mut doc.root, bin, now, Moving { from, id, time })?;
    doc.meta.bin = Timed {
        changed: since,
        value: Bin {
            enabled: doc.meta.bin.value.enabled,
            id: bin,
        },
    };
    Ok(Removed::Recycled)
}
