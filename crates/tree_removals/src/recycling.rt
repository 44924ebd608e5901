//! Nodes put into the bin.

ghost use Rattle.std.specs.Prelude.{◌≡◌, ◌≢◌, IfSome, IsSome, MatchResult, None, Some, false, true};
ghost use Rattle.vault_model.specs.Db.{NodeId, nil_id};
ghost use Rattle.vault_model.specs.Shape.{EntryRecord};
ghost use Rattle.vault_model.specs.Tree.{is_elsewhere};
ghost use Rattle.vault_model.specs.SeenDoc.{doc_seen};
ghost use Rattle.vault_model.specs.SeenNodes.{tree_seen};
ghost use Rattle.vault_model.specs.declared.nodes.Group.{out-Group};
ghost use Rattle.tree_core.specs.After as spec;
ghost use Rattle.tree_core.specs.Changes.{changed_at, entry_at, entry_moved, group_with, has_group, with_entry, with_group};
ghost use Rattle.tree_core.specs.NewNodes.{empty_bin};
ghost use Rattle.tree_removals.specs.Removes.{Removes, with_bin_in};

use outside_core::NoMemory;
use std::alloc::Global;
use tree_core::{Removed, TreeFail};
use tree_moves::tree_groups::{new_bin, put_group};
use tree_moves::{move_in, move_to_place, no_entry};
use tree_steps::{entry_of, group_of, has_group, is_free, put_entry, time_after};
use uuid_core::Uuid;
use vault_model::{Bin, Doc, Group, Stamp, Timed};

// Reports whether a group is another, or below it, where the other is there.
fn is_in(root: &Group, top: Uuid, group: Uuid) -> bool
    ensures { result ≡ spec.has_group_in group (group_with top (tree_seen root.now)) }
{
    match group_of(root, top) {
        Some(top) => has_group(top, group),
        None => false,
    }
}

/// Reports whether a node of this group, or the group itself, goes into the bin and is not deleted.
pub fn is_recycled(doc: &Doc, group: Uuid) -> bool
    ensures { result ≡ spec.is_recycled group (doc_seen doc.now) }
{
    let bin = doc.meta.bin.value;
    bin.enabled && !is_in(&doc.root, bin.id, group)
}

/// Puts an entry into the bin that is there.
pub(crate) fn recycle_entry(
    alloc: Global,
    doc: &mut Doc,
    from: Uuid,
    id: Uuid,
    now: Stamp,
) -> Result<Removed, TreeFail>
    requires there { IsSome (entry_at from id (doc_seen doc.old).tree) }
    requires other { from ≢ (doc_seen doc.old).meta.bin.value.id }
    requires goal { has_group (doc_seen doc.old).meta.bin.value.id (doc_seen doc.old).tree ≡ true }
    ensures { IfSome (entry_at from id (doc_seen doc.old).tree)
        (λ e. Removes (spec.entry_recycled None (record { group = from; entry = e }) now
        (doc_seen doc.old)) result (doc_seen doc.old) (doc_seen doc.new)) }
{
    let Some(entry) = entry_of(&doc.root, from, id) else {
        return Err(TreeFail::NoSuchPath);
    };
    let time = time_after(now, entry.placed)?;
    let to = doc.meta.bin.value.id;
    match move_in(alloc, &mut doc.root, from, to, id, time) {
        Ok(()) => Ok(Removed::Recycled),
        Err(_) => Err(TreeFail::NoMemory),
    }
}

/// Puts a group after the other groups of the root. Where memory runs out nothing has changed.
pub(crate) fn put_top(root: &mut Group, group: Group) -> Result<(), NoMemory>
    ensures { MatchResult result (λ _. tree_seen root.new
        ≡ changed_at (out-Group root.old).id (with_group (tree_seen group)) (tree_seen root.old))
        (λ _. tree_seen root.new ≡ tree_seen root.old) }
{
    let top = root.id;
    match put_group(root, top, group) {
        Some(Ok(())) => Ok(()),
        _ => Err(NoMemory),
    }
}

// Puts a new bin with a place for an entry after the other groups of the root.
fn put_bin(alloc: Global, root: &mut Group, bin: Uuid, now: Stamp) -> Result<(), NoMemory>
    requires { has_group bin (tree_seen root.old) ≡ false }
    ensures { MatchResult result (λ _. (hole : NodeId × EntryRecord) × (hole.0 ≡ nil_id)
        × (tree_seen root.new
        ≡ changed_at bin (with_entry hole) (with_bin_in bin now (tree_seen root.old))))
        (λ _. tree_seen root.new ≡ tree_seen root.old) }
{
    let mut group = new_bin(alloc, bin, now)?;
    match put_entry(&mut group, bin, no_entry(alloc)) {
        Some(Ok(())) => put_top(root, group),
        _ => {
            drop(group);
            Err(NoMemory)
        }
    }
}

// An entry that is to be moved: the group that it is in, its id, and since when it is in its new
// group.
#[derive(Clone, Copy)]
struct Moving {
    from: Uuid,
    id: Uuid,
    time: Stamp,
}

// Makes the bin, and puts an entry into it.
fn move_to_new_bin(
    alloc: Global,
    root: &mut Group,
    bin: Uuid,
    now: Stamp,
    entry: Moving,
) -> Result<(), NoMemory>
    requires there { IsSome (entry_at entry.from entry.id (tree_seen root.old)) }
    requires absent { has_group bin (tree_seen root.old) ≡ false }
    requires no_nil { is_elsewhere (with_bin_in bin now (tree_seen root.old)) nil_id ≡ true }
    ensures { MatchResult result (λ _. IfSome (entry_at entry.from entry.id (tree_seen root.old))
        (λ e. tree_seen root.new
        ≡ entry_moved entry.from bin entry.time e (with_bin_in bin now (tree_seen root.old))))
        (λ _. tree_seen root.new ≡ tree_seen root.old) }
{
    put_bin(alloc, root, bin, now)?;
    move_to_place(root, entry.from, bin, entry.id, entry.time);
    Ok(())
}

/// Makes the bin, and puts an entry into it.
pub(crate) fn recycle_with_new_bin(
    alloc: Global,
    doc: &mut Doc,
    from: Uuid,
    id: Uuid,
    bin: Uuid,
    now: Stamp,
) -> Result<Removed, TreeFail>
    requires there { IsSome (entry_at from id (doc_seen doc.old).tree) }
    ensures { IfSome (entry_at from id (doc_seen doc.old).tree)
        (λ e. Removes (spec.entry_recycled (Some bin) (record { group = from; entry = e }) now
        (doc_seen doc.old)) result (doc_seen doc.old) (doc_seen doc.new)) }
{
    if !is_free(doc, bin) {
        return Err(TreeFail::IdTaken(bin));
    }
    let since = time_after(now, doc.meta.bin.changed)?;
    let Some(entry) = entry_of(&doc.root, from, id) else {
        return Err(TreeFail::NoSuchPath);
    };
    let time = time_after(now, entry.placed)?;
    let moving = Moving { from, id, time };
    move_to_new_bin(alloc, &mut doc.root, bin, now, moving)?;
    doc.meta.bin = Timed {
        changed: since,
        value: Bin {
            enabled: doc.meta.bin.value.enabled,
            id: bin,
        },
    };
    Ok(Removed::Recycled)
}
