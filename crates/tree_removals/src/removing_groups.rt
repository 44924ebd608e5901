//! Groups removed.

ghost use Rattle.std.specs.Prelude.{◌≡◌, is_some};
ghost use Rattle.vault_model.specs.SeenDoc.{doc_seen};
ghost use Rattle.tree_core.specs.After.{after_remove_group, needs_bin};
ghost use Rattle.tree_removals.specs.Removes.{Removes};

use crate::deleting_groups::delete_group;
use crate::is_recycled;
use crate::recycling_groups::{recycle_group, recycle_with_new_bin};
use std::alloc::Global;
use tree_core::{Removed, TreeFail, find_group};
use tree_moves::parent_of;
use uuid_core::Uuid;
use vault_model::{Doc, Stamp};

/// Removes the group that a path names, and all that is in it. Where recycling is enabled and the
/// group is neither the bin nor below it, it goes into the bin, as by a move; a missing bin is made
/// first, of the id that is given, as the last group of the root. Otherwise the group and all nodes
/// below it are deleted, and a tombstone names each since now, or since it was last modified if that
/// is later. A refusal changes nothing.
pub fn remove_group(
    alloc: Global,
    doc: &mut Doc,
    path: &str,
    bin: Option<Uuid>,
    now: Stamp,
) -> Result<Removed, TreeFail>
    requires { is_some bin ≡ needs_bin (doc_seen doc.old) }
    ensures { Removes (after_remove_group path.now bin now (doc_seen doc.old)) result
        (doc_seen doc.old) (doc_seen doc.new) }
{
    let Some(id) = find_group(doc, path) else {
        return Err(TreeFail::NoSuchPath);
    };
    let Some(from) = parent_of(&doc.root, id) else {
        return Err(TreeFail::RootFixed);
    };
    if !is_recycled(doc, id) {
        return delete_group(alloc, doc, from, id, now);
    }
    match bin {
        Some(bin) => recycle_with_new_bin(alloc, doc, from, id, bin, now),
        None => recycle_group(alloc, doc, from, id, now),
    }
}
