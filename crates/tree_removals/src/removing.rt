//! Nodes removed.

ghost use Rattle.std.specs.Prelude.{◌≡◌, is_some};
ghost use Rattle.vault_model.specs.SeenDoc.{doc_seen};
ghost use Rattle.tree_core.specs.After.{after_remove_entry, needs_bin};
ghost use Rattle.tree_removals.specs.Removes.{Removes};

use crate::deleting::delete_entry;
use crate::recycling::{is_recycled, recycle_entry, recycle_with_new_bin};
use std::alloc::Global;
use tree_core::{Removed, TreeFail, find_entry};
use tree_steps::{entry_of, holder};
use uuid_core::Uuid;
use vault_model::{Doc, Stamp};

/// Removes the entry that a path names. Where recycling is enabled and the entry is not in the bin or
/// below it, it goes into the bin, as by a move; a missing bin is made first, of the id that is given,
/// as the last group of the root. Otherwise the entry is deleted, and a tombstone names it since now,
/// or since it was last modified if that is later. A refusal changes nothing.
pub fn remove_entry(
    alloc: Global,
    doc: &mut Doc,
    path: &str,
    bin: Option<Uuid>,
    now: Stamp,
) -> Result<Removed, TreeFail>
    requires { is_some bin ≡ needs_bin (doc_seen doc.old) }
    ensures { Removes (after_remove_entry path.now bin now (doc_seen doc.old)) result
        (doc_seen doc.old) (doc_seen doc.new) }
{
    let Some(id) = find_entry(doc, path) else {
        return Err(TreeFail::NoSuchPath);
    };
    let Some(from) = holder(&doc.root, id) else {
        return Err(TreeFail::NoSuchPath);
    };
    if entry_of(&doc.root, from, id).is_none() {
        return Err(TreeFail::NoSuchPath);
    }
    if !is_recycled(doc, from) {
        return delete_entry(doc, from, id, now);
    }
    match bin {
        Some(bin) => recycle_with_new_bin(alloc, doc, from, id, bin, now),
        None => recycle_entry(alloc, doc, from, id, now),
    }
}
