//! Groups made.

ghost use Rattle.std.specs.Prelude.{◌≡◌};
ghost use Rattle.vault_model.specs.SeenDoc.{doc_seen};
ghost use Rattle.tree_core.specs.Finding as named;
ghost use Rattle.tree_core.specs.After.{Changes, after_make_group, after_new_group};
ghost use Rattle.tree_core.specs.NewPaths.{after_last};

use crate::groups::put_group;
use crate::levels::{LEVELS, levels_below};
use crate::new_groups::new_group;
use crate::paths::is_taken;
use std::alloc::Global;
use tree_core::{TreeFail, find_group_at};
use tree_steps::{before_last, is_free, name_after, path_of_new};
use uuid_core::Uuid;
use vault_model::{Doc, Stamp};

// A path without one slash at its start and one at its end.
fn without_slashes(path: &str) -> &str
    ensures { result.now ≡ named.without_slashes path.now }
{
    let rest = path.strip_prefix("/").unwrap_or(path);
    rest.strip_suffix("/").unwrap_or(rest)
}

/// The name of the group that is made of a path: the part after the last slash, of a path without one
/// slash at its start and one at its end.
pub fn name_of_new(path: &str) -> &str
    ensures { result.now ≡ after_last (named.without_slashes path.now) }
{
    name_after(without_slashes(path))
}

// Makes a group of a path that has no slashes around it.
fn make_of(alloc: Global, doc: &mut Doc, path: &str, id: Uuid, now: Stamp) -> Result<(), TreeFail>
    ensures { Changes (after_new_group path.now id now (doc_seen doc.old)) result
        (doc_seen doc.old) (doc_seen doc.new) }
{
    let Some(group) = find_group_at(doc, before_last(path.as_bytes())) else {
        return Err(TreeFail::NoSuchPath);
    };
    let new_path = path_of_new(alloc, path)?;
    if is_taken(doc, new_path.as_slice()) {
        return Err(TreeFail::NameTaken);
    }
    if levels_below(&doc.root, group, LEVELS).unwrap_or(0) == 0 {
        return Err(TreeFail::TooDeep);
    }
    if !is_free(doc, id) {
        return Err(TreeFail::IdTaken(id));
    }
    let new = new_group(alloc, id, name_after(path), now)?;
    match put_group(&mut doc.root, group, new) {
        Some(Ok(())) => Ok(()),
        Some(Err(_)) => Err(TreeFail::NoMemory),
        None => Err(TreeFail::NoSuchPath),
    }
}

/// Puts a new group after the others in a group: the group that the part of the path before its last
/// slash names, and the root without a slash; the part after it is the new group's name. One slash at
/// the start of the path and one at its end are passed over. All its times are now, and nothing is in
/// it. A refusal changes nothing.
pub fn make_group(
    alloc: Global,
    doc: &mut Doc,
    path: &str,
    id: Uuid,
    now: Stamp,
) -> Result<(), TreeFail>
    ensures { Changes (after_make_group path.now id now (doc_seen doc.old)) result
        (doc_seen doc.old) (doc_seen doc.new) }
{
    make_of(alloc, doc, without_slashes(path), id, now)
}
