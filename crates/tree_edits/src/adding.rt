//! Entries added.

ghost use Rattle.std.specs.Prelude.{◌≡◌, IfSome, true};
ghost use Rattle.std.specs.Str.{is_utf8};
ghost use Rattle.vault_model.specs.SeenDoc.{doc_seen};
ghost use Rattle.tree_core.specs.After.{Changes, after_add};
ghost use Rattle.tree_core.specs.NewNodes.{given_values};

use crate::new_entries::{new_entry, new_fields};
use std::alloc::Global;
use tree_contents::values_are_utf8;
use tree_core::{TreeFail, Values, find_group_at, is_entry_path};
use tree_steps::{before_last, is_free, name_after, path_of_new, put_entry};
use uuid_core::Uuid;
use vault_model::{Doc, Stamp};

/// Puts a new entry after the others of a group: the group that the part of the path before its last
/// slash names, and the root without a slash; the part after it is the entry's title, and a title
/// among the values is passed over. It has five fields, empty where no value is given, hidden as the
/// database says. All its times are now. A refusal changes nothing.
pub fn add(
    alloc: Global,
    doc: &mut Doc,
    path: &str,
    id: Uuid,
    values: &Values<'_>,
    now: Stamp,
) -> Result<(), TreeFail>
    requires { IfSome values.now.password (λ password. is_utf8 password.now ≡ true) }
    ensures { Changes (after_add path.now id (given_values values.now) now (doc_seen doc.old))
        result (doc_seen doc.old) (doc_seen doc.new) }
{
    let Some(group) = find_group_at(doc, before_last(path.as_bytes())) else {
        return Err(TreeFail::NoSuchPath);
    };
    let new_path = path_of_new(alloc, path)?;
    if is_entry_path(doc, new_path.as_slice()) {
        return Err(TreeFail::NameTaken);
    }
    if !is_free(doc, id) {
        return Err(TreeFail::IdTaken(id));
    }
    values_are_utf8(values);
    let protect = &doc.meta.settings.value.protect;
    let fields = new_fields(alloc, protect, name_after(path), values)?;
    match put_entry(&mut doc.root, group, new_entry(alloc, id, fields, now)) {
        Some(Ok(())) => Ok(()),
        Some(Err(_)) => Err(TreeFail::NoMemory),
        None => Err(TreeFail::NoSuchPath),
    }
}
