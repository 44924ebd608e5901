//! Finding nodes by their ids and by their paths.

ghost use Rattle.std.specs.Prelude.{◌≡◌, Some, codes, map, option_map};
ghost use Rattle.vault_model.specs.SeenDoc.{doc_seen};
ghost use Rattle.vault_model.specs.SeenNodes.{bare_version, entry_record, entry_row, tree_seen};
ghost use Rattle.vault_model.specs.Walk.{title_of, value_of};
ghost use Rattle.tree_core.specs.Finding.{entry_found, group_at_path, group_found, has_entry_path, has_group_path};
ghost use Rattle.tree_core.specs.Path as spec;

use crate::by_id::{entry_with_name, group_with_name};
use crate::path::{is_exactly, strip_component, strip_prefix, without_slashes};
use uuid_core::Uuid;
use vault_model::{Doc, Entry, Group, Version};

/// The title that a version has: the value of its field `Title`, and empty where there is none.
pub fn title_of_version(version: &Version) -> &[u8]
    ensures { result.now
        ≡ value_of (codes "Title") (bare_version version.now).mark.content.fields }
{
    for field in version.content.fields.as_slice() {
        if "Title" == field.key.as_str() {
            return field.value.lend(0, field.value.len());
        }
    }
    &[]
}

/// An entry's title: that of its current version.
pub fn title(entry: &Entry) -> &[u8]
    ensures { result.now ≡ title_of (entry_record entry.now) }
{
    title_of_version(&entry.current)
}

// Of entries the first of which one of two rests is the title.
fn entry_among(entries: &[Entry], rest: Option<&[u8]>, other: Option<&[u8]>) -> Option<Uuid>
    ensures { result ≡ spec.entry_among (option_map (λ r. r.now) rest.entry)
        (option_map (λ r. r.now) other.entry) (map entry_row entries.now) }
{
    for entry in entries {
        let title = title(entry);
        if is_exactly(title, rest) || is_exactly(title, other) {
            return Some(entry.id);
        }
    }
    None
}

// Of a group's entries and those below it the first that one of two rests names.
pub(crate) fn entry_in(group: &Group, rest: Option<&[u8]>, other: Option<&[u8]>) -> Option<Uuid>
    ensures { result ≡ spec.entry_in (option_map (λ r. r.now) rest.entry)
        (option_map (λ r. r.now) other.entry) (tree_seen group.now) }
{
    if let Some(id) = entry_among(group.entries.as_slice(), rest, other) {
        return Some(id);
    }
    for child in group.groups.as_slice() {
        let name = child.state.content.name.as_str().as_bytes();
        if let Some(id) = entry_in(
            child,
            strip_component(name, rest),
            strip_component(name, other),
        ) {
            return Some(id);
        }
    }
    None
}

// Of the groups below a group the first that a rest names.
pub(crate) fn group_in(group: &Group, rest: Option<&[u8]>) -> Option<Uuid>
    ensures { result ≡ spec.group_in (option_map (λ r. r.now) rest.entry) (tree_seen group.now) }
{
    for child in group.groups.as_slice() {
        let name = child.state.content.name.as_str().as_bytes();
        if is_exactly(name, rest) {
            return Some(child.id);
        }
        if let Some(id) = group_in(child, strip_component(name, rest)) {
            return Some(id);
        }
    }
    None
}

/// The entry that a text names: the one whose id in braces it is, and else the first in document
/// order of which it is the path, or a slash and the path. An entry's path is the names of its
/// groups below the root and its title, with a slash between each two. Takes no memory.
pub fn find_entry(doc: &Doc, path: &str) -> Option<Uuid>
    ensures { result ≡ entry_found (doc_seen doc.now) path.now }
{
    let path = path.as_bytes();
    if let Some(id) = entry_with_name(&doc.root, path) {
        return Some(id);
    }
    entry_in(&doc.root, Some(path), strip_prefix(b"/", path))
}

/// The group that a text names, but for one leading slash and one at its end: the one whose id in
/// braces the text is, and else the one whose path it is. Takes no memory.
pub fn find_group(doc: &Doc, path: &str) -> Option<Uuid>
    ensures { result ≡ group_found (doc_seen doc.now) path.now }
{
    let path = path.as_bytes();
    if let Some(id) = group_with_name(&doc.root, without_slashes(path)) {
        return Some(id);
    }
    find_group_at(doc, path)
}

/// The group at a path: the first in document order whose path the text is, but for one leading
/// slash and one at its end. A group's path is the names of the groups that lead to it from below
/// the root and its own, with a slash between each two; the root's path is empty. Takes no memory.
pub fn find_group_at(doc: &Doc, path: &[u8]) -> Option<Uuid>
    ensures { result ≡ group_at_path (doc_seen doc.now) path.now }
{
    let path = without_slashes(path);
    if path.is_empty() {
        return Some(doc.root.id);
    }
    group_in(&doc.root, Some(path))
}

/// Reports whether an entry has this very path. Takes no memory.
pub fn is_entry_path(doc: &Doc, path: &[u8]) -> bool
    ensures { result ≡ has_entry_path (doc_seen doc.now) path.now }
{
    entry_in(&doc.root, Some(path), None).is_some()
}

/// Reports whether a group has this very path; the root's is empty. Takes no memory.
pub fn is_group_path(doc: &Doc, path: &[u8]) -> bool
    ensures { result ≡ has_group_path (doc_seen doc.now) path.now }
{
    path.is_empty() || group_in(&doc.root, Some(path)).is_some()
}
