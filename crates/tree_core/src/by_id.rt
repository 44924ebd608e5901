//! Finding nodes by their ids, which are written in braces.

ghost use Rattle.std.specs.Prelude.{◌≡◌, bytes_eq, map};
ghost use Rattle.vault_model.specs.SeenNodes.{entry_row, tree_seen};
ghost use Rattle.tree_core.specs.ById as spec;
ghost use Rattle.tree_core.specs.Finding.{id_name};

use crate::path::{is_exactly, strip_prefix};
use uuid_core::Uuid;
use vault_model::{Entry, Group};

// Reports whether a text names an id: it is the id as it is shown, in braces.
fn is_name_of(id: &Uuid, text: &[u8]) -> bool
    ensures { result ≡ bytes_eq text.now (id_name id.now) }
{
    let Some(rest) = strip_prefix(b"{", text) else {
        return false;
    };
    let mut digits = [0; 36];
    let shown = id.encode_hyphenated(&mut digits);
    is_exactly(b"}", strip_prefix(shown.as_bytes(), rest))
}

// Of entries the first whose id a text names.
fn named_among(entries: &[Entry], text: &[u8]) -> Option<Uuid>
    ensures { result ≡ spec.named_among text.now (map entry_row entries.now) }
{
    for entry in entries {
        if is_name_of(&entry.id, text) {
            return Some(entry.id);
        }
    }
    None
}

// Of a group's entries and those below it the first whose id a text names.
pub(crate) fn entry_with_name(group: &Group, text: &[u8]) -> Option<Uuid>
    ensures { result ≡ spec.entry_with_name text.now (tree_seen group.now) }
{
    if let Some(id) = named_among(group.entries.as_slice(), text) {
        return Some(id);
    }
    for child in group.groups.as_slice() {
        if let Some(id) = entry_with_name(child, text) {
            return Some(id);
        }
    }
    None
}

// Of a group and those below it the first whose id a text names.
pub(crate) fn group_with_name(group: &Group, text: &[u8]) -> Option<Uuid>
    ensures { result ≡ spec.group_with_name text.now (tree_seen group.now) }
{
    if is_name_of(&group.id, text) {
        return Some(group.id);
    }
    for child in group.groups.as_slice() {
        if let Some(id) = group_with_name(child, text) {
            return Some(id);
        }
    }
    None
}
