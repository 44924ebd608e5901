//! The groups that folders give.

ghost use Rattle.std.specs.Prelude.{◌≡◌, ◌==◌, IfOk, filter, map};
ghost use Rattle.std.specs.List.{find, slice_split};
ghost use Rattle.bitwarden_core.specs.Folders as spec;
ghost use Rattle.bitwarden_forms.specs.Kinds as kinds_spec;
ghost use Rattle.bitwarden_forms.specs.Seen.{lent_value};
ghost use Rattle.serde_json.specs.View.{view};

use bitwarden_forms::{has_id, text};
use outside_core::{List, NoMemory, Text};
use serde_json::Value;
use std::alloc::{AllocError, Global};

// The parts of a text between its slashes.
fn parts_of<'a>(alloc: Global, path: &'a str) -> Result<Vec<&'a str>, AllocError>
    ensures { IfOk result (λ parts. map (λ part. part.now) parts.items
        ≡ slice_split (λ b. b == 47) path.now) }
{
    path.split('/').collect(alloc)
}

// The parts that are not empty, each in memory of its own.
fn names_of(alloc: Global, parts: &[&str]) -> Result<List<Text>, NoMemory>
    ensures { IfOk result (λ names. names
        ≡ filter spec.is_name (map (λ part. part.now) parts.now)) }
{
    let mut names = List::new(alloc);
    for part in parts {
        if part.is_empty() {
            continue;
        }
        let name = Text::of(alloc, part)?;
        if names.push(name).is_err() {
            return Err(NoMemory);
        }
    }
    Ok(names)
}

// The names that a text has between its slashes.
fn names_in(alloc: Global, path: &str) -> Result<List<Text>, NoMemory>
    ensures { IfOk result (λ names. names ≡ spec.names_in path.now) }
{
    let parts = parts_of(alloc, path)?;
    names_of(alloc, parts.as_slice())
}

// The first of some folders that has this id.
fn find_folder<'a>(folders: &'a [Value], id: &str) -> Option<&'a Value>
    ensures { lent_value result ≡ find (kinds_spec.has_id id.now) (map view folders.now) }
{
    for folder in folders {
        if has_id(folder, id) {
            return Some(folder);
        }
    }
    None
}

// The first of some folders that an item names, if it names one.
fn folder_of<'a>(folders: &'a [Value], item: &Value) -> Option<&'a Value>
    ensures { lent_value result ≡ spec.folder_of (map view folders.now) (view item.now) }
{
    match item.get("folderId").and_then(Value::as_str) {
        Some(id) => find_folder(folders, id),
        None => None,
    }
}

/// The names of the groups that lead to a folder, its own among them.
pub(crate) fn folder_groups(alloc: Global, folder: &Value) -> Result<List<Text>, NoMemory>
    ensures { IfOk result (λ names. names ≡ spec.folder_names (view folder.now)) }
{
    names_in(alloc, text(Some(folder), "name"))
}

/// The names of the groups that lead to an item; none where it names no folder.
pub(crate) fn item_groups(
    alloc: Global,
    folders: &[Value],
    item: &Value,
) -> Result<List<Text>, NoMemory>
    ensures { IfOk result (λ names. names
        ≡ spec.item_groups (map view folders.now) (view item.now)) }
{
    match folder_of(folders, item) {
        Some(folder) => folder_groups(alloc, folder),
        None => Ok(List::new(alloc)),
    }
}
