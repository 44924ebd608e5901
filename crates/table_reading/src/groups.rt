//! The names of the groups that lead to an entry.

ghost use Rattle.std.specs.Prelude.{◌≡◌, ◌==◌, IfOk, OnOk, filter, map};
ghost use Rattle.std.specs.List.{slice_split};
ghost use Rattle.table_reading.specs.Groups as spec;

use outside_core::{List, NoMemory, Text};
use std::alloc::{AllocError, Global};

// The parts of a text between its slashes.
fn parts_of<'a>(alloc: Global, text: &'a str) -> Result<Vec<&'a str>, AllocError>
    ensures { IfOk result (λ parts. map (λ part. part.now) parts.items
        ≡ slice_split (λ b. b == 47) text.now) }
{
    text.split('/').collect(alloc)
}

// The parts that are not empty, each in memory of its own.
fn names_of(alloc: Global, parts: &[&str]) -> Result<List<Text>, NoMemory>
    ensures { IfOk result (λ names. names
        ≡ filter spec.is_name (map (λ part. part.now) parts.now)) }
{
    let mut names = List::new(alloc);
    for part in parts {
        if part.is_empty() {
            continue;
        }
        let name = Text::of(alloc, part)?;
        if names.push(name).is_err() {
            return Err(NoMemory);
        }
    }
    Ok(names)
}

// Reports whether the first of some names is that of the root.
fn begins_at_root(names: &[Text]) -> bool
    ensures { result ≡ spec.begins_at_root names.now }
{
    match names {
        [name, ..] => name.as_str() == "Root",
        [] => false,
    }
}

/// The names of the groups that lead to an entry, from below the root: the parts of a text between
/// its slashes; empty parts are passed over, and then a first part `Root`.
pub(crate) fn group_names(alloc: Global, text: &str) -> Result<List<Text>, NoMemory>
    ensures { IfOk result (λ names. names ≡ spec.group_names text.now) }
{
    let parts = parts_of(alloc, text)?;
    let mut names = names_of(alloc, parts.as_slice())?;
    if begins_at_root(names.as_slice()) {
        names.remove(0);
    }
    Ok(names)
}
