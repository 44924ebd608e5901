//! The entries of the copies.
ghost use Rattle.std.specs.Prelude.{◌≡◌, ◌<◌, ◌≤◌, [], ◌∷◌, ◌++◌, None, Some, IfOk, OnOk, map};
ghost use Rattle.vault_model.specs.SeenNodes.{bare_version, entry_row};
ghost use Rattle.merge_twins.specs.Rules.{row_if, rules_of};
ghost use Rattle.merge_twins.specs.Twins.{entries_in, entry_with, row_of};
ghost use Rattle.merge_twins.specs.Twins as spec;

use crate::rules::{Which, entry_id, group_of, is_there, placed_at};
use crate::versions::{later_version, shared_version};
use outside_core::{List, NoMemory};
use std::alloc::Global;
use uuid_core::Uuid;
use vault_making::copies::put_last;
use vault_model::{Entry, Stamp, Version};

// An entry with one version.
fn entry_of_one(alloc: Global, number: u32, placed: Stamp, shared: Version) -> Entry
    requires few { number < 50_000 }
    requires shared { bare_version shared ≡ spec.shared_version number }
    ensures { entry_row result ≡ (spec.entry_id number, entry_with number placed None) }
{
    Entry {
        id: entry_id(number),
        placed,
        previous: Uuid::nil(),
        current: shared,
        history: List::new(alloc),
    }
}

// An entry with two versions, of which the shared one is its history.
fn entry_of_two(
    alloc: Global,
    number: u32,
    placed: Stamp,
    shared: Version,
    later: Version,
) -> Result<Entry, NoMemory>
    requires few { number < 50_000 }
    requires shared { bare_version shared ≡ spec.shared_version number }
    ensures { IfOk result (λ entry. entry_row entry
        ≡ (spec.entry_id number, entry_with number placed (Some (bare_version later)))) }
{
    let mut history = List::new(alloc);
    match put_last(&mut history, shared) {
        Ok(()) => Ok(Entry {
            id: entry_id(number),
            placed,
            previous: Uuid::nil(),
            current: later,
            history,
        }),
        Err(refusal) => {
            drop(history);
            drop(later);
            Err(refusal)
        }
    }
}

// The entry of a number in a copy.
fn entry(alloc: Global, which: Which, number: u32) -> Result<Entry, NoMemory>
    requires { number < 50_000 }
    ensures { IfOk result (λ entry. entry_row entry ≡ row_of (rules_of which) number) }
{
    let shared = shared_version(alloc, number)?;
    let placed = placed_at(which, number);
    match later_version(alloc, which, number) {
        Ok(Some(later)) => entry_of_two(alloc, number, placed, shared, later),
        Ok(None) => Ok(entry_of_one(alloc, number, placed, shared)),
        Err(refusal) => {
            drop(shared);
            Err(refusal)
        }
    }
}

// Puts an entry after others, if it is in a group of a copy.
fn put_entry(
    alloc: Global,
    which: Which,
    number: u32,
    group: u32,
    entries: &mut List<Entry>,
) -> Result<(), NoMemory>
    requires { number < 50_000 }
    ensures { OnOk result (map entry_row entries.new
        ≡ map entry_row entries.old ++ row_if (rules_of which) group number) }
{
    if is_there(which, number) && group_of(which, number) == group {
        let made = entry(alloc, which, number)?;
        put_last(entries, made)?;
    }
    Ok(())
}

/// Puts the entries of a group of a copy of so many after others.
pub(crate) fn put_entries(
    alloc: Global,
    which: Which,
    count: u32,
    group: u32,
    entries: &mut List<Entry>,
) -> Result<(), NoMemory>
    requires { count ≤ 50_000 }
    ensures { OnOk result (map entry_row entries.new
        ≡ map entry_row entries.old ++ entries_in (rules_of which) count group) }
{
    for number in 0..count {
        put_entry(alloc, which, number, group, entries)?;
    }
    Ok(())
}
