//! Tombstones of all nodes of a group.

ghost use Rattle.std.specs.Prelude.{◌≡◌, ◌++◌, IfOk, OnOk, map, true};
ghost use Rattle.std.specs.List.Sorted.{IsPermutation};
ghost use Rattle.vault_model.specs.SeenNodes.{entry_row, tree_seen};
ghost use Rattle.tree_core.specs.Changes.{tree_buried};
ghost use Rattle.tree_removals.specs.Tombs.{AreSorted, entry_tomb, entry_tombs, group_tombs, ids_rise, tombs_of};

use crate::later;
use outside_core::{List, NoMemory};
use std::alloc::Global;
use vault_model::{Entry, Group, Stamp, Tombstone, entry_stamp};

// A list of some tombstones.
fn copy_tombs(alloc: Global, tombs: &[Tombstone]) -> Result<List<Tombstone>, NoMemory>
    ensures { IfOk result (λ copy. copy ≡ tombs.now) }
{
    let mut copy = List::new(alloc);
    for tomb in tombs {
        copy.push(*tomb).map_err(|_tomb| NoMemory)?;
    }
    Ok(copy)
}

// Adds the tombstones of a group and of all groups below it.
fn bury_groups(tombs: &mut Vec<Tombstone>, group: &Group, now: Stamp) -> Result<(), NoMemory>
    ensures { OnOk result (tombs.new.items
        ≡ tombs.old.items ++ group_tombs now (tree_seen group.now)) }
{
    tombs.push(Tombstone {
        id: group.id,
        deleted: later(now, group.state.modified),
    })?;
    for child in group.groups.as_slice() {
        bury_groups(tombs, child, now)?;
    }
    Ok(())
}

// Adds the tombstones of some entries.
fn bury_own_entries(
    tombs: &mut Vec<Tombstone>,
    entries: &[Entry],
    now: Stamp,
) -> Result<(), NoMemory>
    ensures { OnOk result (tombs.new.items
        ≡ tombs.old.items ++ map (entry_tomb now) (map entry_row entries.now)) }
{
    for entry in entries {
        tombs.push(Tombstone {
            id: entry.id,
            deleted: later(now, entry_stamp(entry)),
        })?;
    }
    Ok(())
}

// Adds the tombstones of all entries in a group and below it.
fn bury_entries(tombs: &mut Vec<Tombstone>, group: &Group, now: Stamp) -> Result<(), NoMemory>
    ensures { OnOk result (tombs.new.items
        ≡ tombs.old.items ++ entry_tombs now (tree_seen group.now)) }
{
    bury_own_entries(tombs, group.entries.as_slice(), now)?;
    for child in group.groups.as_slice() {
        bury_entries(tombs, child, now)?;
    }
    Ok(())
}

// The tombstones of a group and of all nodes below it, and others after them.
fn gather_tombs(
    alloc: Global,
    tombs: &[Tombstone],
    group: &Group,
    now: Stamp,
) -> Result<Vec<Tombstone>, NoMemory>
    ensures { IfOk result (λ all. all.items ≡ tombs_of now (tree_seen group.now) ++ tombs.now) }
{
    let mut all = Vec::new(alloc);
    bury_entries(&mut all, group, now)?;
    bury_groups(&mut all, group, now)?;
    all.extend_from_slice(tombs)?;
    Ok(all)
}

// Puts tombstones in order by id.
fn sort_tombs(tombs: &mut Vec<Tombstone>) -> Result<(), NoMemory>
    ensures moved { IsPermutation tombs.old.items tombs.new.items }
    ensures sorted { OnOk result (AreSorted tombs.new.items) }
{
    tombs.sort_by_key(|tomb| tomb.id)?;
    Ok(())
}

/// Tombstones with those of a group and of all nodes below it, which are deleted now: all are
/// gathered, and sorted once.
pub(crate) fn tombs_with(
    alloc: Global,
    tombs: &[Tombstone],
    group: &Group,
    now: Stamp,
) -> Result<List<Tombstone>, NoMemory>
    requires { ids_rise (tree_buried now (tree_seen group.now) tombs.now) ≡ true }
    ensures { IfOk result (λ all. all ≡ tree_buried now (tree_seen group.now) tombs.now) }
{
    let mut all = gather_tombs(alloc, tombs, group, now)?;
    sort_tombs(&mut all)?;
    copy_tombs(alloc, all.as_slice())
}
