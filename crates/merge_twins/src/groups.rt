//! The groups of the copies.
ghost use Rattle.std.specs.Prelude.{◌≡◌, ◌<◌, ◌≤◌, ◌++◌, codes, decimal, IfOk, OnOk, map};
ghost use Rattle.vault_model.specs.Empty.{new_group};
ghost use Rattle.vault_model.specs.SeenNodes.{entry_row, tree_seen};
ghost use Rattle.vault_model.specs.Tree.{all_trees, node};
ghost use Rattle.merge_twins.specs.Rules.{rules_of};
ghost use Rattle.merge_twins.specs.Twins.{group_tree, numbers, root_id, twin_tree};

use crate::entries::put_entries;
use crate::rules::{Which, group_id, time};
use outside_core::{List, NoMemory, Text};
use std::alloc::Global;
use uuid_core::Uuid;
use vault_making::copies::put_last;
use vault_model::{Entry, Group, GroupContent, GroupState, GroupView, Stats, Tri};

/// The id of both roots.
const ROOT: [u8; 16] = [
    0x6b, 0x5f, 0x0f, 0x1e, 0x9d, 0x1c, 0x4c, 0x3a, 0x8f, 0x57, 0x0d, 0x2c, 0x1e, 0x4a, 0x7b, 0x90,
];

// What a new group of this name is.
fn new_state(alloc: Global, name: Text) -> GroupState
    ensures { result ≡ (new_group name 1000).state }
{
    GroupState {
        modified: time(1_000),
        content: GroupContent {
            created: time(1_000),
            expiry: time(1_000),
            expires: false,
            name,
            notes: Text::new(alloc),
            icon: 48,
            custom_icon: None,
            sequence: Text::new(alloc),
            auto_type: Tri::Inherit,
            searching: Tri::Inherit,
            items: List::new(alloc),
            tags: Text::new(alloc),
        },
        stats: Stats {
            accessed: time(1_000),
            usage: 0,
        },
    }
}

// A new group of this name with what is in it.
fn group_with(
    alloc: Global,
    id: Uuid,
    name: Text,
    entries: List<Entry>,
    groups: List<Group>,
) -> Group
    ensures { tree_seen result ≡ node id (new_group name 1000) (map entry_row entries)
        (all_trees (map tree_seen groups)) }
{
    Group {
        id,
        placed: time(1_000),
        previous: Uuid::nil(),
        state: new_state(alloc, name),
        view: GroupView {
            expanded: true,
            top_entry: Uuid::nil(),
        },
        entries,
        groups,
    }
}

// The name of a group.
fn name_of(alloc: Global, number: u32) -> Result<Text, NoMemory>
    ensures { IfOk result (λ name. name ≡ codes "G" ++ decimal number) }
{
    let text = format!(in alloc; "G{number}")?;
    let name = Text::of(alloc, text.as_str());
    drop(text);
    name
}

// A group of a copy, with its entries.
fn group(alloc: Global, which: Which, count: u32, number: u32) -> Result<Group, NoMemory>
    requires count { count ≤ 50_000 }
    requires number { number < 16 }
    ensures { IfOk result (λ group. tree_seen group ≡ group_tree (rules_of which) count number) }
{
    let name = name_of(alloc, number)?;
    let mut entries = List::new(alloc);
    match put_entries(alloc, which, count, number, &mut entries) {
        Ok(()) => Ok(group_with(alloc, group_id(number), name, entries, List::new(alloc))),
        Err(refusal) => {
            drop(name);
            drop(entries);
            Err(refusal)
        }
    }
}

// Puts the groups of a copy after others.
fn put_groups(
    alloc: Global,
    which: Which,
    count: u32,
    groups: &mut List<Group>,
) -> Result<(), NoMemory>
    requires { count ≤ 50_000 }
    ensures { OnOk result (map tree_seen groups.new
        ≡ map tree_seen groups.old ++ map (group_tree (rules_of which) count) (numbers 16)) }
{
    for number in 0..16 {
        let made = group(alloc, which, count, number)?;
        put_last(groups, made)?;
    }
    Ok(())
}

/// The root of a copy, with all that is below it.
pub(crate) fn root(alloc: Global, which: Which, count: u32) -> Result<Group, NoMemory>
    requires { count ≤ 50_000 }
    ensures { IfOk result (λ root. tree_seen root ≡ twin_tree (rules_of which) count) }
{
    let name = Text::of(alloc, "Root")?;
    let mut groups = List::new(alloc);
    match put_groups(alloc, which, count, &mut groups) {
        Ok(()) => Ok(group_with(
            alloc,
            Uuid::from_bytes(ROOT),
            name,
            List::new(alloc),
            groups,
        )),
        Err(refusal) => {
            drop(name);
            drop(groups);
            Err(refusal)
        }
    }
}
