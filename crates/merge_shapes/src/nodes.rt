//! The nodes of a document side by side.
ghost use Rattle.std.specs.Prelude.{◌≡◌, [], IfOk, OnOk, map};
ghost use Rattle.vault_model.specs.Db.{NodeId};
ghost use Rattle.vault_model.specs.SeenNodes.{bare_version, entry_record, entry_row, tree_seen};
ghost use Rattle.vault_model.specs.Shape.{EntryRecord};
ghost use Rattle.vault_model.specs.Tree.{all_trees, ids_of};
ghost use Rattle.merge_shapes.specs.NodeTables.{children_in, with_nodes, with_row};

use merge_nodes::shapes::{Children, LentEntry, LentGroup, LentVersion, Stay};
use merge_tables::states::LentState;
use merge_tables::tables::Table;
use merge_tables::version_keys::VersionKey;
use outside_core::NoMemory;
use std::alloc::Global;
use uuid_core::Uuid;
use vault_model::{Entry, Group, Version};

/// The nodes of a document, and the children of its groups.
#[derive(Drop)]
pub struct NodeTables<'a> {
    pub entries: Table<LentEntry<'a>>,
    pub groups: Table<LentGroup<'a>>,
    pub children: Table<Children>,
}

/// A version, lent.
fn lent_version<'a>(version: &'a Version) -> LentVersion<'a>
    ensures { result ≡ bare_version version.now }
{
    let key = VersionKey::new(version.modified, &version.content);
    LentVersion::new(&key, version.stats)
}

/// Puts versions, lent, where none are. A refusal means that memory ran out.
fn push_versions<'a>(
    lent: &mut Vec<LentVersion<'a>>,
    history: &'a [Version],
) -> Result<(), NoMemory>
    requires { lent.old.items ≡ [] }
    ensures { OnOk result (lent.new.items ≡ map bare_version history.now) }
{
    for version in history {
        lent.push(lent_version(version))?;
    }
    Ok(())
}

/// Versions, lent.
fn lent_history<'a>(alloc: Global, history: &'a [Version]) -> Result<Vec<LentVersion<'a>>, NoMemory>
    ensures { IfOk result (λ vs. vs.items ≡ map bare_version history.now) }
{
    let mut lent = Vec::new(alloc);
    match push_versions(&mut lent, history) {
        Ok(()) => Ok(lent),
        Err(failed) => {
            drop(lent);
            Err(failed)
        }
    }
}

/// An entry, lent.
fn lent_entry<'a>(alloc: Global, entry: &'a Entry) -> Result<LentEntry<'a>, NoMemory>
    ensures { IfOk result (λ e. e ≡ entry_record entry.now) }
{
    let history = lent_history(alloc, entry.history.as_slice())?;
    let stay = Stay {
        placed: entry.placed,
        previous: entry.previous,
    };
    Ok(LentEntry::new(stay, lent_version(&entry.current), history))
}

/// Puts the ids of some entries where none are. A refusal means that memory ran out.
fn push_entry_ids(ids: &mut Vec<Uuid>, entries: &[Entry]) -> Result<(), NoMemory>
    requires { ids.old.items ≡ [] }
    ensures { OnOk result (ids.new.items
        ≡ map (λ (e : NodeId × EntryRecord). e.0) (map entry_row entries.now)) }
{
    for entry in entries {
        ids.push(entry.id)?;
    }
    Ok(())
}

/// The ids of some entries.
fn entry_ids(alloc: Global, entries: &[Entry]) -> Result<Vec<Uuid>, NoMemory>
    ensures { IfOk result (λ us. us.items
        ≡ map (λ (e : NodeId × EntryRecord). e.0) (map entry_row entries.now)) }
{
    let mut ids = Vec::new(alloc);
    match push_entry_ids(&mut ids, entries) {
        Ok(()) => Ok(ids),
        Err(failed) => {
            drop(ids);
            Err(failed)
        }
    }
}

/// Puts the ids of some groups where none are. A refusal means that memory ran out.
fn push_group_ids(ids: &mut Vec<Uuid>, groups: &[Group]) -> Result<(), NoMemory>
    requires { ids.old.items ≡ [] }
    ensures { OnOk result (ids.new.items ≡ ids_of (all_trees (map tree_seen groups.now))) }
{
    for group in groups {
        ids.push(group.id)?;
    }
    Ok(())
}

/// The ids of some groups.
fn group_ids(alloc: Global, groups: &[Group]) -> Result<Vec<Uuid>, NoMemory>
    ensures { IfOk result (λ us. us.items ≡ ids_of (all_trees (map tree_seen groups.now))) }
{
    let mut ids = Vec::new(alloc);
    match push_group_ids(&mut ids, groups) {
        Ok(()) => Ok(ids),
        Err(failed) => {
            drop(ids);
            Err(failed)
        }
    }
}

/// The ids of a group's children.
fn children_in(alloc: Global, group: &Group) -> Result<Children, NoMemory>
    ensures { IfOk result (λ c. c ≡ children_in (tree_seen group.now)) }
{
    let entries = entry_ids(alloc, group.entries.as_slice())?;
    match group_ids(alloc, group.groups.as_slice()) {
        Ok(groups) => Ok(Children::new(entries, groups)),
        Err(failed) => {
            drop(entries);
            Err(failed)
        }
    }
}

/// Adds an entry. A refusal means that memory ran out.
fn add_entry<'a>(
    alloc: Global,
    entry: &'a Entry,
    nodes: &mut NodeTables<'a>,
) -> Result<(), NoMemory>
    ensures { OnOk result (nodes.new ≡ with_row (entry_row entry.now) nodes.old) }
{
    let lent = lent_entry(alloc, entry)?;
    nodes.entries.put(entry.id, lent)
}

/// Adds a group with all below it. A refusal means that memory ran out.
#[tactic(auto, using(crate::proofs::SeenNodes::seen_nodes))]
pub fn add_group<'a>(
    alloc: Global,
    group: &'a Group,
    nodes: &mut NodeTables<'a>,
) -> Result<(), NoMemory>
    ensures { OnOk result (nodes.new ≡ with_nodes (tree_seen group.now) nodes.old) }
{
    let stay = Stay {
        placed: group.placed,
        previous: group.previous,
    };
    let lent = LentGroup::new(stay, LentState::new(&group.state), group.view);
    nodes.groups.put(group.id, lent)?;
    let children = children_in(alloc, group)?;
    nodes.children.put(group.id, children)?;
    for entry in group.entries.as_slice() {
        add_entry(alloc, entry, nodes)?;
    }
    for child in group.groups.as_slice() {
        add_group(alloc, child, nodes)?;
    }
    Ok(())
}
