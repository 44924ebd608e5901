//! A document's groups, each built with all below it.
ghost use Rattle.std.specs.Prelude.{◌≡◌, ◌++◌, [], IfOk, OnOk, map};
ghost use Rattle.std.specs.FinMap.{get};
ghost use Rattle.vault_model.specs.SeenNodes.{bare_version, entry_row, tree_seen};
ghost use Rattle.vault_model.specs.Shape.{kids};
ghost use Rattle.vault_model.specs.Tree.{tree_of, with_record, with_records};
ghost use Rattle.merge_nodes.specs.Shapes.{shape};

use merge_nodes::shapes::{LentEntry, LentGroup, LentVersion, Shape};
use merge_tables::states::LentState;
use outside_core::{List, NoMemory};
use std::alloc::Global;
use uuid_core::Uuid;
use vault_making::copies::{copy_content, copy_items, copy_text, put_last};
use vault_model::{Entry, Group, GroupContent, GroupState, Version};

/// A copy of what a group says.
fn copy_group_content(alloc: Global, content: &GroupContent) -> Result<GroupContent, NoMemory>
    ensures { IfOk result (λ copy. copy ≡ content.now) }
{
    let items = copy_items(alloc, content.items.as_slice())?;
    Ok(GroupContent {
        created: content.created,
        expiry: content.expiry,
        expires: content.expires,
        name: copy_text(alloc, &content.name)?,
        notes: copy_text(alloc, &content.notes)?,
        icon: content.icon,
        custom_icon: content.custom_icon,
        sequence: copy_text(alloc, &content.sequence)?,
        auto_type: content.auto_type,
        searching: content.searching,
        items,
        tags: copy_text(alloc, &content.tags)?,
    })
}

/// A version, copied. Its fields take no more memory than they need.
fn made_version(alloc: Global, version: &LentVersion) -> Result<Version, NoMemory>
    ensures { IfOk result (λ v. bare_version v ≡ version.now) }
{
    let mut content = copy_content(alloc, version.mark().content())?;
    content.fields.fit();
    Ok(Version {
        modified: version.mark().modified(),
        content,
        stats: version.stats(),
    })
}

/// Versions, copied.
fn made_history(alloc: Global, history: &[LentVersion]) -> Result<List<Version>, NoMemory>
    ensures { IfOk result (λ vs. map bare_version vs ≡ history.now) }
{
    let mut made = List::new(alloc);
    for version in history {
        let one = made_version(alloc, version)?;
        put_last(&mut made, one)?;
    }
    made.fit();
    Ok(made)
}

/// An entry, copied.
fn made_entry(alloc: Global, id: Uuid, entry: &LentEntry) -> Result<Entry, NoMemory>
    ensures { IfOk result (λ e. entry_row e ≡ (id, entry.now)) }
{
    let history = made_history(alloc, entry.history())?;
    let current = made_version(alloc, entry.current())?;
    let stay = entry.stay();
    Ok(Entry {
        id,
        placed: stay.placed,
        previous: stay.previous,
        current,
        history,
    })
}

/// Appends the entry of an id, where there is one. A refusal means that memory ran out.
fn push_entry(
    alloc: Global,
    from: &Shape,
    id: Uuid,
    entries: &mut List<Entry>,
) -> Result<(), NoMemory>
    ensures { OnOk result (map entry_row entries.new ≡ map entry_row entries.old
        ++ with_record id (get (shape from.now).entries id) []) }
{
    match from.entries.get(&id) {
        Some(entry) => {
            let made = made_entry(alloc, id, entry)?;
            put_last(entries, made)
        }
        None => Ok(()),
    }
}

/// The entries of some ids.
fn made_entries(alloc: Global, from: &Shape, ids: &[Uuid]) -> Result<List<Entry>, NoMemory>
    ensures { IfOk result (λ es. map entry_row es ≡ with_records (shape from.now).entries ids.now) }
{
    let mut entries = List::new(alloc);
    for id in ids {
        push_entry(alloc, from, *id, &mut entries)?;
    }
    entries.fit();
    Ok(entries)
}

/// The ids of a group's entries, in their order.
fn entries_of<'s>(from: &'s Shape, group: &Uuid) -> &'s [Uuid]
    ensures { result.now ≡ (kids (shape from.now) group.now).entries }
{
    match from.children.get(group) {
        Some(children) => children.entries(),
        None => &[],
    }
}

/// The ids of a group's groups, in their order.
fn groups_of<'s>(from: &'s Shape, group: &Uuid) -> &'s [Uuid]
    ensures { result.now ≡ (kids (shape from.now) group.now).groups }
{
    match from.children.get(group) {
        Some(children) => children.groups(),
        None => &[],
    }
}

/// A group's state, copied.
fn made_state(alloc: Global, state: &LentState) -> Result<GroupState, NoMemory>
    ensures { IfOk result (λ s. s ≡ state.now) }
{
    Ok(GroupState {
        modified: state.modified(),
        content: copy_group_content(alloc, state.content())?,
        stats: state.stats(),
    })
}

/// A group with so many levels below it.
pub fn group_at(
    alloc: Global,
    from: &Shape,
    levels: u64,
    id: Uuid,
    row: &LentGroup,
) -> Result<Group, NoMemory>
    ensures { IfOk result (λ g. tree_seen g ≡ tree_of (shape from.now) levels id row.now) }
{
    let entries = made_entries(alloc, from, entries_of(from, &id))?;
    let mut groups = List::new(alloc);
    if levels > 0 {
        for child in groups_of(from, &id) {
            if let Some(below) = from.groups.get(child) {
                let made = group_at(alloc, from, levels - 1, *child, below)?;
                put_last(&mut groups, made)?;
            }
        }
    }
    let state = made_state(alloc, row.state())?;
    let stay = row.stay();
    Ok(Group {
        id,
        placed: stay.placed,
        previous: stay.previous,
        state,
        view: row.view(),
        entries,
        groups,
    })
}
