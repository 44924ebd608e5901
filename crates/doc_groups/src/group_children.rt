//! The children of a group, except for the groups in it.

ghost use Rattle.std.specs.Prelude.{drop};
ghost use Rattle.doc_forms.specs.Children.{by_name};
ghost use Rattle.doc_forms.specs.Groups as spec;
ghost use Rattle.doc_forms.specs.SeenDrafts.{group_parts_seen};
ghost use Rattle.doc_groups.specs.GroupSteps.{entry_child};
ghost use Rattle.doc_entries.specs.DocWalk.Steps.{Steps};
ghost use Rattle.doc_entries.specs.DocWalk.Tags.{child_step};

use doc_entries::doc_values::{
    ChoiceValue, IdOrNone, IdValue, Number32, OwnId, TextValue, TrueUnlessFalse,
};
use doc_entries::doc_walk::{Tag, Walk, append, custom_data, times};
use doc_entries::entry;
use doc_forms::{DocFail, GroupBuilder};

/// Reads an entry of a group.
fn entry_child(known: &mut GroupBuilder, walk: &mut Walk<'_>, tag: &Tag<'_>) -> Result<(), DocFail>
    ensures { Steps (λ _. group_parts_seen known.new) walk.old walk.new result
        (child_step entry_child (group_parts_seen known.old) tag.now) }
{
    let entry = entry(walk, tag)?;
    append(&mut known.entries, entry)
}

/// Reads a child of a group after those that [`typing_child`] reads: the group that it was in
/// before, its items, or an entry.
fn last_child(known: &mut GroupBuilder, walk: &mut Walk<'_>, tag: &Tag<'_>) -> Result<(), DocFail>
    ensures { Steps (λ _. group_parts_seen known.new) walk.old walk.new result
        (child_step (λ s. by_name s (drop 12 (spec.group_rows s))) (group_parts_seen known.old)
        tag.now) }
{
    match tag.name {
        "PreviousParentGroup" => walk.keep::<IdValue>(tag, &mut known.previous),
        "CustomData" => custom_data(walk, tag, &mut known.content.items),
        "Entry" => entry_child(known, walk, tag),
        _ => walk.pass(tag),
    }
}

/// Reads a child of a group after those that [`view_child`] reads: its key strokes, its choices,
/// its first visible entry, or one of the others.
fn typing_child(known: &mut GroupBuilder, walk: &mut Walk<'_>, tag: &Tag<'_>) -> Result<(), DocFail>
    ensures { Steps (λ _. group_parts_seen known.new) walk.old walk.new result
        (child_step (λ s. by_name s (drop 8 (spec.group_rows s))) (group_parts_seen known.old)
        tag.now) }
{
    match tag.name {
        "DefaultAutoTypeSequence" => walk.keep::<TextValue>(tag, &mut known.content.sequence),
        "EnableAutoType" => walk.keep::<ChoiceValue>(tag, &mut known.content.auto_type),
        "EnableSearching" => walk.keep::<ChoiceValue>(tag, &mut known.content.searching),
        "LastTopVisibleEntry" => walk.keep::<IdValue>(tag, &mut known.view.top_entry),
        _ => last_child(known, walk, tag),
    }
}

/// Reads a child of a group after those that [`read_child`] reads: its icon, its times, whether it
/// is expanded, or one of the others.
fn view_child(known: &mut GroupBuilder, walk: &mut Walk<'_>, tag: &Tag<'_>) -> Result<(), DocFail>
    ensures { Steps (λ _. group_parts_seen known.new) walk.old walk.new result
        (child_step (λ s. by_name s (drop 4 (spec.group_rows s))) (group_parts_seen known.old)
        tag.now) }
{
    match tag.name {
        "IconID" => walk.keep::<Number32<48>>(tag, &mut known.content.icon),
        "CustomIconUUID" => walk.keep::<IdOrNone>(tag, &mut known.content.custom_icon),
        "Times" => times(walk, tag, &mut known.times),
        "IsExpanded" => walk.keep::<TrueUnlessFalse>(tag, &mut known.view.expanded),
        _ => typing_child(known, walk, tag),
    }
}

/// Reads a child of a group that is no group.
pub(crate) fn read_child(
    known: &mut GroupBuilder,
    walk: &mut Walk<'_>,
    tag: &Tag<'_>,
) -> Result<(), DocFail>
    ensures { Steps (λ _. group_parts_seen known.new) walk.old walk.new result
        (child_step (λ s. by_name s (spec.group_rows s)) (group_parts_seen known.old) tag.now) }
{
    match tag.name {
        "UUID" => {
            known.id = Some(walk.value::<OwnId>(tag)?);
            Ok(())
        }
        "Name" => walk.keep::<TextValue>(tag, &mut known.content.name),
        "Notes" => walk.keep::<TextValue>(tag, &mut known.content.notes),
        "Tags" => walk.keep::<TextValue>(tag, &mut known.content.tags),
        _ => view_child(known, walk, tag),
    }
}
