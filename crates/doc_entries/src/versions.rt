//! The children that an entry and a history item have in common.

ghost use Rattle.doc_entries.specs.SeenBuilders.{entry_known};
ghost use Rattle.doc_forms.specs.Children.{by_name};
ghost use Rattle.doc_forms.specs.Entries as spec;
ghost use Rattle.doc_walk.specs.Steps.{Steps};
ghost use Rattle.doc_walk.specs.Tags.{child_step};

use crate::attachments::attachment;
use crate::auto_types::auto_type;
use crate::builders::{EntryBuilder, put_attachment, put_field};
use crate::fields::field;
use doc_forms::DocFail;
use doc_walk::doc_values::{IdOrNone, Number32, TextValue, TrueUnlessFalse};
use doc_walk::{Tag, Walk, custom_data, times};

/// Reads a child of an entry or a history item after those that [`text_child`] reads itself: its
/// times, a field, an attachment, how it is typed, or its custom items.
fn part_child(known: &mut EntryBuilder, walk: &mut Walk<'_>, tag: &Tag<'_>) -> Result<(), DocFail>
    ensures { Steps (λ _. entry_known known.new) walk.old walk.new result
        (child_step (λ s. by_name s (spec.part_rows s)) (entry_known known.old) tag.now) }
{
    match tag.name {
        "Times" => times(walk, tag, &mut known.times),
        "String" => {
            let field = field(walk, tag)?;
            put_field(known, field)
        }
        "Binary" => {
            let attachment = attachment(walk, tag)?;
            put_attachment(known, attachment)
        }
        "AutoType" => auto_type(walk, tag, &mut known.content.auto_type),
        "CustomData" => custom_data(walk, tag, &mut known.content.items),
        _ => walk.pass(tag),
    }
}

/// Reads a child of an entry or a history item after those that [`version_child`] reads itself:
/// whether it counts in reports, or one of its texts.
fn text_child(known: &mut EntryBuilder, walk: &mut Walk<'_>, tag: &Tag<'_>) -> Result<(), DocFail>
    ensures { Steps (λ _. entry_known known.new) walk.old walk.new result
        (child_step (λ s. by_name s (spec.text_rows s)) (entry_known known.old) tag.now) }
{
    match tag.name {
        "QualityCheck" => walk.keep::<TrueUnlessFalse>(tag, &mut known.content.quality),
        "ForegroundColor" => walk.keep::<TextValue>(tag, &mut known.content.fore),
        "BackgroundColor" => walk.keep::<TextValue>(tag, &mut known.content.back),
        "OverrideURL" => walk.keep::<TextValue>(tag, &mut known.content.url_override),
        "Tags" => walk.keep::<TextValue>(tag, &mut known.content.tags),
        _ => part_child(known, walk, tag),
    }
}

/// Reads a child that an entry and a history item have in common.
pub(crate) fn version_child(
    known: &mut EntryBuilder,
    walk: &mut Walk<'_>,
    tag: &Tag<'_>,
) -> Result<(), DocFail>
    ensures { Steps (λ _. entry_known known.new) walk.old walk.new result
        (child_step (λ s. by_name s (spec.version_rows s)) (entry_known known.old) tag.now) }
{
    match tag.name {
        "IconID" => walk.keep::<Number32<0>>(tag, &mut known.content.icon),
        "CustomIconUUID" => walk.keep::<IdOrNone>(tag, &mut known.content.custom_icon),
        _ => text_child(known, walk, tag),
    }
}
