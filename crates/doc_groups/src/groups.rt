//! Groups, and the groups in them.

ghost use Rattle.std.specs.Prelude.{◌≡◌};
ghost use Rattle.doc_forms.specs.Groups as spec;
ghost use Rattle.doc_forms.specs.Refusals.{Returns};
ghost use Rattle.doc_forms.specs.SeenDrafts.{draft_seen, group_parts_seen};
ghost use Rattle.doc_groups.specs.GroupSteps.{group_step, id_at_end, whole_group};
ghost use Rattle.doc_entries.specs.DocWalk.Steps.{Steps};
ghost use Rattle.doc_entries.specs.DocWalk.Tags.{child_step, contents_step};

use crate::group_children::read_child;
use crate::new_groups::{add_group, draft_of, id_of, no_group};
use doc_entries::doc_values::{appended, is_marked, no_text};
use doc_entries::doc_walk::{Tag, Walk, kept_with};
use doc_entries::markup_core::{MarkupFail, Piece};
use doc_entries::node_id;
use doc_forms::{DocFail, GroupBuilder, GroupDraft};
use uuid_core::Uuid;

/// The id of a group that begins at the offset, when all that is in it has been read. A group that
/// does not fit where it is is refused.
fn group_id(
    walk: &mut Walk<'_>,
    offset: usize,
    fits: bool,
    id: Option<Uuid>,
) -> Result<Uuid, DocFail>
    ensures gives { Returns (λ u. (u, walk.new.cursor)) result
        (id_at_end fits offset id walk.old.cursor) }
    ensures answers { walk.new.answers ≡ walk.old.answers }
    ensures setting { walk.new.setting ≡ walk.old.setting }
{
    if !fits {
        return Err(DocFail::BadValue(offset));
    }
    walk.count()?;
    node_id(offset, id)
}

/// The group that begins at the offset, when all that is in it has been read.
fn whole_group(
    walk: &mut Walk<'_>,
    offset: usize,
    fits: bool,
    known: GroupBuilder,
) -> Result<GroupDraft, DocFail>
    ensures gives { Returns (λ d. (draft_seen d, walk.new.cursor)) result
        (whole_group fits offset (group_parts_seen known) walk.old.cursor) }
    ensures answers { walk.new.answers ≡ walk.old.answers }
    ensures setting { walk.new.setting ≡ walk.old.setting }
{
    let id = group_id(walk, offset, fits, id_of(&known));
    match kept_with(known, id) {
        Ok(both) => Ok(draft_of(both.1, both.0)),
        Err(refusal) => Err(refusal),
    }
}

/// Reads a child of a group, below which so many levels are allowed.
#[cycle(tree)]
fn group_child(
    known: &mut GroupBuilder,
    walk: &mut Walk<'_>,
    tag: &Tag<'_>,
    levels: usize,
) -> Result<(), DocFail>
    ensures { Steps (λ _. group_parts_seen known.new) walk.old walk.new result
        (child_step (λ s. spec.group_child s levels) (group_parts_seen known.old) tag.now) }
{
    if tag.name != "Group" {
        return read_child(known, walk, tag);
    }
    if levels == 0 {
        return Err(DocFail::TooDeep(tag.offset));
    }
    let draft = group(walk, tag, levels - 1, true)?;
    add_group(known, draft)
}

/// Reads all children of the group whose start tag was given, below which so many levels are
/// allowed, and its end.
#[cycle(tree)]
fn group_children(
    known: &mut GroupBuilder,
    walk: &mut Walk<'_>,
    tag: &Tag<'_>,
    levels: usize,
) -> Result<(), DocFail>
    ensures { Steps (λ _. group_parts_seen known.new) walk.old walk.new result
        (contents_step (λ s. spec.group_child s levels) (group_parts_seen known.old) tag.now) }
{
    let hides = is_marked(walk.alloc(), &tag.attrs, "Protected")?;
    let mut text = no_text(walk.alloc())?;
    'pieces: loop {
        match walk.next_piece() {
            Ok(
                Piece::Start {
                    name,
                    attrs,
                    place: offset,
                },
            ) => {
                let child = Tag {
                    name,
                    attrs,
                    offset,
                };
                group_child(known, walk, &child, levels)?;
            }
            Ok(Piece::Words { raw, place: _ }) => {
                if hides {
                    text = appended(walk.alloc(), text, raw)?;
                }
            }
            Ok(Piece::Stop { place: _ }) => {
                let _ = walk.own_text(tag, text)?;
                return Ok(());
            }
            Ok(Piece::Finish) => return Err(DocFail::NoMemory),
            Err(MarkupFail::Form(at)) => return Err(DocFail::Form(at)),
            Err(MarkupFail::Depth(at)) => return Err(DocFail::Depth(at)),
        }
    }
}

/// The group whose start tag was given, below which so many levels are allowed. One that does not
/// fit where it is is refused at its end.
#[cycle(tree)]
pub(crate) fn group(
    walk: &mut Walk<'_>,
    tag: &Tag<'_>,
    levels: usize,
    fits: bool,
) -> Result<GroupDraft, DocFail>
    ensures { Steps draft_seen walk.old walk.new result (group_step levels fits tag.now) }
{
    let mut known = no_group(walk.alloc());
    let read = group_children(&mut known, walk, tag, levels);
    match kept_with(known, read) {
        Ok(both) => whole_group(walk, tag.offset, fits, both.0),
        Err(refusal) => Err(refusal),
    }
}
