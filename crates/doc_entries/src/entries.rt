//! Entries.

ghost use Rattle.std.specs.Prelude.{◌≡◌};
ghost use Rattle.doc_entries.specs.EntrySteps.{entry_step, whole_entry};
ghost use Rattle.doc_entries.specs.SeenBuilders.{entry_known};
ghost use Rattle.doc_forms.specs.Children.{by_name};
ghost use Rattle.doc_forms.specs.Entries.{EntryParts};
ghost use Rattle.doc_forms.specs.Entries as spec;
ghost use Rattle.doc_forms.specs.Refusals.{Returns};
ghost use Rattle.doc_forms.specs.SeenDrafts.{entry_seen};
ghost use Rattle.doc_walk.specs.Steps.{Steps};

use crate::builders::{EntryBuilder, no_entry, version_of};
use crate::histories::history;
use crate::nodes::node_id;
use crate::versions::version_child;
use doc_forms::{DocFail, EntryDraft};
use doc_walk::doc_values::{IdValue, OwnId};
use doc_walk::{Parts, Tag, Walk, kept_with, read_counted};
use uuid_core::Uuid;

/// What is known of an `Entry` before its end.
#[derive(Drop)]
struct EntryKnown {
    known: EntryBuilder,
}

impl Parts for EntryKnown {
    ghost Bare = { EntryParts };

    ghost seen = { λ k. entry_known k.known };

    ghost child = { λ s. by_name s (spec.entry_rows s) };

    fn read_child(&mut self, walk: &mut Walk<'_>, tag: &Tag<'_>) -> Result<(), DocFail> {
        match tag.name {
            "UUID" => {
                self.known.id = Some(walk.value::<OwnId>(tag)?);
                Ok(())
            }
            "History" => history(walk, tag, &mut self.known.history),
            "PreviousParentGroup" => walk.keep::<IdValue>(tag, &mut self.known.previous),
            _ => version_child(&mut self.known, walk, tag),
        }
    }
}

/// The entry that the parts of an id make.
fn entry_of(id: Uuid, known: EntryBuilder) -> EntryDraft
    ensures { entry_seen result ≡ spec.entry_of id (entry_known known) }
{
    let EntryBuilder {
        id: _,
        previous,
        times,
        content,
        fields,
        attachments,
        history,
    } = known;
    EntryDraft {
        id,
        placed: times.placed,
        previous,
        current: version_of(times, content, fields, attachments),
        history,
    }
}

/// The id of an entry that begins at the offset, when all that is in it has been read.
fn id_of(offset: usize, known: &EntryBuilder) -> Result<Uuid, DocFail>
    ensures { Returns (λ u. u) result (spec.node_id offset (entry_known known.now).id) }
{
    node_id(offset, known.id)
}

/// The entry that begins at the offset, when all that is in it has been read.
fn whole_entry(offset: usize, known: EntryBuilder) -> Result<EntryDraft, DocFail>
    ensures { Returns entry_seen result (whole_entry offset (entry_known known)) }
{
    let id = id_of(offset, &known);
    match kept_with(known, id) {
        Ok(both) => Ok(entry_of(both.1, both.0)),
        Err(refusal) => Err(refusal),
    }
}

/// The entry whose start tag was given.
pub fn entry(walk: &mut Walk<'_>, tag: &Tag<'_>) -> Result<EntryDraft, DocFail>
    ensures { Steps entry_seen walk.old walk.new result (entry_step tag.now) }
{
    let first = EntryKnown {
        known: no_entry(walk.alloc()),
    };
    match read_counted(walk, tag, first) {
        Ok(draft) => whole_entry(tag.offset, draft.known),
        Err(refusal) => Err(refusal),
    }
}
