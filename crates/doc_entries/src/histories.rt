//! The history of an entry.

ghost use Rattle.std.specs.Prelude.{◌≡◌, ◌∷◌, ◌++◌, List, [], map, Ok};
ghost use Rattle.doc_entries.specs.EntrySteps.{history_item_step};
ghost use Rattle.doc_entries.specs.SeenBuilders.{entry_known};
ghost use Rattle.doc_forms.specs.Children.{by_name};
ghost use Rattle.doc_forms.specs.Entries.{EntryParts, ReadVersion};
ghost use Rattle.doc_forms.specs.Entries as spec;
ghost use Rattle.doc_forms.specs.Refusals.{Returns};
ghost use Rattle.doc_forms.specs.SeenDrafts.{version_seen};
ghost use Rattle.doc_walk.specs.Steps.{Steps};
ghost use Rattle.doc_walk.specs.Tags.{contents_step};

use crate::builders::{EntryBuilder, no_entry, version_of};
use crate::versions::version_child;
use doc_forms::{DocFail, VersionDraft};
use doc_walk::doc_values::{IdOrNone, IdValue};
use doc_walk::{Parts, Tag, Walk, append, read_counted, read_whole};

/// What is known of a history item before its end.
#[derive(Drop)]
struct ItemDraft {
    known: EntryBuilder,
}

impl Parts for ItemDraft {
    ghost Bare = { EntryParts };

    ghost seen = { λ d. entry_known d.known };

    ghost child = { λ s. by_name s (spec.history_item_rows s) };

    fn read_child(&mut self, walk: &mut Walk<'_>, tag: &Tag<'_>) -> Result<(), DocFail> {
        match tag.name {
            "UUID" => walk.check::<IdOrNone>(tag),
            "PreviousParentGroup" => walk.check::<IdValue>(tag),
            _ => version_child(&mut self.known, walk, tag),
        }
    }
}

/// The version that the parts of a history item make.
fn version_in(known: EntryBuilder) -> VersionDraft
    ensures { version_seen result ≡ spec.version_of (entry_known known) }
{
    let EntryBuilder {
        id: _,
        previous: _,
        times,
        content,
        fields,
        attachments,
        history: _,
    } = known;
    version_of(times, content, fields, attachments)
}

/// The history item whose start tag was given.
fn history_item(walk: &mut Walk<'_>, tag: &Tag<'_>) -> Result<VersionDraft, DocFail>
    ensures { Steps version_seen walk.old walk.new result (history_item_step tag.now) }
{
    let first = ItemDraft {
        known: no_entry(walk.alloc()),
    };
    match read_counted(walk, tag, first) {
        Ok(draft) => Ok(version_in(draft.known)),
        Err(refusal) => Err(refusal),
    }
}

/// Appends a version to others.
fn add_version(versions: &mut Vec<VersionDraft>, version: VersionDraft) -> Result<(), DocFail>
    ensures { Returns (λ _. map version_seen versions.new.items) result
        (Ok (map version_seen versions.old.items ++ version_seen version ∷ [])) }
{
    append(versions, version)
}

/// What is known of a `History` before its end.
#[derive(Drop)]
struct HistoryDraft {
    versions: Vec<VersionDraft>,
}

impl Parts for HistoryDraft {
    ghost Bare = { List ReadVersion };

    ghost seen = { λ d. map version_seen d.versions.items };

    ghost child = { λ s. by_name s (spec.history_rows s) };

    fn read_child(&mut self, walk: &mut Walk<'_>, tag: &Tag<'_>) -> Result<(), DocFail> {
        match tag.name {
            "Entry" => {
                let version = history_item(walk, tag)?;
                add_version(&mut self.versions, version)
            }
            _ => walk.pass(tag),
        }
    }
}

/// Puts what is known of a `History` in its place, in memory that has room for it alone.
fn put_versions(into: &mut Vec<VersionDraft>, draft: HistoryDraft)
    ensures { into.new.items ≡ draft.versions.items }
{
    *into = draft.versions;
    into.shrink_to_fit();
}

/// The versions of a `History`, whose start tag was given, put in their place, in memory that has
/// room for them alone.
pub(crate) fn history(
    walk: &mut Walk<'_>,
    tag: &Tag<'_>,
    into: &mut Vec<VersionDraft>,
) -> Result<(), DocFail>
    ensures { Steps (λ _. map version_seen into.new.items) walk.old walk.new result
        (contents_step (λ s. by_name s (spec.history_rows s)) [] tag.now) }
{
    let first = HistoryDraft {
        versions: Vec::new(walk.alloc()),
    };
    match read_whole(walk, tag, first) {
        Ok(draft) => {
            put_versions(into, draft);
            Ok(())
        }
        Err(refusal) => Err(refusal),
    }
}
