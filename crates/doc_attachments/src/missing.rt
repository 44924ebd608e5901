//! References to binaries that do not exist.

ghost use Rattle.doc_forms.specs.Attachments as spec;
ghost use Rattle.doc_forms.specs.SeenDrafts.{attachment_seen, draft_seen, entry_seen, version_seen};
ghost use Rattle.std.specs.List.{flat_map};
ghost use Rattle.std.specs.Prelude.{◌≡◌, map};

use crate::pools::Pool;
use doc_forms::{AttachmentDraft, EntryDraft, GroupDraft, SourceDraft, VersionDraft};

/// The first reference in a text to a binary that does not exist: the offset of the element that
/// refers, and the number.
pub type Missing = Option<(usize, u64)>;

/// Of two that may be missing the one that is first in the text; at one offset the first of the
/// two.
fn first_of(one: Missing, other: Missing) -> Missing
    ensures { result ≡ spec.first_missing_of one other }
{
    let Some(first) = one else {
        return other;
    };
    match other {
        Some(second) if second.0 < first.0 => Some(second),
        _ => Some(first),
    }
}

/// What is missing of an attachment.
fn missing_of(pool: &Pool<'_>, attachment: &AttachmentDraft) -> Missing
    ensures { result ≡ spec.first_missing (spec.missing_attachment pool.now
        (attachment_seen attachment.now)) }
{
    match attachment.source {
        SourceDraft::OwnBytes(_) => None,
        SourceDraft::PoolNumber(offset, number) => match pool.get(number) {
            Some(_) => None,
            None => Some((offset, number)),
        },
    }
}

/// What is missing first in a version.
fn missing_in_version(pool: &Pool<'_>, version: &VersionDraft) -> Missing
    ensures { result ≡ spec.first_missing (spec.missing_version pool.now
        (version_seen version.now)) }
{
    let mut missing = None;
    for attachment in version.attachments.as_slice() {
        missing = first_of(missing, missing_of(pool, attachment));
    }
    missing
}

/// What is missing first in some versions.
fn missing_in_versions(pool: &Pool<'_>, versions: &[VersionDraft]) -> Missing
    ensures { result ≡ spec.first_missing (flat_map (spec.missing_version pool.now)
        (map version_seen versions.now)) }
{
    let mut missing = None;
    for version in versions {
        missing = first_of(missing, missing_in_version(pool, version));
    }
    missing
}

/// What is missing first in some entries.
fn missing_in_entries(pool: &Pool<'_>, entries: &[EntryDraft]) -> Missing
    ensures { result ≡ spec.first_missing (flat_map (spec.missing_entry pool.now)
        (map entry_seen entries.now)) }
{
    let mut missing = None;
    for entry in entries {
        let current = missing_in_version(pool, &entry.current);
        let history = missing_in_versions(pool, entry.history.as_slice());
        missing = first_of(missing, first_of(current, history));
    }
    missing
}

/// What is missing first in a group with all below it.
pub(crate) fn missing_in(pool: &Pool<'_>, draft: &GroupDraft) -> Missing
    ensures { result ≡ spec.first_missing (spec.missing_in pool.now (draft_seen draft.now)) }
{
    let mut missing = missing_in_entries(pool, draft.entries.as_slice());
    for group in draft.groups.as_slice() {
        missing = first_of(missing, missing_in(pool, group));
    }
    missing
}
