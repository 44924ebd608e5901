//! The bytes of attachments, resolved among the binaries to which they refer.

ghost use Rattle.doc_forms.specs.Attachments as spec;
ghost use Rattle.doc_forms.specs.SeenDrafts.{attachment_seen, draft_seen, entry_seen, version_seen};
ghost use Rattle.doc_attachments.specs.Trees.{with_attachments};
ghost use Rattle.std.specs.Prelude.{◌≡◌, [], IfOk, Ok, map};
ghost use Rattle.vault_model.specs.Seen.{bare_attachment};
ghost use Rattle.vault_model.specs.SeenNodes.{bare_version, entry_row, tree_seen};

use crate::pools::{Pool, push_made, share_bytes};
use doc_forms::{AttachmentDraft, EntryDraft, GroupDraft, SourceDraft, VersionDraft};
use outside_core::{List, NoMemory, Text};
use secret_core::Secret;
use std::alloc::Global;
use std::rc::Rc;
use vault_model::{Attachment, Entry, Group, Version};

/// Both of two that were made, or else a refusal.
fn both<A: Drop, B: Drop>(
    first: Result<A, NoMemory>,
    second: Result<B, NoMemory>,
) -> Result<(A, B), NoMemory>
    ensures first { IfOk result (λ both. first ≡ Ok both.0) }
    ensures second { IfOk result (λ both. second ≡ Ok both.1) }
{
    let first = match first {
        Ok(first) => first,
        Err(refusal) => {
            drop(second);
            return Err(refusal);
        }
    };
    match second {
        Ok(second) => Ok((first, second)),
        Err(refusal) => {
            drop(first);
            Err(refusal)
        }
    }
}

/// Bytes that several may share.
fn own_bytes(alloc: Global, bytes: Secret) -> Result<Rc<Secret>, NoMemory>
    ensures { IfOk result (λ b. b.value.bytes ≡ bytes.bytes) }
{
    match Rc::new(alloc, bytes) {
        Ok(bytes) => Ok(bytes),
        Err(_) => Err(NoMemory),
    }
}

/// Memory that several may share, with no bytes.
fn no_bytes(alloc: Global) -> Result<Rc<Secret>, NoMemory>
    ensures { IfOk result (λ b. b.value.bytes ≡ []) }
{
    match Secret::with_room(alloc, 0) {
        Ok(bytes) => own_bytes(alloc, bytes),
        Err(refusal) => Err(refusal),
    }
}

/// The bytes of an attachment, which are shared. Where it refers to no binary, it has none.
fn resolved_bytes(
    alloc: Global,
    pool: &Pool<'_>,
    draft: &AttachmentDraft,
) -> Result<Rc<Secret>, NoMemory>
    ensures { IfOk result (λ b. b.value.bytes
        ≡ (spec.resolved_attachment pool.now (attachment_seen draft.now)).bytes) }
{
    match &draft.source {
        SourceDraft::OwnBytes(bytes) => share_bytes(bytes),
        SourceDraft::PoolNumber(_, number) => match pool.get(*number) {
            Some(binary) => share_bytes(&binary.bytes),
            None => no_bytes(alloc),
        },
    }
}

/// Whether an attachment is hidden, as its binary or its own element says.
fn is_hidden(pool: &Pool<'_>, draft: &AttachmentDraft) -> bool
    ensures { result ≡ (spec.resolved_attachment pool.now (attachment_seen draft.now)).hidden }
{
    match draft.source {
        SourceDraft::OwnBytes(_) => draft.hidden,
        SourceDraft::PoolNumber(_, number) => match pool.get(number) {
            Some(binary) => binary.hidden,
            None => draft.hidden,
        },
    }
}

/// An attachment with its bytes, which are shared. Where it refers to no binary, it has none.
fn resolved_attachment(
    alloc: Global,
    pool: &Pool<'_>,
    draft: &AttachmentDraft,
) -> Result<Attachment, NoMemory>
    ensures { IfOk result (λ a. bare_attachment a
        ≡ spec.resolved_attachment pool.now (attachment_seen draft.now)) }
{
    let name = Text::of(alloc, draft.name.as_str());
    let bytes = resolved_bytes(alloc, pool, draft);
    let hidden = is_hidden(pool, draft);
    match both(name, bytes) {
        Ok((name, bytes)) => Ok(Attachment {
            name,
            bytes,
            hidden,
        }),
        Err(refusal) => Err(refusal),
    }
}

/// Attachments with their bytes.
fn resolved_attachments(
    alloc: Global,
    pool: &Pool<'_>,
    drafts: &[AttachmentDraft],
) -> Result<List<Attachment>, NoMemory>
    ensures { IfOk result (λ l. map bare_attachment l
        ≡ map (spec.resolved_attachment pool.now) (map attachment_seen drafts.now)) }
{
    let mut resolved = List::new(alloc);
    for draft in drafts {
        if let Err(refusal) = push_made(&mut resolved, resolved_attachment(alloc, pool, draft)) {
            drop(resolved);
            return Err(refusal);
        }
    }
    resolved.fit();
    Ok(resolved)
}

/// The attachments of a version with their bytes.
fn attachments_of(
    alloc: Global,
    pool: &Pool<'_>,
    draft: &VersionDraft,
) -> Result<List<Attachment>, NoMemory>
    ensures { IfOk result (λ l. map bare_attachment l
        ≡ map (spec.resolved_attachment pool.now) (version_seen draft.now).attachments) }
{
    resolved_attachments(alloc, pool, draft.attachments.as_slice())
}

/// A version with these attachments.
fn version_of(draft: VersionDraft, attachments: List<Attachment>) -> Version
    ensures { bare_version result
        ≡ with_attachments (version_seen draft) (map bare_attachment attachments) }
{
    let mut version = draft.version;
    version.content.attachments = attachments;
    version
}

/// A version with the bytes of its attachments.
fn resolved_version(
    alloc: Global,
    pool: &Pool<'_>,
    draft: VersionDraft,
) -> Result<Version, NoMemory>
    ensures { IfOk result (λ v. bare_version v
        ≡ spec.resolved_version pool.now (version_seen draft)) }
{
    let attachments = attachments_of(alloc, pool, &draft);
    match attachments {
        Ok(attachments) => Ok(version_of(draft, attachments)),
        Err(refusal) => {
            drop(draft);
            Err(refusal)
        }
    }
}

/// Versions with the bytes of their attachments.
fn resolved_versions(
    alloc: Global,
    pool: &Pool<'_>,
    drafts: Vec<VersionDraft>,
) -> Result<List<Version>, NoMemory>
    ensures { IfOk result (λ l. map bare_version l
        ≡ map (spec.resolved_version pool.now) (map version_seen drafts.items)) }
{
    let mut resolved = List::new(alloc);
    for draft in drafts {
        if let Err(refusal) = push_made(&mut resolved, resolved_version(alloc, pool, draft)) {
            drop(resolved);
            return Err(refusal);
        }
    }
    resolved.fit();
    Ok(resolved)
}

/// An entry with the bytes of its attachments.
fn resolved_entry(alloc: Global, pool: &Pool<'_>, draft: EntryDraft) -> Result<Entry, NoMemory>
    ensures { IfOk result (λ e. entry_row e ≡ spec.resolved_entry pool.now (entry_seen draft)) }
{
    let EntryDraft {
        id,
        placed,
        previous,
        current,
        history,
    } = draft;
    let current = resolved_version(alloc, pool, current);
    let history = resolved_versions(alloc, pool, history);
    match both(current, history) {
        Ok((current, history)) => Ok(Entry {
            id,
            placed,
            previous,
            current,
            history,
        }),
        Err(refusal) => Err(refusal),
    }
}

/// Entries with the bytes of their attachments.
fn resolved_entries(
    alloc: Global,
    pool: &Pool<'_>,
    drafts: Vec<EntryDraft>,
) -> Result<List<Entry>, NoMemory>
    ensures { IfOk result (λ l. map entry_row l
        ≡ map (spec.resolved_entry pool.now) (map entry_seen drafts.items)) }
{
    let mut resolved = List::new(alloc);
    for draft in drafts {
        if let Err(refusal) = push_made(&mut resolved, resolved_entry(alloc, pool, draft)) {
            drop(resolved);
            return Err(refusal);
        }
    }
    resolved.fit();
    Ok(resolved)
}

/// A group with all below it, with the bytes of its attachments.
#[cycle(tree)]
pub(crate) fn resolved_tree(
    alloc: Global,
    pool: &Pool<'_>,
    draft: GroupDraft,
) -> Result<Group, NoMemory>
    ensures { IfOk result (λ g. tree_seen g ≡ spec.resolved_tree pool.now (draft_seen draft)) }
{
    let GroupDraft {
        id,
        placed,
        previous,
        state,
        view,
        entries,
        groups,
    } = draft;
    let entries = resolved_entries(alloc, pool, entries);
    let groups = resolved_groups(alloc, pool, groups);
    match both(entries, groups) {
        Ok(nodes) => {
            let (entries, groups) = nodes;
            Ok(Group {
                id,
                placed,
                previous,
                state,
                view,
                entries,
                groups,
            })
        }
        Err(refusal) => {
            drop(state);
            Err(refusal)
        }
    }
}

/// Groups with all below them, with the bytes of their attachments.
#[cycle(tree)]
fn resolved_groups(
    alloc: Global,
    pool: &Pool<'_>,
    drafts: Vec<GroupDraft>,
) -> Result<List<Group>, NoMemory>
    ensures { IfOk result (λ l. map tree_seen l
        ≡ map (spec.resolved_tree pool.now) (map draft_seen drafts.items)) }
{
    let mut resolved = List::new(alloc);
    for draft in drafts {
        if let Err(refusal) = push_made(&mut resolved, resolved_tree(alloc, pool, draft)) {
            drop(resolved);
            return Err(refusal);
        }
    }
    resolved.fit();
    Ok(resolved)
}
