//! What `merge` makes of its target.
ghost use Rattle.std.specs.Prelude.{◌≡◌, ◌≢◌, ◌&&◌, not, if◌then◌else◌, None, Some, IfErr, IfOk, OnErr, map, true, false};
ghost use Rattle.vault_model.specs.SeenDoc.{doc_seen};
ghost use Rattle.cli_messages.specs.Messages.{Refuses, refusal_of};
ghost use Rattle.cli_messages.specs.Phases.{IsPlainStop};
ghost use Rattle.cli_merging.specs.Details.{merge_report};
ghost use Rattle.cli_merging.specs.Merging as spec;
ghost use Rattle.cli_merging.specs.Merging.{IsUnmerged, MergeChanges, after_merge};

use crate::{MergeFiles, MergeOutcome, MergeStyle, report};
use cli_messages::{Reason, Stop, refused};
use document_merge::merging::{MergeFail, Merged, merge_lent};
use outside_core::{NoMemory, Text};
use secret_core::Secret;
use std::alloc::Global;
use std::mem;
use vault_model::Doc;

/// What a merge is given beside its documents.
#[derive(Clone, Copy)]
pub struct MergeGiven<'a> {
    /// The file of the target, which a refusal names.
    pub file: &'a str,
    /// The files of the sources.
    pub sources: &'a [Text],
    /// Whether the merge reports nothing.
    pub quiet: bool,
    /// Whether no file is to be written.
    pub dry: bool,
    /// Whether the report says what a person has to look at: paths, conflicts and numbers.
    pub details: bool,
}

/// What a merge prints, and whether its target is to be written.
#[derive(Drop)]
pub struct MergeReport {
    /// What is printed, in memory that is wiped, since a title may be secret.
    pub text: Secret,
    /// Whether the target is to be written.
    pub is_written: bool,
}

// The answer that a refusal to merge is.
fn merge_answer(fail: MergeFail) -> Reason
    ensures is { result ≡ spec.merge_answer fail }
    ensures there { result ≢ Reason.NoSuchFile }
{
    match fail {
        MergeFail::RootClash(id) => Reason::Clash(id),
        MergeFail::KindClash(id) => Reason::Clash(id),
        MergeFail::MoveCycle(ids) => Reason::MoveCycle(ids),
        MergeFail::TooDeep(_) => Reason::TooDeep,
        MergeFail::NoMemory => Reason::OutOfMemory,
    }
}

// The stop of a merge that was refused, whose target is of this file.
fn unmerged(alloc: Global, fail: MergeFail, file: &str) -> Stop
    ensures is { IsUnmerged fail file.now result }
    ensures plain { IsPlainStop result }
{
    match fail {
        MergeFail::NoMemory => Stop::NoMemory,
        fail => refused(alloc, merge_answer(fail), file),
    }
}

// Puts a merged document in the place of another.
fn replace(doc: &mut Doc, merged: Merged)
    ensures { doc_seen doc.new ≡ doc_seen merged.doc }
{
    let Merged {
        doc: new,
        changed: _,
        changes,
    } = merged;
    drop(changes);
    drop(mem::replace(doc, new));
}

// The report of a merge with this text, which puts the merged document in the place of its target,
// if that is to be written.
fn written(doc: &mut Doc, merged: Merged, dry: bool, text: Secret) -> MergeReport
    ensures told { spec.report_seen result (doc_seen doc.new) ≡ record {
      text = text.bytes;
      doc = if merged.changed && not dry then Some (doc_seen merged.doc) else None;
    } }
    ensures dry { dry ≡ true → result.is_written ≡ false }
{
    if merged.changed && !dry {
        replace(doc, merged);
        MergeReport {
            text,
            is_written: true,
        }
    } else {
        drop(merged);
        MergeReport {
            text,
            is_written: false,
        }
    }
}

// What a merge prints.
fn text_of(
    alloc: Global,
    doc: &Doc,
    sources: &[Doc],
    merged: &Merged,
    given: MergeGiven<'_>,
) -> Result<Secret, NoMemory>
    ensures { IfOk result (λ text. text.bytes ≡ merge_report given.entry.quiet given.entry.dry
        given.entry.details (not merged.now.changed) given.entry.file.now given.entry.sources.now
        (doc_seen doc.now) (map doc_seen sources.now) (doc_seen merged.now.doc)
        merged.now.changes) }
{
    let style = MergeStyle {
        quiet: given.quiet,
        dry: given.dry,
        details: given.details,
    };
    let files = MergeFiles {
        target: given.file,
        sources: given.sources,
    };
    let made = MergeOutcome {
        same: !merged.changed,
        old: doc,
        sources,
        new: &merged.doc,
        changes: merged.changes.as_slice(),
    };
    report(alloc, style, files, made)
}

// The report of a merge, and its target, if that is to be written.
fn finished(
    alloc: Global,
    doc: &mut Doc,
    sources: &[Doc],
    merged: Merged,
    given: MergeGiven<'_>,
) -> Result<MergeReport, NoMemory>
    ensures told { IfOk result (λ report. spec.report_seen report (doc_seen doc.new)
        ≡ spec.after_merged given.entry.file.now given.entry.quiet given.entry.dry
        given.entry.details given.entry.sources.now (doc_seen doc.old) (map doc_seen sources.now)
        merged.changed (doc_seen merged.doc) merged.changes) }
    ensures dry { IfOk result (λ report. given.entry.dry ≡ true → report.is_written ≡ false) }
    ensures kept { OnErr result (doc_seen doc.new ≡ doc_seen doc.old) }
{
    match text_of(alloc, doc, sources, &merged, given) {
        Ok(text) => Ok(written(doc, merged, given.dry, text)),
        Err(fail) => {
            drop(merged);
            Err(fail)
        }
    }
}

/// Merges sources into a document, which is changed in place where it is to be written; a refusal
/// changes nothing.
pub fn merge_into(
    alloc: Global,
    doc: &mut Doc,
    sources: &[Doc],
    given: MergeGiven<'_>,
) -> Result<MergeReport, Stop>
    ensures told { MergeChanges result (after_merge given.entry.file.now given.entry.quiet
        given.entry.dry given.entry.details given.entry.sources.now (doc_seen doc.old)
        (map doc_seen sources.now)) (doc_seen doc.old) (doc_seen doc.new) }
    ensures dry { IfOk result (λ report. given.entry.dry ≡ true → report.is_written ≡ false) }
    ensures cause { IfErr result IsPlainStop }
{
    match merge_lent(alloc, doc, sources) {
        Ok(merged) => match finished(alloc, doc, sources, merged, given) {
            Ok(report) => Ok(report),
            Err(NoMemory) => Err(Stop::NoMemory),
        },
        Err(fail) => Err(unmerged(alloc, fail, given.file)),
    }
}
