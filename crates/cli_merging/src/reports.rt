//! What a merge prints. Titles may be secret, so it is composed in memory that is wiped.
ghost use Rattle.std.specs.Prelude.{◌≡◌, ◌++◌, IfOk, OnOk, List, codes, map, ℕ};
ghost use Rattle.std.specs.List.{list_any};
ghost use Rattle.uuid.specs.Text.{hyphenated_text, lower};
ghost use Rattle.vault_model.specs.Db.{NodeId};
ghost use Rattle.vault_model.specs.SeenDoc.{doc_seen};
ghost use Rattle.cli_merging.specs.Names as table;
ghost use Rattle.cli_merging.specs.Reports as spec;
ghost use Rattle.cli_merging.specs.Reports.{change_line, change_lines, name_in, node_line, source_line, source_lines, told_report};
ghost use Rattle.cli_merging.specs.Details.{merge_report};

use crate::details::append_detailed;
use crate::names::{Names, name_at, names_of};
use merge_changes::changes::{Change, Kind};
use merge_details::append;
use merge_tables::tables::Table;
use outside_core::{NoMemory, Text};
use secret_core::Secret;
use std::alloc::Global;
use uuid_core::Uuid;
use vault_model::Doc;

/// What a node is.
pub(crate) fn kind_text(kind: Kind) -> &'static [u8]
    ensures { result.now ≡ spec.kind_text kind }
{
    match kind {
        Kind::Entry => b"entry ",
        Kind::Group => b"group ",
    }
}

// Puts an id in brackets, and the end of a line, after a text.
fn append_id(alloc: Global, text: &mut Secret, id: &Uuid) -> Result<(), NoMemory>
    ensures { OnOk result (text.new.bytes ≡ text.old.bytes
        ++ codes " [" ++ hyphenated_text lower id.now ++ codes "]\n") }
{
    match format!(in alloc; " [{id}]\n") {
        Ok(written) => append(alloc, text, written.as_str().as_bytes()),
        Err(_) => Err(NoMemory),
    }
}

/// Puts the line of a node after a text.
pub(crate) fn append_node(
    alloc: Global,
    text: &mut Secret,
    done: &[u8],
    kind: Kind,
    name: &[u8],
    id: &Uuid,
) -> Result<(), NoMemory>
    ensures { OnOk result (text.new.bytes
        ≡ text.old.bytes ++ node_line done.now kind name.now id.now) }
{
    append(alloc, text, done)?;
    append(alloc, text, kind_text(kind))?;
    append(alloc, text, name)?;
    append_id(alloc, text, id)
}

// Puts the line of a change after a text.
fn append_change(
    alloc: Global,
    text: &mut Secret,
    old: &Names<'_>,
    new: &Names<'_>,
    change: &Change,
) -> Result<(), NoMemory>
    ensures { OnOk result (text.new.bytes ≡ text.old.bytes
        ++ change_line (table.name_at old.now) (table.name_at new.now) change.now) }
{
    match *change {
        Change::Created(kind, id) => {
            append_node(alloc, text, b"created ", kind, name_at(new, &id), &id)
        }
        Change::Updated(kind, id) => {
            append_node(alloc, text, b"updated ", kind, name_at(new, &id), &id)
        }
        Change::Moved(kind, id) => {
            append_node(alloc, text, b"moved ", kind, name_at(new, &id), &id)
        }
        Change::Deleted(kind, id) => {
            append_node(alloc, text, b"deleted ", kind, name_at(old, &id), &id)
        }
        Change::Metadata => append(alloc, text, b"metadata\n"),
        Change::Deletions => append(alloc, text, b"deletions\n"),
        Change::Order => append(alloc, text, b"order\n"),
    }
}

// Puts the lines of changes after a text.
fn append_changes(
    alloc: Global,
    text: &mut Secret,
    old: &Names<'_>,
    new: &Names<'_>,
    changes: &[Change],
) -> Result<(), NoMemory>
    ensures { OnOk result (text.new.bytes ≡ text.old.bytes
        ++ change_lines (table.name_at old.now) (table.name_at new.now) changes.now) }
{
    for change in changes {
        append_change(alloc, text, old, new, change)?;
    }
    Ok(())
}

/// Whether a change is the deletion of a node.
pub(crate) fn is_deletion(change: &Change) -> bool
    ensures { result ≡ spec.is_deletion change.now }
{
    matches!(*change, Change::Deleted(_, _))
}

// Whether one of these changes is the deletion of a node.
fn has_deletion(changes: &[Change]) -> bool
    ensures { result ≡ list_any spec.is_deletion changes.now }
{
    for change in changes {
        if is_deletion(change) {
            return true;
        }
    }
    false
}

// The names that nodes had before these changes, as far as their lines have them: none where no
// node was deleted.
fn names_before<'a>(alloc: Global, old: &'a Doc, changes: &[Change]) -> Result<Names<'a>, NoMemory>
    ensures { IfOk result (λ names. (new : NodeId → List ℕ)
        → change_lines (table.name_at names) new changes.now
        ≡ change_lines (name_in (doc_seen old.now)) new changes.now) }
{
    if has_deletion(changes) {
        names_of(alloc, old)
    } else {
        Ok(Table::new(alloc))
    }
}

// Puts the lines of what a merge changed after a text.
fn append_all_changes(
    alloc: Global,
    text: &mut Secret,
    old: &Doc,
    new: &Doc,
    changes: &[Change],
) -> Result<(), NoMemory>
    ensures { OnOk result (text.new.bytes ≡ text.old.bytes
        ++ change_lines (name_in (doc_seen old.now)) (name_in (doc_seen new.now)) changes.now) }
{
    let before = names_before(alloc, old, changes)?;
    let after = names_of(alloc, new)?;
    append_changes(alloc, text, &before, &after, changes)
}

// Puts the line of a source, which begins so, after a text.
fn append_source(
    alloc: Global,
    text: &mut Secret,
    done: &[u8],
    target: &str,
    source: &str,
) -> Result<(), NoMemory>
    ensures { OnOk result (text.new.bytes
        ≡ text.old.bytes ++ source_line done.now target.now source.now) }
{
    append(alloc, text, done)?;
    append(alloc, text, source.as_bytes())?;
    append(alloc, text, b" into ")?;
    append(alloc, text, target.as_bytes())?;
    append(alloc, text, b".\n")
}

/// Puts the lines of sources, which begin so, after a text.
pub(crate) fn append_sources(
    alloc: Global,
    text: &mut Secret,
    done: &[u8],
    target: &str,
    sources: &[Text],
) -> Result<(), NoMemory>
    ensures { OnOk result (text.new.bytes
        ≡ text.old.bytes ++ source_lines done.now target.now sources.now) }
{
    for source in sources {
        append_source(alloc, text, done, target, source.as_str())?;
    }
    Ok(())
}

/// How a merge is reported.
#[derive(Clone, Copy)]
pub struct MergeStyle {
    /// Whether nothing is reported.
    pub quiet: bool,
    /// Whether no file is to be written.
    pub dry: bool,
    /// Whether paths, conflicts and numbers are reported.
    pub details: bool,
}

/// The files of a merge, which its report names.
#[derive(Clone, Copy)]
pub struct MergeFiles<'a> {
    /// The file of the target.
    pub target: &'a str,
    /// The files of the sources, in the order in which they were merged.
    pub sources: &'a [Text],
}

/// What a merge made, which its report lists.
#[derive(Clone, Copy)]
pub struct MergeOutcome<'a> {
    /// Whether the document is the same as before.
    pub same: bool,
    /// The document before the merge.
    pub old: &'a Doc,
    /// What was merged into it.
    pub sources: &'a [Doc],
    /// The document after it.
    pub new: &'a Doc,
    /// What changed, in the order in which it is reported.
    pub changes: &'a [Change],
}

// Puts what a merge prints where no details are asked for after a text.
fn append_told(
    alloc: Global,
    text: &mut Secret,
    files: MergeFiles<'_>,
    made: MergeOutcome<'_>,
) -> Result<(), NoMemory>
    ensures { OnOk result (text.new.bytes ≡ text.old.bytes
        ++ told_report made.entry.same files.entry.target.now files.entry.sources.now
        (doc_seen made.entry.old.now) (doc_seen made.entry.new.now) made.entry.changes.now) }
{
    if made.same {
        return append(
            alloc,
            text,
            b"Database was not modified by merge operation.\n",
        );
    }
    append_all_changes(alloc, text, made.old, made.new, made.changes)?;
    append_sources(
        alloc,
        text,
        b"Successfully merged ",
        files.target,
        files.sources,
    )
}

// Puts what a merge prints after a text.
fn append_report(
    alloc: Global,
    text: &mut Secret,
    style: MergeStyle,
    files: MergeFiles<'_>,
    made: MergeOutcome<'_>,
) -> Result<(), NoMemory>
    ensures { OnOk result (text.new.bytes ≡ text.old.bytes ++ merge_report style.quiet style.dry
        style.details made.entry.same files.entry.target.now files.entry.sources.now
        (doc_seen made.entry.old.now) (map doc_seen made.entry.sources.now)
        (doc_seen made.entry.new.now) made.entry.changes.now) }
{
    if style.quiet {
        Ok(())
    } else if style.details {
        append_detailed(alloc, text, style.dry, files, made)
    } else {
        append_told(alloc, text, files, made)
    }
}

/// What a merge prints: nothing where it is quiet. It is composed in memory that is wiped. The only
/// refusal is that memory ran out.
pub fn report(
    alloc: Global,
    style: MergeStyle,
    files: MergeFiles<'_>,
    made: MergeOutcome<'_>,
) -> Result<Secret, NoMemory>
    ensures { IfOk result (λ text. text.bytes ≡ merge_report style.quiet style.dry style.details
        made.entry.same files.entry.target.now files.entry.sources.now
        (doc_seen made.entry.old.now) (map doc_seen made.entry.sources.now)
        (doc_seen made.entry.new.now) made.entry.changes.now) }
{
    let mut text = Secret::with_room(alloc, 0)?;
    append_report(alloc, &mut text, style, files, made)?;
    Ok(text)
}
