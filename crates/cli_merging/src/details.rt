//! What a merge prints where details are asked for.
ghost use Rattle.std.specs.Prelude.{◌≡◌, ◌++◌, OnOk, codes, false, map};
ghost use Rattle.uuid.specs.Text.{hyphenated_text, lower};
ghost use Rattle.vault_model.specs.SeenDoc.{doc_seen};
ghost use Rattle.merge_details.specs.PathTables as table;
ghost use Rattle.cli_merging.specs.Details as spec;
ghost use Rattle.cli_merging.specs.Details.{detail_line, detail_lines, detailed_report, move_line};

use crate::counts::append_counts;
use crate::reports::{append_node, append_sources, kind_text};
use crate::{MergeFiles, MergeOutcome};
use merge_changes::changes::{Change, Kind};
use merge_details::{MergedDocs, Paths, append, append_conflicts, conflicts_of, path_at, paths_of};
use outside_core::NoMemory;
use secret_core::Secret;
use std::alloc::Global;
use uuid_core::Uuid;

// Puts an id in brackets, and what follows it, after a text.
fn append_moved_id(alloc: Global, text: &mut Secret, id: &Uuid) -> Result<(), NoMemory>
    ensures { OnOk result (text.new.bytes ≡ text.old.bytes
        ++ codes " [" ++ hyphenated_text lower id.now ++ codes "] from ") }
{
    match format!(in alloc; " [{id}] from ") {
        Ok(written) => append(alloc, text, written.as_str().as_bytes()),
        Err(_) => Err(NoMemory),
    }
}

// Puts the line of a node that was moved after a text.
fn append_move(
    alloc: Global,
    text: &mut Secret,
    kind: Kind,
    old: &[u8],
    new: &[u8],
    id: &Uuid,
) -> Result<(), NoMemory>
    ensures { OnOk result (text.new.bytes
        ≡ text.old.bytes ++ move_line kind old.now new.now id.now) }
{
    append(alloc, text, b"moved ")?;
    append(alloc, text, kind_text(kind))?;
    append(alloc, text, new)?;
    append_moved_id(alloc, text, id)?;
    append(alloc, text, old)?;
    append(alloc, text, b"\n")
}

// Puts the line of a change after a text.
fn append_detail(
    alloc: Global,
    text: &mut Secret,
    old: &Paths,
    new: &Paths,
    change: &Change,
) -> Result<(), NoMemory>
    ensures { OnOk result (text.new.bytes ≡ text.old.bytes
        ++ detail_line (table.path_at old.now) (table.path_at new.now) change.now) }
{
    match *change {
        Change::Created(kind, id) => {
            append_node(alloc, text, b"created ", kind, path_at(new, &id), &id)
        }
        Change::Updated(kind, id) => {
            append_node(alloc, text, b"updated ", kind, path_at(new, &id), &id)
        }
        Change::Moved(kind, id) => {
            append_move(alloc, text, kind, path_at(old, &id), path_at(new, &id), &id)
        }
        Change::Deleted(kind, id) => {
            append_node(alloc, text, b"deleted ", kind, path_at(old, &id), &id)
        }
        Change::Metadata => append(alloc, text, b"metadata\n"),
        Change::Deletions => append(alloc, text, b"deletions\n"),
        Change::Order => append(alloc, text, b"order\n"),
    }
}

// Puts the lines of changes after a text.
fn append_details(
    alloc: Global,
    text: &mut Secret,
    old: &Paths,
    new: &Paths,
    changes: &[Change],
) -> Result<(), NoMemory>
    ensures { OnOk result (text.new.bytes ≡ text.old.bytes
        ++ detail_lines (table.path_at old.now) (table.path_at new.now) changes.now) }
{
    for change in changes {
        append_detail(alloc, text, old, new, change)?;
    }
    Ok(())
}

// How the line of a source begins.
fn merging_words(dry: bool) -> &'static [u8]
    ensures { result.now ≡ spec.merging_words dry }
{
    if dry {
        b"Would merge "
    } else {
        b"Successfully merged "
    }
}

// Puts what a merge that changed something prints after a text.
fn append_changed(
    alloc: Global,
    text: &mut Secret,
    dry: bool,
    files: MergeFiles<'_>,
    made: MergeOutcome<'_>,
) -> Result<(), NoMemory>
    ensures { OnOk result (text.new.bytes ≡ text.old.bytes
        ++ detailed_report dry false files.entry.target.now files.entry.sources.now
        (doc_seen made.entry.old.now) (map doc_seen made.entry.sources.now)
        (doc_seen made.entry.new.now) made.entry.changes.now) }
{
    let before = paths_of(alloc, made.old)?;
    let after = paths_of(alloc, made.new)?;
    let docs = MergedDocs {
        target: made.old,
        sources: made.sources,
        new: made.new,
    };
    let conflicts = conflicts_of(alloc, docs, &after)?;
    append_details(alloc, text, &before, &after, made.changes)?;
    append_conflicts(alloc, text, &conflicts)?;
    append_sources(alloc, text, merging_words(dry), files.target, files.sources)?;
    append_counts(alloc, text, made.changes, conflicts.len())?;
    Ok(())
}

// Puts what a merge that changed nothing prints after a text.
fn append_unchanged(alloc: Global, text: &mut Secret) -> Result<(), NoMemory>
    ensures { OnOk result (text.new.bytes ≡ text.old.bytes
        ++ codes "Database was not modified by merge operation.\n") }
{
    append(
        alloc,
        text,
        b"Database was not modified by merge operation.\n",
    )
}

/// Puts what a merge prints where details are asked for after a text.
pub(crate) fn append_detailed(
    alloc: Global,
    text: &mut Secret,
    dry: bool,
    files: MergeFiles<'_>,
    made: MergeOutcome<'_>,
) -> Result<(), NoMemory>
    ensures { OnOk result (text.new.bytes ≡ text.old.bytes
        ++ detailed_report dry made.entry.same files.entry.target.now files.entry.sources.now
        (doc_seen made.entry.old.now) (map doc_seen made.entry.sources.now)
        (doc_seen made.entry.new.now) made.entry.changes.now) }
{
    if made.same {
        append_unchanged(alloc, text)
    } else {
        append_changed(alloc, text, dry, files, made)
    }
}
