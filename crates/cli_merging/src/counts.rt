//! The line of numbers.
ghost use Rattle.std.specs.Prelude.{◌≡◌, ◌++◌, OnOk, count_by};
ghost use Rattle.std.specs.Fmt.{decimal};
ghost use Rattle.cli_merging.specs.Details as spec;
ghost use Rattle.cli_merging.specs.Details.{count_line};
ghost use Rattle.cli_merging.specs.Reports as report;

use crate::reports::is_deletion;
use merge_changes::changes::Change;
use merge_details::append;
use outside_core::NoMemory;
use secret_core::Secret;
use std::alloc::Global;

// Whether a change is the creation of a node.
fn is_creation(change: &Change) -> bool
    ensures { result ≡ spec.is_creation change.now }
{
    matches!(*change, Change::Created(_, _))
}

// Whether a change is the update of a node.
fn is_update(change: &Change) -> bool
    ensures { result ≡ spec.is_update change.now }
{
    matches!(*change, Change::Updated(_, _))
}

// Whether a change is the move of a node.
fn is_move(change: &Change) -> bool
    ensures { result ≡ spec.is_move change.now }
{
    matches!(*change, Change::Moved(_, _))
}

// How many of these changes are creations.
fn count_created(changes: &[Change]) -> usize
    ensures { result ≡ count_by spec.is_creation changes.now }
{
    changes.iter().filter(|change| is_creation(*change)).count()
}

// How many of these changes are updates.
fn count_updated(changes: &[Change]) -> usize
    ensures { result ≡ count_by spec.is_update changes.now }
{
    changes.iter().filter(|change| is_update(*change)).count()
}

// How many of these changes are moves.
fn count_moved(changes: &[Change]) -> usize
    ensures { result ≡ count_by spec.is_move changes.now }
{
    changes.iter().filter(|change| is_move(*change)).count()
}

// How many of these changes are deletions.
fn count_deleted(changes: &[Change]) -> usize
    ensures { result ≡ count_by report.is_deletion changes.now }
{
    changes.iter().filter(|change| is_deletion(*change)).count()
}

// Puts a number, and what it is of, after a text.
fn append_number(
    alloc: Global,
    text: &mut Secret,
    number: usize,
    what: &[u8],
) -> Result<(), NoMemory>
    ensures { OnOk result (text.new.bytes ≡ text.old.bytes ++ decimal number ++ what.now) }
{
    match format!(in alloc; "{number}") {
        Ok(written) => {
            append(alloc, text, written.as_str().as_bytes())?;
            append(alloc, text, what)
        }
        Err(_) => Err(NoMemory),
    }
}

/// Puts the line of numbers after a text.
pub(crate) fn append_counts(
    alloc: Global,
    text: &mut Secret,
    changes: &[Change],
    conflicts: usize,
) -> Result<(), NoMemory>
    ensures { OnOk result (text.new.bytes ≡ text.old.bytes ++ count_line changes.now conflicts) }
{
    append_number(alloc, text, count_created(changes), b" created, ")?;
    append_number(alloc, text, count_updated(changes), b" updated, ")?;
    append_number(alloc, text, count_moved(changes), b" moved, ")?;
    append_number(alloc, text, count_deleted(changes), b" deleted, ")?;
    append_number(alloc, text, conflicts, b" conflicts\n")?;
    Ok(())
}
