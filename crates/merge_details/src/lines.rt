//! The lines of conflicts.
ghost use Rattle.std.specs.Prelude.{◌≡◌, ◌++◌, codes, OnOk};
ghost use Rattle.std.specs.FinMap.{entries};
ghost use Rattle.uuid.specs.Text.{hyphenated_text, lower};
ghost use Rattle.doc_spelling.specs.Moments.{iso_at};
ghost use Rattle.merge_details.specs.Lines.{conflict_line, conflict_lines};

use crate::append;
use crate::conflict_tables::{ConflictKey, ConflictTable, ConflictTimes};
use outside_core::NoMemory;
use secret_core::Secret;
use std::alloc::Global;
use time_core::{Stamp, iso_of};
use uuid_core::Uuid;

// Puts an id in brackets after a text.
fn append_id(alloc: Global, text: &mut Secret, id: &Uuid) -> Result<(), NoMemory>
    ensures { OnOk result (text.new.bytes ≡ text.old.bytes
        ++ codes " [" ++ hyphenated_text lower id.now ++ codes "]: ") }
{
    match format!(in alloc; " [{id}]: ") {
        Ok(written) => append(alloc, text, written.as_str().as_bytes()),
        Err(_) => Err(NoMemory),
    }
}

// The text of a time.
fn iso_text(stamp: Stamp) -> [u8; 20]
    ensures { result ≡ iso_at stamp }
{
    iso_of(stamp)
}

// Puts the line of a conflict after a text.
fn append_conflict(
    alloc: Global,
    text: &mut Secret,
    key: &ConflictKey<'_>,
    times: &ConflictTimes,
) -> Result<(), NoMemory>
    ensures { OnOk result (text.new.bytes
        ≡ text.old.bytes ++ conflict_line (key.now, times.now)) }
{
    append(alloc, text, b"conflict entry ")?;
    append(alloc, text, key.path())?;
    append_id(alloc, text, &key.id())?;
    append(alloc, text, &iso_text(times.current))?;
    append(alloc, text, b" is current, ")?;
    append(alloc, text, &iso_text(times.older))?;
    append(alloc, text, b" is in its history\n")?;
    Ok(())
}

/// Puts the lines of conflicts after a text, whose memory grows where it must. A refusal, which
/// means that memory ran out, leaves the text with a part of the lines.
pub fn append_conflicts(
    alloc: Global,
    text: &mut Secret,
    conflicts: &ConflictTable<'_>,
) -> Result<(), NoMemory>
    ensures { OnOk result (text.new.bytes
        ≡ text.old.bytes ++ conflict_lines (entries conflicts.now)) }
{
    for (key, times) in conflicts.iter() {
        append_conflict(alloc, text, key, times)?;
    }
    Ok(())
}
