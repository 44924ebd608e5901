//! `history` on a document.
ghost use Rattle.std.specs.Prelude.{◌≡◌, ◌++◌, [], ◌∷◌, IfErr, IfOk, OnOk, codes};
ghost use Rattle.std.specs.Fmt.{decimal};
ghost use Rattle.doc_spelling.specs.Moments.{iso_at};
ghost use Rattle.vault_model.specs.SeenDoc.{doc_seen};
ghost use Rattle.vault_model.specs.SeenNodes.{bare_version, entry_record};
ghost use Rattle.cli_messages.specs.Phases.{IsPlainStop, Returns};
ghost use Rattle.cli_showing.specs.History as spec;
ghost use Rattle.cli_showing.specs.History.{history_shown, version_line};

use crate::changes::append_changes;
use crate::showing::entry_named;
use crate::texts::{append, append_three};
use cli_messages::{Reason, Stop, refused};
use outside_core::NoMemory;
use secret_core::Secret;
use std::alloc::Global;
use time_core::{Stamp, iso_of};
use vault_model::{Doc, Entry, Version};

// The text of a time.
fn iso_text(stamp: Stamp) -> [u8; 20]
    ensures { result ≡ iso_at stamp }
{
    iso_of(stamp)
}

// Puts a number and two spaces after a text.
fn append_number(alloc: Global, text: &mut Secret, number: usize) -> Result<(), NoMemory>
    ensures { OnOk result (text.new.bytes ≡ text.old.bytes ++ (decimal number ++ codes "  ")) }
{
    let digits = format!(in alloc; "{number}  ")?;
    let appended = append(alloc, text, digits.as_str().as_bytes());
    drop(digits);
    appended
}

// Puts a time and two spaces after a text.
fn append_time(alloc: Global, text: &mut Secret, stamp: Stamp) -> Result<(), NoMemory>
    ensures { OnOk result (text.new.bytes ≡ text.old.bytes ++ (iso_at stamp ++ codes "  ")) }
{
    append(alloc, text, &iso_text(stamp))?;
    append(alloc, text, b"  ")
}

// Puts the line of a version that has an older one after a text.
fn append_version(
    alloc: Global,
    text: &mut Secret,
    number: usize,
    version: &Version,
    older: &Version,
) -> Result<(), NoMemory>
    ensures { OnOk result (text.new.bytes ≡ text.old.bytes
        ++ version_line number (bare_version version.now) (bare_version older.now ∷ [])) }
{
    append_number(alloc, text, number)?;
    append_time(alloc, text, version.modified)?;
    append_changes(alloc, text, &version.content, &older.content)?;
    append(alloc, text, b"\n")
}

// Puts the line of the oldest version after a text.
fn append_oldest(
    alloc: Global,
    text: &mut Secret,
    number: usize,
    version: &Version,
) -> Result<(), NoMemory>
    ensures { OnOk result (text.new.bytes ≡ text.old.bytes
        ++ version_line number (bare_version version.now) []) }
{
    append_number(alloc, text, number)?;
    append_time(alloc, text, version.modified)?;
    append(alloc, text, b"-\n")
}

// Puts the lines of an entry's versions after a text.
fn append_versions(alloc: Global, text: &mut Secret, entry: &Entry) -> Result<(), NoMemory>
    ensures { OnOk result (text.new.bytes ≡ text.old.bytes
        ++ spec.history_text (entry_record entry.now)) }
{
    let history = entry.history.as_slice();
    let count = history.len();
    let mut version = &entry.current;
    for number in 0..count {
        let older = &history[count - 1 - number];
        append_version(alloc, text, number, version, older)?;
        version = older;
    }
    append_oldest(alloc, text, count, version)
}

// The lines of an entry's versions.
fn history_text(alloc: Global, entry: &Entry) -> Result<Secret, NoMemory>
    ensures { IfOk result (λ text. text.bytes ≡ spec.history_text (entry_record entry.now)) }
{
    let mut text = Secret::with_room(alloc, 0)?;
    match append_versions(alloc, &mut text, entry) {
        Ok(()) => Ok(text),
        Err(fail) => {
            drop(text);
            Err(fail)
        }
    }
}

/// What `history` prints of the entry that a path names, a line for each of its versions: its
/// number, when it was modified, and the names of what differs from the next older version. It
/// prints no value, and is in memory that is wiped, since the name of a field may be secret.
#[tactic(auto, unfolding(crate::specs::History::history_shown))]
pub fn show_history(alloc: Global, doc: &Doc, path: &str, file: &str) -> Result<Secret, Stop>
    ensures told { Returns (λ text. text.bytes) result
        (history_shown file.now path.now (doc_seen doc.now)) }
    ensures cause { IfErr result IsPlainStop }
{
    let Some(entry) = entry_named(doc, path) else {
        return Err(refused(alloc, Reason::NoSuchPath, file));
    };
    match history_text(alloc, entry) {
        Ok(text) => Ok(text),
        Err(NoMemory) => Err(Stop::NoMemory),
    }
}
