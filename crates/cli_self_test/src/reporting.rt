//! What is printed.
ghost use Rattle.std.specs.Prelude.{◌≡◌, ◌++◌, [], IfErr, IfOk, OnOk};
ghost use Rattle.std.specs.Fmt.{decimal};
ghost use Rattle.cli_messages.specs.Phases.{IsMemoryStop};
ghost use Rattle.cli_self_test.specs.SelfTest as spec;
ghost use Rattle.cli_self_test.specs.SelfTest.{count_lines, line};

use crate::counting::Counts;
use cli_messages::Stop;
use outside_core::{Bytes, NoMemory};
use secret_core::Secret;
use std::alloc::Global;

// What became of a document.
fn change_text(changed: bool) -> &'static [u8]
    ensures { result.now ≡ spec.change_text changed }
{
    if changed {
        b"modified"
    } else {
        b"not modified"
    }
}

// Adds a line: a word, and what is said of it.
#[tactic(auto, unfolding(crate::specs::SelfTest::line))]
fn add_line(text: &mut Bytes, word: &[u8], said: &[u8]) -> Result<(), NoMemory>
    ensures { OnOk result (text.new ≡ text.old ++ line word.now said.now) }
{
    text.add(word)?;
    text.add(said)?;
    text.add(b"\n")
}

// Adds a line with a number.
fn add_number(alloc: Global, text: &mut Bytes, word: &[u8], number: usize) -> Result<(), NoMemory>
    ensures { OnOk result (text.new ≡ text.old ++ line word.now (decimal number)) }
{
    let digits = format!(in alloc; "{number}")?;
    let added = add_line(text, word, digits.as_str().as_bytes());
    drop(digits);
    added
}

// Adds the lines of what is in a database.
#[tactic(auto, unfolding(crate::specs::SelfTest::count_lines))]
fn add_counts(alloc: Global, text: &mut Bytes, counts: Counts) -> Result<(), NoMemory>
    ensures { OnOk result (text.new ≡ text.old ++ count_lines counts) }
{
    add_number(alloc, text, b"entries ", counts.entries)?;
    add_number(alloc, text, b"history ", counts.history)?;
    add_number(alloc, text, b"groups ", counts.groups)?;
    add_number(alloc, text, b"tombstones ", counts.tombs)
}

// Puts what is printed where nothing is yet.
#[tactic(auto, unfolding(crate::specs::SelfTest::report))]
fn fill(
    alloc: Global,
    text: &mut Bytes,
    counts: Counts,
    first: &str,
    second: &str,
    changed: bool,
) -> Result<(), NoMemory>
    requires { text.old ≡ [] }
    ensures { OnOk result (text.new
        ≡ spec.report counts first.now second.now (spec.change_text changed)) }
{
    add_counts(alloc, text, counts)?;
    add_line(text, b"first ", first.as_bytes())?;
    add_line(text, b"second ", second.as_bytes())?;
    add_line(text, b"again: ", change_text(changed))
}

// A text in memory that is wiped.
fn shown_text(alloc: Global, text: &[u8]) -> Result<Secret, NoMemory>
    ensures { IfOk result (λ shown. shown.bytes ≡ text.now) }
{
    let mut shown = Secret::with_room(alloc, text.len())?;
    shown.extend(text);
    Ok(shown)
}

// What is printed, in memory that is wiped.
fn filled(
    alloc: Global,
    counts: Counts,
    first: &str,
    second: &str,
    changed: bool,
) -> Result<Secret, NoMemory>
    ensures { IfOk result (λ text. text.bytes
        ≡ spec.report counts first.now second.now (spec.change_text changed)) }
{
    let mut text = Bytes::new(alloc);
    match fill(alloc, &mut text, counts, first, second, changed) {
        Ok(()) => {
            let shown = shown_text(alloc, text.as_slice());
            drop(text);
            shown
        }
        Err(refusal) => {
            drop(text);
            Err(refusal)
        }
    }
}

/// What is printed: by what is in the database, by the hashes of the two documents, and by whether
/// another merge changed the first. The only stop is that memory ran out.
pub(crate) fn report(
    alloc: Global,
    counts: Counts,
    first: &str,
    second: &str,
    changed: bool,
) -> Result<Secret, Stop>
    ensures text { IfOk result (λ text. text.bytes
        ≡ spec.report counts first.now second.now (spec.change_text changed)) }
    ensures cause { IfErr result IsMemoryStop }
{
    match filled(alloc, counts, first, second, changed) {
        Ok(text) => Ok(text),
        Err(NoMemory) => Err(Stop::NoMemory),
    }
}
