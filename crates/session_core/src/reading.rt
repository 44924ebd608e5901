//! Reading what a line of a session asks for.
ghost use Rattle.std.specs.Prelude.{◌≡◌, ◌≤◌, ℕ, List, IfErr, IfOk, Ok, OnOk, Some, true};
ghost use Rattle.std.specs.Str.{is_utf8};
ghost use Rattle.outside_core.specs.Reports.{StaysTruthful};
ghost use Rattle.cli_messages.specs.Phases.{IsPlainStop, IsStreamStop, Returns};
ghost use Rattle.session_core.specs.Reading.{last_read, line_read, line_said, read_by_said, words_said};
ghost use Rattle.session_core.specs.Reading as spec;
ghost use Rattle.cli_sessions.specs.declared.opening.SessionDatabase.{SessionDatabase};
ghost use Rattle.session_core.specs.SeenReading.{Fits, FitsSession, IsAsked, Reads, words_seen};

use cli_lines::{LastLines, number_after_last, read_last, read_next_line};
use cli_messages::{Reason, Stop, refused};
use cli_needs::{Command, needs_of};
use cli_sessions::{SessionDatabase, read_command};
use line_words::{LineFail, split_line};
use outside_core::{Source, Text};
use secret_core::Secret;
use std::alloc::Global;
use std::str;

/// What the words of a line say.
#[derive(Drop)]
enum LineWords {
    /// The session ends.
    Quits,
    /// The line is passed over.
    Passes,
    /// A command.
    Commands(Command),
}

/// What a line of a session asks for.
#[derive(Drop)]
pub enum LineRequest {
    /// That the session ends.
    Ends,
    /// Nothing.
    Nothing,
    /// A command, with the lines after it.
    Asks(Command, LastLines),
}

// Reports whether words are `quit` or `exit` alone.
fn is_quit(words: &[Text]) -> bool
    ensures { result ≡ spec.is_quit words.now }
{
    match words {
        [word] => word.as_str() == "quit" || word.as_str() == "exit",
        _ => false,
    }
}

// What these words of a line say.
fn read_words(alloc: Global, database: &SessionDatabase, words: &[Text]) -> Result<LineWords, Stop>
    ensures told { Returns words_seen result (words_said database.now words.now) }
    ensures fits { IfOk result (Fits database.now) }
    ensures cause { IfErr result IsPlainStop }
{
    if words.is_empty() {
        return Ok(LineWords::Passes);
    }
    if is_quit(words) {
        return Ok(LineWords::Quits);
    }
    match read_command(alloc, &database.access, &database.file, words) {
        Ok(command) => Ok(LineWords::Commands(command)),
        Err(stop) => Err(stop),
    }
}

// What a line of this text says.
fn read_text(alloc: Global, database: &SessionDatabase, line: &str) -> Result<LineWords, Stop>
    ensures told { Returns words_seen result (line_said database.now line.now) }
    ensures fits { IfOk result (Fits database.now) }
    ensures cause { IfErr result IsPlainStop }
{
    match split_line(alloc, line) {
        Ok(words) => {
            let said = read_words(alloc, database, words.as_slice());
            drop(words);
            said
        }
        Err(LineFail::Quote(_)) => Err(refused(alloc, Reason::WrongWords, "words")),
        Err(LineFail::NoMemory) => Err(Stop::NoMemory),
    }
}

// What a line says, which is UTF-8.
fn read_said(alloc: Global, database: &SessionDatabase, line: &Secret) -> Result<LineWords, Stop>
    requires { is_utf8 line.now.bytes ≡ true }
    ensures told { Returns words_seen result (line_said database.now line.now.bytes) }
    ensures fits { IfOk result (Fits database.now) }
    ensures cause { IfErr result IsPlainStop }
{
    match str::from_utf8(line.lend(0, line.len())) {
        Ok(text) => read_text(alloc, database, text),
        Err(_) => Err(Stop::NoMemory),
    }
}

// A command with the lines that it asks for, of which the first has this number. Afterwards that is
// the number of the line after them.
fn ask<S: Source>(
    alloc: Global,
    command: Command,
    number: &mut u64,
    input: &mut S,
) -> Result<LineRequest, Stop>
    ensures told { S.truthful input.new ≡ true → (i : List ℕ) → S.left input.old ≡ Some i
        → Reads result number.new (S.left input.new) (last_read command number.old i) }
    ensures asked { (database : SessionDatabase) → FitsSession database command
        → IfOk result (IsAsked database) }
    ensures truthful { StaysTruthful (S.truthful input.old) (S.truthful input.new) }
    ensures cause { IfErr result (IsStreamStop (S.faults input.old) (S.faults input.new)) }
    ensures faults { S.faults input.old ≤ S.faults input.new }
    ensures faultless { OnOk result (S.faults input.new ≡ S.faults input.old) }
{
    let needs = needs_of(&command);
    let Ok(next) = number_after_last(needs, *number) else {
        drop(command);
        return Err(Stop::NoMemory);
    };
    match read_last(alloc, input, needs, *number) {
        Ok(last) => {
            *number = next;
            Ok(LineRequest::Asks(command, last))
        }
        Err(stop) => {
            drop(command);
            Err(stop)
        }
    }
}

// What a line asks for that says this; the lines after it begin with this number.
fn request_of<S: Source>(
    alloc: Global,
    said: LineWords,
    number: &mut u64,
    input: &mut S,
) -> Result<LineRequest, Stop>
    ensures told { S.truthful input.new ≡ true → (i : List ℕ) → S.left input.old ≡ Some i
        → Reads result number.new (S.left input.new)
        (read_by_said (Ok (words_seen said)) number.old i) }
    ensures asked { (database : SessionDatabase) → Fits database said
        → IfOk result (IsAsked database) }
    ensures truthful { StaysTruthful (S.truthful input.old) (S.truthful input.new) }
    ensures cause { IfErr result (IsStreamStop (S.faults input.old) (S.faults input.new)) }
    ensures faults { S.faults input.old ≤ S.faults input.new }
    ensures faultless { OnOk result (S.faults input.new ≡ S.faults input.old) }
{
    match said {
        LineWords::Quits => Ok(LineRequest::Ends),
        LineWords::Passes => Ok(LineRequest::Nothing),
        LineWords::Commands(command) => ask(alloc, command, number, input),
    }
}

/// Reads the next line of a session, whose number is `number`, and the lines that its command asks
/// for; afterwards `number` is that of the line after them. It is refused where a line is too long
/// or not UTF-8, where the words are wrong, and where the input ends before a line that is due.
pub fn read_request<S: Source>(
    alloc: Global,
    database: &SessionDatabase,
    number: &mut u64,
    input: &mut S,
) -> Result<LineRequest, Stop>
    ensures told { S.truthful input.new ≡ true → (i : List ℕ) → S.left input.old ≡ Some i
        → Reads result number.new (S.left input.new) (line_read database.now number.old i) }
    ensures asked { IfOk result (IsAsked database.now) }
    ensures truthful { StaysTruthful (S.truthful input.old) (S.truthful input.new) }
    ensures cause { IfErr result (IsStreamStop (S.faults input.old) (S.faults input.new)) }
    ensures faults { S.faults input.old ≤ S.faults input.new }
    ensures faultless { OnOk result (S.faults input.new ≡ S.faults input.old) }
{
    let Some(line) = read_next_line(alloc, input, *number)? else {
        return Ok(LineRequest::Ends);
    };
    let Some(next) = number.checked_add(1) else {
        drop(line);
        return Err(Stop::NoMemory);
    };
    *number = next;
    let said = read_said(alloc, database, &line);
    drop(line);
    request_of(alloc, said?, number, input)
}
