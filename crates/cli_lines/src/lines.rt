//! The lines that a call takes from its input.
ghost use Rattle.std.specs.Prelude.{◌≡◌, ◌≢◌, ◌≤◌, ◌<◌, ◌+◌, ◌||◌, [], ◌∷◌, ◌++◌, ℕ, List, length, map, IfErr, IfOk, IfSome, OnOk, is_some, Some, true};
ghost use Rattle.std.specs.List.{list_all};
ghost use Rattle.std.specs.Str.{is_utf8};
ghost use Rattle.outside_core.specs.Counts.{HasCause};
ghost use Rattle.outside_core.specs.Reports.{StaysTruthful};
ghost use Rattle.cli_lines.specs.Cutting.{ComesNext, Cuts, Ends, IsPushed, Puts, cut, weight};
ghost use Rattle.cli_lines.specs.Lines as spec;
ghost use Rattle.cli_lines.specs.Lines.{AreTextLines, HasLines, IsTextLine, after_more, after_otp, after_password, after_passwords, end_reached, field_lines, last_lines, line_from, line_if, line_of, lines_from, lines_of, next_line, number_of_more};
ghost use Rattle.cli_lines.specs.SeenLines.{found_seen, last_seen, line_seen, lines_seen, values_seen};
ghost use Rattle.cli_needs.specs.Needs as words;
ghost use Rattle.cli_needs.specs.Needs.{asks_line, asks_passwords_from};
ghost use Rattle.cli_needs.specs.SeenNeeds.{needs_seen};
ghost use Rattle.cli_messages.specs.Phases.{IsStreamStop, ReturnsAskedStream, ReturnsStream, TellsStream};

use cli_messages::{Reason, Stop, refused};
use cli_needs::{Needs, asks_password};
use outside_core::{List, NoMemory, Source, SourceFail, Text};
use secret_core::Secret;
use std::alloc::Global;
use std::str;

/// The most bytes of a line.
const LINE_LIMIT: usize = 4096;

// Secret memory of one byte, through which the bytes of a line go.
fn window(alloc: Global) -> Result<Secret, NoMemory>
    ensures { IfOk result (λ window. length window.bytes ≡ 1) }
{
    let mut window = Secret::with_room(alloc, 1)?;
    window.push(0);
    Ok(window)
}

// The next byte of the input, or none at its end.
fn next_byte<S: Source>(input: &mut S, window: &mut Secret) -> Result<Option<u8>, SourceFail>
    requires { length window.old.bytes ≡ 1 }
    ensures window { length window.new.bytes ≡ 1 }
    ensures told { S.truthful input.new ≡ true → (i : List ℕ) → S.left input.old ≡ Some i
        → ComesNext result i (S.left input.new) }
    ensures truthful { StaysTruthful (S.truthful input.old) (S.truthful input.new) }
    ensures cause { HasCause SourceFail.Failed (S.faults input.old) (S.faults input.new) result }
{
    let read = input.read(window.lend_mut())?;
    if read == 0 {
        Ok(None)
    } else {
        Ok(Some(window.lend(0, 1)[0]))
    }
}

// Puts a byte after a line, unless the line has room for no more.
fn push(line: &mut Secret, byte: u8) -> bool
    requires { length line.old.bytes + line.old.spare ≡ 4096 }
    ensures { IsPushed result byte line.old line.new }
{
    if line.spare() == 0 {
        return false;
    }
    line.push(byte);
    true
}

// Puts a byte, which is no line feed, after a line and a carriage return that waits. Gives whether
// a carriage return waits now; or none where the line is too long.
fn put(line: &mut Secret, returned: bool, byte: u8) -> Option<bool>
    requires room { length line.old.bytes + line.old.spare ≡ 4096 }
    requires no_end { byte ≢ 10 }
    ensures room { length line.new.bytes + line.new.spare ≡ 4096 }
    ensures puts { (rest : List ℕ) → Puts result line.new.bytes rest
        (cut line.old.bytes returned (byte ∷ rest)) }
    ensures lighter { IfSome result (λ now. weight line.new.spare now < weight line.old.spare
        returned) }
{
    if returned && !push(line, b'\r') {
        return None;
    }
    if byte == b'\r' {
        return Some(true);
    }
    if push(line, byte) { Some(false) } else { None }
}

// Ends a line where the input ends, and reports whether it is not too long.
fn end(line: &mut Secret, returned: bool) -> bool
    requires { length line.old.bytes + line.old.spare ≡ 4096 }
    ensures { Ends result line.new.bytes (cut line.old.bytes returned []) [] }
{
    !returned || push(line, b'\r')
}

// Reads the line that begins with a byte, and reports whether it is not too long.
fn read_from<S: Source>(
    input: &mut S,
    window: &mut Secret,
    first: u8,
    line: &mut Secret,
) -> Result<bool, SourceFail>
    requires window { length window.old.bytes ≡ 1 }
    requires bytes { line.old.bytes ≡ [] }
    requires spare { line.old.spare ≡ 4096 }
    ensures told { S.truthful input.new ≡ true → (i : List ℕ) → S.left input.old ≡ Some i
        → Cuts result line.new.bytes (S.left input.new) (line_from 0 (first ∷ i)) }
    ensures truthful { StaysTruthful (S.truthful input.old) (S.truthful input.new) }
    ensures cause { HasCause SourceFail.Failed (S.faults input.old) (S.faults input.new) result }
{
    let mut byte = first;
    let mut returned = false;
    while byte != b'\n' {
        match put(line, returned, byte) {
            Some(now) => returned = now,
            None => return Ok(false),
        }
        match next_byte(input, window)? {
            Some(next) => byte = next,
            None => return Ok(end(line, returned)),
        }
    }
    Ok(true)
}

// Reports whether bytes are UTF-8.
fn is_text(bytes: &[u8]) -> bool
    ensures { result ≡ is_utf8 bytes.now }
{
    match str::from_utf8(bytes) {
        Ok(_) => true,
        Err(_) => false,
    }
}

// Reports whether a line is UTF-8.
fn is_text_line(line: &Secret) -> bool
    ensures { result ≡ is_utf8 line.now.bytes }
{
    is_text(line.lend(0, line.len()))
}

// Reads the next line of the input, which has this number, into memory that is empty, and reports
// whether there is one: there is none at the end.
fn fill_line<S: Source>(
    alloc: Global,
    input: &mut S,
    number: u64,
    window: &mut Secret,
    line: &mut Secret,
) -> Result<bool, Stop>
    requires window { length window.old.bytes ≡ 1 }
    requires bytes { line.old.bytes ≡ [] }
    requires spare { line.old.spare ≡ 4096 }
    ensures told { S.truthful input.new ≡ true → (i : List ℕ) → S.left input.old ≡ Some i
        → ReturnsStream (λ found. found_seen found line.new) result (S.left input.new)
        (next_line number i) }
    ensures text { IfOk result (λ found. IsTextLine (found_seen found line.new)) }
    ensures truthful { StaysTruthful (S.truthful input.old) (S.truthful input.new) }
    ensures cause { IfErr result (IsStreamStop (S.faults input.old) (S.faults input.new)) }
    ensures faults { S.faults input.old ≤ S.faults input.new }
    ensures faultless { OnOk result (S.faults input.new ≡ S.faults input.old) }
{
    let first = match next_byte(input, window) {
        Ok(Some(first)) => first,
        Ok(None) => return Ok(false),
        Err(_) => return Err(Stop::InputFault),
    };
    match read_from(input, window, first, line) {
        Ok(false) => Err(refused(alloc, Reason::LineLimit, "input")),
        Ok(true) if is_text_line(line) => Ok(true),
        Ok(true) => Err(refused(alloc, Reason::LineForm(number), "input")),
        Err(_) => Err(Stop::InputFault),
    }
}

/// The next line of the input, which has this number, or none at its end. A line feed alone ends a
/// line that is empty.
pub fn read_next_line<S: Source>(
    alloc: Global,
    input: &mut S,
    number: u64,
) -> Result<Option<Secret>, Stop>
    ensures told { S.truthful input.new ≡ true → (i : List ℕ) → S.left input.old ≡ Some i
        → ReturnsStream line_seen result (S.left input.new) (next_line number i) }
    ensures text { IfOk result (λ line. IsTextLine (line_seen line)) }
    ensures truthful { StaysTruthful (S.truthful input.old) (S.truthful input.new) }
    ensures cause { IfErr result (IsStreamStop (S.faults input.old) (S.faults input.new)) }
    ensures faults { S.faults input.old ≤ S.faults input.new }
    ensures faultless { OnOk result (S.faults input.new ≡ S.faults input.old) }
{
    let Ok(mut window) = window(alloc) else {
        return Err(Stop::NoMemory);
    };
    let Ok(mut line) = Secret::with_room(alloc, LINE_LIMIT) else {
        drop(window);
        return Err(Stop::NoMemory);
    };
    let filled = fill_line(alloc, input, number, &mut window, &mut line);
    drop(window);
    match filled {
        Ok(true) => Ok(Some(line)),
        Ok(false) => {
            drop(line);
            Ok(None)
        }
        Err(stop) => {
            drop(line);
            Err(stop)
        }
    }
}

/// The line of this number, which is due: an input that is at its end is refused.
pub fn read_line<S: Source>(alloc: Global, input: &mut S, number: u64) -> Result<Secret, Stop>
    ensures told { S.truthful input.new ≡ true → (i : List ℕ) → S.left input.old ≡ Some i
        → ReturnsStream (λ line. line.bytes) result (S.left input.new) (line_of number i) }
    ensures text { IfOk result (λ line. is_utf8 line.bytes ≡ true) }
    ensures truthful { StaysTruthful (S.truthful input.old) (S.truthful input.new) }
    ensures cause { IfErr result (IsStreamStop (S.faults input.old) (S.faults input.new)) }
    ensures faults { S.faults input.old ≤ S.faults input.new }
    ensures faultless { OnOk result (S.faults input.new ≡ S.faults input.old) }
{
    match read_next_line(alloc, input, number) {
        Ok(Some(line)) => Ok(line),
        Ok(None) => Err(refused(alloc, Reason::InputEnded(number), "input")),
        Err(stop) => Err(stop),
    }
}

/// Reports whether the input is at its end. A byte that comes instead is taken from it.
pub fn reaches_end<S: Source>(alloc: Global, input: &mut S) -> Result<bool, Stop>
    ensures told { S.truthful input.new ≡ true → (i : List ℕ) → S.left input.old ≡ Some i
        → ReturnsStream (λ ended. ended) result (S.left input.new) (end_reached i) }
    ensures truthful { StaysTruthful (S.truthful input.old) (S.truthful input.new) }
    ensures cause { IfErr result (IsStreamStop (S.faults input.old) (S.faults input.new)) }
    ensures faults { S.faults input.old ≤ S.faults input.new }
    ensures faultless { OnOk result (S.faults input.new ≡ S.faults input.old) }
{
    let Ok(mut window) = window(alloc) else {
        return Err(Stop::NoMemory);
    };
    let next = next_byte(input, &mut window);
    drop(window);
    match next {
        Ok(byte) => Ok(byte.is_none()),
        Err(_) => Err(Stop::InputFault),
    }
}

// The line of this number, where one is due.
fn read_if<S: Source>(
    alloc: Global,
    input: &mut S,
    due: bool,
    number: u64,
) -> Result<Option<Secret>, Stop>
    ensures told { S.truthful input.new ≡ true → (i : List ℕ)
        → TellsStream due (S.left input.old) i
        → ReturnsAskedStream line_seen result (S.left input.old) (S.left input.new)
        (line_if due number i) }
    ensures given { IfOk result (λ line. is_some (line_seen line) ≡ due) }
    ensures text { IfOk result (λ line. IsTextLine (line_seen line)) }
    ensures truthful { StaysTruthful (S.truthful input.old) (S.truthful input.new) }
    ensures cause { IfErr result (IsStreamStop (S.faults input.old) (S.faults input.new)) }
    ensures faults { S.faults input.old ≤ S.faults input.new }
    ensures faultless { OnOk result (S.faults input.new ≡ S.faults input.old) }
{
    if !due {
        return Ok(None);
    }
    match read_line(alloc, input, number) {
        Ok(line) => Ok(Some(line)),
        Err(stop) => Err(stop),
    }
}

// The number of the line after so many, of which the first has this number; `NoMemory` where it does
// not fit. Memory never holds so many lines that the numbers end.
fn number_past(lines: u64, number: u64) -> Result<u64, NoMemory>
    ensures { IfOk result (λ next. next ≡ number + lines) }
{
    match number.checked_add(lines) {
        Some(next) => Ok(next),
        None => Err(NoMemory),
    }
}

// The number of the line after one of this number, which may be due.
fn number_after(due: bool, number: u64) -> Result<u64, NoMemory>
    ensures { IfOk result (λ next. next ≡ spec.number_after due number) }
{
    if due {
        number_past(1, number)
    } else {
        Ok(number)
    }
}

// Reads the lines of sources, one after another, each where it is due, and gives the number of the
// line after them.
fn read_sources<S: Source>(
    alloc: Global,
    input: &mut S,
    due: bool,
    names: &[Text],
    number: u64,
    lines: &mut List<Option<Secret>>,
) -> Result<u64, Stop>
    ensures next { IfOk result (λ next. next ≡ spec.number_after_all due names.now number) }
    ensures told { S.truthful input.new ≡ true → (i : List ℕ)
        → TellsStream due (S.left input.old) i
        → ReturnsAskedStream (λ next. map line_seen lines.new) result (S.left input.old)
        (S.left input.new) (lines_from due names.now number (map line_seen lines.old) i) }
    ensures given { OnOk result (map is_some (map line_seen lines.new)
        ≡ map is_some (map line_seen lines.old) ++ map (λ name. due) names.now) }
    ensures truthful { StaysTruthful (S.truthful input.old) (S.truthful input.new) }
    ensures cause { IfErr result (IsStreamStop (S.faults input.old) (S.faults input.new)) }
    ensures faults { S.faults input.old ≤ S.faults input.new }
    ensures faultless { OnOk result (S.faults input.new ≡ S.faults input.old) }
{
    let [_, names @ ..] = names else {
        return Ok(number);
    };
    let line = read_if(alloc, input, due, number)?;
    let Ok(next) = number_after(due, number) else {
        drop(line);
        return Err(Stop::NoMemory);
    };
    if let Err(line) = lines.push(line) {
        drop(line);
        return Err(Stop::NoMemory);
    }
    read_sources(alloc, input, due, names, next, lines)
}

/// The lines of a call, each where it is due.
#[derive(Drop)]
pub struct Lines {
    /// The password of the database.
    pub password: Option<Secret>,
    /// The passwords of its sources, one after another, each where the source has its own.
    pub sources: List<Option<Secret>>,
    /// The line that a command asks for after them.
    pub more: Option<Secret>,
    /// The text of a one-time code, which a command asks for after that.
    pub otp: Option<Secret>,
    /// The values of fields, which a command asks for after that.
    pub fields: List<Secret>,
}

/// The lines after all passwords, each where it is due.
#[derive(Drop)]
pub struct LastLines {
    /// The line that a command asks for.
    pub more: Option<Secret>,
    /// The text of a one-time code.
    pub otp: Option<Secret>,
    /// The values of fields.
    pub fields: List<Secret>,
}

// Reads the values of fields of these names, one line after another, of which the first has this
// number.
fn read_fields<S: Source>(
    alloc: Global,
    input: &mut S,
    names: &[Text],
    number: u64,
    lines: &mut List<Secret>,
) -> Result<(), Stop>
    ensures told { S.truthful input.new ≡ true → (i : List ℕ)
        → TellsStream (words.is_filled names.now) (S.left input.old) i
        → ReturnsAskedStream (λ _. values_seen lines.new) result (S.left input.old)
        (S.left input.new) (field_lines names.now number (values_seen lines.old) i) }
    ensures given { OnOk result (length (values_seen lines.new)
        ≡ length (values_seen lines.old) + length names.now) }
    ensures text { OnOk result (list_all is_utf8 (values_seen lines.new)
        ≡ list_all is_utf8 (values_seen lines.old)) }
    ensures truthful { StaysTruthful (S.truthful input.old) (S.truthful input.new) }
    ensures cause { IfErr result (IsStreamStop (S.faults input.old) (S.faults input.new)) }
    ensures faults { S.faults input.old ≤ S.faults input.new }
    ensures faultless { OnOk result (S.faults input.new ≡ S.faults input.old) }
{
    let [_, names @ ..] = names else {
        return Ok(());
    };
    let line = read_line(alloc, input, number)?;
    let Ok(next) = number_past(1, number) else {
        drop(line);
        return Err(Stop::NoMemory);
    };
    if let Err(line) = lines.push(line) {
        drop(line);
        return Err(Stop::NoMemory);
    }
    read_fields(alloc, input, names, next, lines)
}

// The passwords of the sources of a database, and the number of the line after them. The first of
// these lines has this number.
fn read_passwords<S: Source>(
    alloc: Global,
    input: &mut S,
    needs: Needs<'_>,
    number: u64,
    lines: &mut List<Option<Secret>>,
) -> Result<u64, Stop>
    ensures next { IfOk result (λ next. next
        ≡ spec.number_after_all (asks_passwords_from (needs_seen needs.entry))
        (needs_seen needs.entry).sources number) }
    ensures told { S.truthful input.new ≡ true → (i : List ℕ)
        → TellsStream (asks_passwords_from (needs_seen needs.entry)) (S.left input.old) i
        → ReturnsAskedStream (λ next. map line_seen lines.new) result (S.left input.old)
        (S.left input.new) (lines_from (asks_passwords_from (needs_seen needs.entry))
        (needs_seen needs.entry).sources number (map line_seen lines.old) i) }
    ensures given { OnOk result (map is_some (map line_seen lines.new)
        ≡ map is_some (map line_seen lines.old)
        ++ map (λ name. asks_passwords_from (needs_seen needs.entry))
        (needs_seen needs.entry).sources) }
    ensures truthful { StaysTruthful (S.truthful input.old) (S.truthful input.new) }
    ensures cause { IfErr result (IsStreamStop (S.faults input.old) (S.faults input.new)) }
    ensures faults { S.faults input.old ≤ S.faults input.new }
    ensures faultless { OnOk result (S.faults input.new ≡ S.faults input.old) }
{
    let due = cli_needs::asks_passwords_from(needs);
    read_sources(alloc, input, due, needs.sources, number, lines)
}

// The number of the line after the password of the database, if there is one.
fn number_from(asks: bool) -> u64
    ensures { result ≡ spec.number_after asks 1 }
{
    if asks { 2 } else { 1 }
}

// Reads the values of fields after these lines. The first of them has this number.
fn read_after_otp<S: Source>(
    alloc: Global,
    input: &mut S,
    needs: Needs<'_>,
    number: u64,
    more: Option<Secret>,
    otp: Option<Secret>,
) -> Result<LastLines, Stop>
    ensures told { S.truthful input.new ≡ true → (i : List ℕ)
        → TellsStream (words.is_filled needs.entry.fields.now) (S.left input.old) i
        → ReturnsAskedStream last_seen result (S.left input.old) (S.left input.new)
        (after_otp number (needs_seen needs.entry) (line_seen more) (line_seen otp) i) }
    ensures more { IfOk result (λ last. line_seen last.more ≡ line_seen more) }
    ensures otp { IfOk result (λ last. line_seen last.otp ≡ line_seen otp) }
    ensures fields { IfOk result (λ last. length (values_seen last.fields)
        ≡ length needs.entry.fields.now) }
    ensures text { IfOk result (λ last. list_all is_utf8 (values_seen last.fields) ≡ true) }
    ensures truthful { StaysTruthful (S.truthful input.old) (S.truthful input.new) }
    ensures cause { IfErr result (IsStreamStop (S.faults input.old) (S.faults input.new)) }
    ensures faults { S.faults input.old ≤ S.faults input.new }
    ensures faultless { OnOk result (S.faults input.new ≡ S.faults input.old) }
{
    let mut fields = List::new(alloc);
    match read_fields(alloc, input, needs.fields, number, &mut fields) {
        Ok(()) => Ok(LastLines { more, otp, fields }),
        Err(stop) => {
            drop(more);
            drop(otp);
            drop(fields);
            Err(stop)
        }
    }
}

// Reads the text of a one-time code after this line, where it is due, and the values of fields. The
// first of these lines has this number.
fn read_after_more<S: Source>(
    alloc: Global,
    input: &mut S,
    needs: Needs<'_>,
    number: u64,
    more: Option<Secret>,
) -> Result<LastLines, Stop>
    ensures told { S.truthful input.new ≡ true → (i : List ℕ)
        → TellsStream (needs.entry.has_otp || words.is_filled needs.entry.fields.now)
        (S.left input.old) i
        → ReturnsAskedStream last_seen result (S.left input.old) (S.left input.new)
        (after_more number (needs_seen needs.entry) (line_seen more) i) }
    ensures more { IfOk result (λ last. line_seen last.more ≡ line_seen more) }
    ensures otp { IfOk result (λ last. is_some (line_seen last.otp) ≡ needs.entry.has_otp) }
    ensures otp_text { IfOk result (λ last. IsTextLine (line_seen last.otp)) }
    ensures fields { IfOk result (λ last. length (values_seen last.fields)
        ≡ length needs.entry.fields.now) }
    ensures text { IfOk result (λ last. list_all is_utf8 (values_seen last.fields) ≡ true) }
    ensures truthful { StaysTruthful (S.truthful input.old) (S.truthful input.new) }
    ensures cause { IfErr result (IsStreamStop (S.faults input.old) (S.faults input.new)) }
    ensures faults { S.faults input.old ≤ S.faults input.new }
    ensures faultless { OnOk result (S.faults input.new ≡ S.faults input.old) }
{
    let otp = match read_if(alloc, input, needs.has_otp, number) {
        Ok(otp) => otp,
        Err(stop) => {
            drop(more);
            return Err(stop);
        }
    };
    let Ok(next) = number_after(needs.has_otp, number) else {
        drop(more);
        drop(otp);
        return Err(Stop::NoMemory);
    };
    read_after_otp(alloc, input, needs, next, more, otp)
}

/// The lines after all passwords, each where it is due, of which the first has this number.
pub fn read_last<S: Source>(
    alloc: Global,
    input: &mut S,
    needs: Needs<'_>,
    number: u64,
) -> Result<LastLines, Stop>
    ensures told { S.truthful input.new ≡ true → (i : List ℕ)
        → TellsStream (words.asks_more (needs_seen needs.entry)) (S.left input.old) i
        → ReturnsAskedStream last_seen result (S.left input.old) (S.left input.new)
        (last_lines number (needs_seen needs.entry) i) }
    ensures more { IfOk result (λ last. is_some (line_seen last.more) ≡ needs.entry.has_line) }
    ensures otp { IfOk result (λ last. is_some (line_seen last.otp) ≡ needs.entry.has_otp) }
    ensures fields { IfOk result (λ last. length (values_seen last.fields)
        ≡ length needs.entry.fields.now) }
    ensures text { IfOk result (λ last. AreTextLines (line_seen last.more) (line_seen last.otp)
        (values_seen last.fields)) }
    ensures truthful { StaysTruthful (S.truthful input.old) (S.truthful input.new) }
    ensures cause { IfErr result (IsStreamStop (S.faults input.old) (S.faults input.new)) }
    ensures faults { S.faults input.old ≤ S.faults input.new }
    ensures faultless { OnOk result (S.faults input.new ≡ S.faults input.old) }
{
    let more = read_if(alloc, input, needs.has_line, number)?;
    let Ok(next) = number_after(needs.has_line, number) else {
        drop(more);
        return Err(Stop::NoMemory);
    };
    read_after_more(alloc, input, needs, next, more)
}

/// The number of the line after those that `read_last` reads, of which the first has this number;
/// `NoMemory` where it does not fit.
pub fn number_after_last(needs: Needs<'_>, number: u64) -> Result<u64, NoMemory>
    ensures { IfOk result (λ next. next ≡ spec.number_after_last (needs_seen needs.entry) number) }
{
    let otp = number_after(needs.has_line, number)?;
    let fields = number_after(needs.has_otp, otp)?;
    number_past(needs.fields.len() as u64, fields)
}

// Reads the lines after all passwords: all lines are there then.
fn read_more<S: Source>(
    alloc: Global,
    input: &mut S,
    needs: Needs<'_>,
    number: u64,
    password: Option<Secret>,
    sources: List<Option<Secret>>,
) -> Result<Lines, Stop>
    requires number { number ≡ number_of_more (needs_seen needs) }
    requires password { is_some (line_seen password) ≡ words.asks_password needs.access.now }
    requires passwords { map is_some (map line_seen sources)
        ≡ map (λ name. asks_passwords_from (needs_seen needs)) needs.sources.now }
    ensures told { S.truthful input.new ≡ true → (i : List ℕ)
        → TellsStream (words.asks_more (needs_seen needs.entry)) (S.left input.old) i
        → ReturnsAskedStream lines_seen result (S.left input.old) (S.left input.new)
        (after_passwords (needs_seen needs.entry) (line_seen password) (map line_seen sources) i) }
    ensures given { IfOk result (λ lines. HasLines (needs_seen needs.entry) (lines_seen lines)) }
    ensures text { IfOk result (λ lines. AreTextLines (lines_seen lines).more
        (lines_seen lines).otp (lines_seen lines).fields) }
    ensures truthful { StaysTruthful (S.truthful input.old) (S.truthful input.new) }
    ensures cause { IfErr result (IsStreamStop (S.faults input.old) (S.faults input.new)) }
    ensures faults { S.faults input.old ≤ S.faults input.new }
    ensures faultless { OnOk result (S.faults input.new ≡ S.faults input.old) }
{
    match read_last(alloc, input, needs, number) {
        Ok(last) => Ok(Lines {
            password,
            sources,
            more: last.more,
            otp: last.otp,
            fields: last.fields,
        }),
        Err(stop) => {
            drop(password);
            drop(sources);
            Err(stop)
        }
    }
}

// Reads the lines after the password of the database, of which the first has this number.
fn read_after<S: Source>(
    alloc: Global,
    input: &mut S,
    needs: Needs<'_>,
    number: u64,
    password: Option<Secret>,
) -> Result<Lines, Stop>
    requires number { number ≡ spec.number_from (needs_seen needs) }
    requires password { is_some (line_seen password) ≡ words.asks_password needs.access.now }
    ensures told { S.truthful input.new ≡ true → (i : List ℕ)
        → TellsStream (asks_passwords_from (needs_seen needs.entry)
        || (words.asks_more (needs_seen needs.entry))) (S.left input.old) i
        → ReturnsAskedStream lines_seen result (S.left input.old) (S.left input.new)
        (after_password (needs_seen needs.entry) (line_seen password) i) }
    ensures given { IfOk result (λ lines. HasLines (needs_seen needs.entry) (lines_seen lines)) }
    ensures text { IfOk result (λ lines. AreTextLines (lines_seen lines).more
        (lines_seen lines).otp (lines_seen lines).fields) }
    ensures truthful { StaysTruthful (S.truthful input.old) (S.truthful input.new) }
    ensures cause { IfErr result (IsStreamStop (S.faults input.old) (S.faults input.new)) }
    ensures faults { S.faults input.old ≤ S.faults input.new }
    ensures faultless { OnOk result (S.faults input.new ≡ S.faults input.old) }
{
    let mut sources = List::new(alloc);
    match read_passwords(alloc, input, needs, number, &mut sources) {
        Ok(next) => read_more(alloc, input, needs, next, password, sources),
        Err(stop) => {
            drop(password);
            drop(sources);
            Err(stop)
        }
    }
}

/// The lines that a command asks for, one after another.
pub fn read_lines<S: Source>(alloc: Global, input: &mut S, needs: Needs<'_>) -> Result<Lines, Stop>
    ensures told { S.truthful input.new ≡ true → (i : List ℕ)
        → TellsStream (asks_line (needs_seen needs.entry))
        (S.left input.old) i → ReturnsAskedStream lines_seen result (S.left input.old)
        (S.left input.new) (lines_of (needs_seen needs.entry) i) }
    ensures given { IfOk result (λ lines. HasLines (needs_seen needs.entry) (lines_seen lines)) }
    ensures text { IfOk result (λ lines. AreTextLines (lines_seen lines).more
        (lines_seen lines).otp (lines_seen lines).fields) }
    ensures truthful { StaysTruthful (S.truthful input.old) (S.truthful input.new) }
    ensures cause { IfErr result (IsStreamStop (S.faults input.old) (S.faults input.new)) }
    ensures faults { S.faults input.old ≤ S.faults input.new }
    ensures faultless { OnOk result (S.faults input.new ≡ S.faults input.old) }
{
    let asks = asks_password(needs.access);
    match read_if(alloc, input, asks, 1) {
        Ok(password) => read_after(alloc, input, needs, number_from(asks), password),
        Err(stop) => Err(stop),
    }
}
