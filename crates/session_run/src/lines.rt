//! The lines of a session, one after another.
ghost use Rattle.std.specs.Prelude.{◌≡◌, ◌≢◌, ◌≤◌, ◌⊎◌, ℕ, List, IfSome, None, Some, is_some, not, true};
ghost use Rattle.outside_core.specs.Counts.{Increased};
ghost use Rattle.outside_core.specs.Files.{FileMap};
ghost use Rattle.outside_core.specs.Reports.{StaysTruthful};
ghost use Rattle.outside_core.specs.Streams.{LosesPrefix};
ghost use Rattle.kdbx_frame.specs.Settings.{IsInOrder};
ghost use Rattle.session_core.specs.CliFiles.SeenOpened.{opened_seen};
ghost use Rattle.cli_writing.specs.Writing.{KeepsDraft, store};
ghost use Rattle.session_core.specs.CliCommands.SeenChange.{output_text};
ghost use Rattle.session_core.specs.ReadsBack.{LineReadsBack};
ghost use Rattle.session_core.specs.Running.{state_seen};
ghost use Rattle.session_core.specs.Sessions.{line_outcome};
ghost use Rattle.session_run.specs.Lines.{CausesLine, DoesLine, EndsAtLimit, FailsAtLimit, PrintsLine, ReportsStop};
ghost use Rattle.session_run.specs.Seen.{HasCauses, RunsSession, session_faults, session_seen};

use cli_lines::reaches_end;
use cli_messages::{Reason, Stop, refused};
use cli_reporting::{print, report};
use outside_core::{Dice, FileStore, Sink, Source};
use session_core::cli_commands::{Output, lend_text};
use session_core::{LineEnd, Session, run_line};
use std::alloc::Global;

/// The most command lines of a session.
const LINES: u32 = 65_536;

// Prints what a line gave. The session ends with the status that is given, if one is.
fn print_line<O: Sink, E: Sink>(out: &mut O, err: &mut E, output: Output) -> Option<u8>
    ensures told { PrintsLine (output_text output) result (O.written out.old) (O.written out.new)
        (E.written err.old) (E.written err.new) (O.faults out.old) (O.faults out.new) }
    ensures faults { (O.faults out.old ≤ O.faults out.new)
        × (E.faults err.old ≤ E.faults err.new) }
{
    match print(out, err, lend_text(&output)) {
        0 => None,
        status => Some(status),
    }
}

// Reports why a line stopped. The session ends with the status that is given, if one is.
fn report_stop<E: Sink>(alloc: Global, err: &mut E, stop: Stop) -> Option<u8>
    ensures told { ReportsStop stop result (E.written err.old) (E.written err.new)
        (E.faults err.old) (E.faults err.new) }
    ensures faults { E.faults err.old ≤ E.faults err.new }
{
    match report(alloc, err, stop) {
        0 | 1 | 2 => None,
        status => Some(status),
    }
}

// Carries out the next line of a session and prints what it gives. The session ends with the status
// that is given, if one is.
fn do_line<F: FileStore, S: Source, O: Sink, E: Sink, D: Dice>(
    alloc: Global,
    session: &mut Session,
    files: &mut F,
    input: &mut S,
    out: &mut O,
    err: &mut E,
    dice: &mut D,
    now: u64,
) -> Option<u8>
    requires in_order { IfSome session.old.opened.sealing (λ s. IsInOrder s.settings) }
    requires sealed { is_some session.old.opened.sealing ≡ not session.old.database.access.plain }
    ensures told { S.truthful input.new ≡ true → D.truthful dice.new ≡ true
        → (i d : List ℕ) → S.left input.old ≡ Some i → D.stream dice.old ≡ Some d
        → DoesLine session.old.database.file
        (session_faults (F.faults files.old) (S.faults input.old) (O.faults out.old)
        (E.faults err.old) (D.faults dice.old))
        (session_faults (F.faults files.new) (S.faults input.new) (O.faults out.new)
        (E.faults err.new) (D.faults dice.new))
        result (line_outcome now session.old.database (state_seen session.old i d)) session.new
        (session_seen (O.written out.old) (E.written err.old) (F.files files.old)
        (F.draft_name files.old) (F.draft_bytes files.old) (S.left input.old) (D.stream dice.old))
        (session_seen (O.written out.new) (E.written err.new) (F.files files.new)
        (F.draft_name files.new) (F.draft_bytes files.new) (S.left input.new)
        (D.stream dice.new)) }
    ensures reads_back { S.truthful input.new ≡ true → D.truthful dice.new ≡ true
        → (m : FileMap) (i d : List ℕ) → F.files files.old ≡ Some m → S.left input.old ≡ Some i
        → D.stream dice.old ≡ Some d → result ≡ None
        → LineReadsBack (opened_seen session.old.opened).sealing
        (line_outcome now session.old.database (state_seen session.old i d)) }
    ensures database { session.new.database ≡ session.old.database }
    ensures still_in_order { IfSome session.new.opened.sealing (λ s. IsInOrder s.settings) }
    ensures still_sealed { is_some session.new.opened.sealing
        ≡ is_some session.old.opened.sealing }
    ensures draft { KeepsDraft
        (store (F.files files.old) (F.draft_name files.old) (F.draft_bytes files.old))
        (store (F.files files.new) (F.draft_name files.new) (F.draft_bytes files.new)) }
    ensures stream { LosesPrefix (D.stream dice.old) (D.stream dice.new) }
    ensures files_truthful { StaysTruthful (F.truthful files.old) (F.truthful files.new) }
    ensures input_truthful { StaysTruthful (S.truthful input.old) (S.truthful input.new) }
    ensures dice_truthful { StaysTruthful (D.truthful dice.old) (D.truthful dice.new) }
    ensures causes { CausesLine result
        (session_faults (F.faults files.old) (S.faults input.old) (O.faults out.old)
        (E.faults err.old) (D.faults dice.old))
        (session_faults (F.faults files.new) (S.faults input.new) (O.faults out.new)
        (E.faults err.new) (D.faults dice.new)) }
{
    match run_line(alloc, session, files, input, dice, now) {
        Ok(LineEnd::Ends) => Some(0),
        Ok(LineEnd::Nothing) => None,
        Ok(LineEnd::Printed(output)) => print_line(out, err, output),
        Err(stop) => report_stop(alloc, err, stop),
    }
}

// Ends a session after the last command line that it may have: its input is at its end, or else the
// limit is passed.
fn end_at_limit<S: Source, E: Sink>(alloc: Global, input: &mut S, err: &mut E) -> u8
    ensures told { S.truthful input.new ≡ true → (i : List ℕ) → S.left input.old ≡ Some i
        → EndsAtLimit i result (S.left input.new) (E.written err.old) (E.written err.new)
        ⊎ FailsAtLimit i result (S.faults input.old) (S.faults input.new) (E.written err.old)
        (E.written err.new) (E.faults err.old) (E.faults err.new) }
    ensures truthful { StaysTruthful (S.truthful input.old) (S.truthful input.new) }
    ensures range { result ≤ 12 }
    ensures store { result ≢ 7 }
    ensures output { result ≡ 10 → Increased (E.faults err.old) (E.faults err.new) }
    ensures input { result ≡ 11 → Increased (S.faults input.old) (S.faults input.new) }
{
    match reaches_end(alloc, input) {
        Ok(true) => 0,
        Ok(false) => report(alloc, err, refused(alloc, Reason::LineLimit, "input")),
        Err(stop) => report(alloc, err, stop),
    }
}

/// Carries out the lines of a session, one after another, and prints what each gives. Gives the status
/// with which the session ends: 0 where a line or the end of the input ends it, and otherwise that of
/// the line that stopped it. A line that is refused with status 1 or 2 is reported, and the session
/// goes on. Afterwards the session is only to be closed.
pub fn run_session<F: FileStore, S: Source, O: Sink, E: Sink, D: Dice>(
    alloc: Global,
    session: &mut Session,
    files: &mut F,
    input: &mut S,
    out: &mut O,
    err: &mut E,
    dice: &mut D,
    now: u64,
) -> u8
    requires in_order { IfSome session.old.opened.sealing (λ s. IsInOrder s.settings) }
    requires sealed { is_some session.old.opened.sealing ≡ not session.old.database.access.plain }
    ensures told { S.truthful input.new ≡ true → D.truthful dice.new ≡ true
        → (i d : List ℕ) → S.left input.old ≡ Some i → D.stream dice.old ≡ Some d
        → RunsSession now session.old.database (state_seen session.old i d)
        (session_faults (F.faults files.old) (S.faults input.old) (O.faults out.old)
        (E.faults err.old) (D.faults dice.old))
        (session_faults (F.faults files.new) (S.faults input.new) (O.faults out.new)
        (E.faults err.new) (D.faults dice.new))
        result
        (session_seen (O.written out.old) (E.written err.old) (F.files files.old)
        (F.draft_name files.old) (F.draft_bytes files.old) (S.left input.old) (D.stream dice.old))
        (session_seen (O.written out.new) (E.written err.new) (F.files files.new)
        (F.draft_name files.new) (F.draft_bytes files.new) (S.left input.new)
        (D.stream dice.new)) }
    ensures draft { KeepsDraft
        (store (F.files files.old) (F.draft_name files.old) (F.draft_bytes files.old))
        (store (F.files files.new) (F.draft_name files.new) (F.draft_bytes files.new)) }
    ensures stream { LosesPrefix (D.stream dice.old) (D.stream dice.new) }
    ensures files_truthful { StaysTruthful (F.truthful files.old) (F.truthful files.new) }
    ensures input_truthful { StaysTruthful (S.truthful input.old) (S.truthful input.new) }
    ensures dice_truthful { StaysTruthful (D.truthful dice.old) (D.truthful dice.new) }
    ensures causes { HasCauses result
        (session_faults (F.faults files.old) (S.faults input.old) (O.faults out.old)
        (E.faults err.old) (D.faults dice.old))
        (session_faults (F.faults files.new) (S.faults input.new) (O.faults out.new)
        (E.faults err.new) (D.faults dice.new)) }
{
    'lines: for _ in 0..LINES {
        if let Some(status) = do_line(alloc, session, files, input, out, err, dice, now) {
            return status;
        }
    }
    end_at_limit(alloc, input, err)
}
