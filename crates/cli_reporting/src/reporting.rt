//! Printing a text, and reporting a stop.
ghost use Rattle.std.specs.Prelude.{◌≡◌, ◌≤◌};
ghost use Rattle.outside_core.specs.Streams.{GainsPrefix};
ghost use Rattle.cli_messages.specs.Messages.{error_line, reason_text, status_of};
ghost use Rattle.cli_reporting.specs.Reporting.{IsPrinted, IsReported, IsUnwritten, ReportsLine};

use cli_messages::{Reason, Stop, line, status, text_of_reason};
use outside_core::{NoMemory, Sink, SinkFail, write_all};
use std::alloc::Global;

/// The status where the store failed.
const FILE_FAULT: u8 = 7;

/// The status where memory ran out.
const OUT_OF_MEMORY: u8 = 9;

/// The status where an output failed.
const OUTPUT_FAULT: u8 = 10;

/// The status where the input or the dice failed.
const INPUT_FAULT: u8 = 11;

// The status where a text or a line was not written.
fn unwritten(fail: SinkFail) -> u8
    ensures { IsUnwritten fail result }
{
    match fail {
        SinkFail::Failed => OUTPUT_FAULT,
        SinkFail::NoMemory => OUT_OF_MEMORY,
    }
}

// Tries to write a line on standard error.
fn try_line<E: Sink>(err: &mut E, line: &[u8])
    ensures written { GainsPrefix (E.written err.old) (E.written err.new) line.now }
    ensures faults { E.faults err.old ≤ E.faults err.new }
{
    match write_all(err, line) {
        Ok(()) => {}
        Err(_fail) => {}
    }
}

/// Prints a text, and gives the status that goes with it: 0, 9 where memory runs out, or 10 where
/// standard output fails, of which a line is then tried on standard error.
pub fn print<O: Sink, E: Sink>(out: &mut O, err: &mut E, text: &[u8]) -> u8
    ensures printed { IsPrinted text.now result (O.written out.old) (O.written out.new)
        (E.written err.old) (E.written err.new) (O.faults out.old) (O.faults out.new) }
    ensures faults { (O.faults out.old ≤ O.faults out.new)
        × (E.faults err.old ≤ E.faults err.new) }
    ensures faultless { result ≡ 0 → (O.faults out.new ≡ O.faults out.old)
        × (E.faults err.new ≡ E.faults err.old) }
{
    match write_all(out, text) {
        Ok(()) => 0,
        Err(SinkFail::NoMemory) => OUT_OF_MEMORY,
        Err(SinkFail::Failed) => {
            try_line(err, b"keepass: output: could not be written\n");
            OUTPUT_FAULT
        }
    }
}

// Writes the line of a subject, and gives the status that goes with it.
fn report_line<E: Sink>(alloc: Global, err: &mut E, own: u8, subject: &str, text: &str) -> u8
    ensures reported { ReportsLine own (error_line subject.now text.now) result (E.written err.old)
        (E.written err.new) (E.faults err.old) (E.faults err.new) }
    ensures faults { E.faults err.old ≤ E.faults err.new }
{
    match line(alloc, subject, text) {
        Ok(line) => match write_all(err, line.as_slice()) {
            Ok(()) => own,
            Err(fail) => unwritten(fail),
        },
        Err(NoMemory) => OUT_OF_MEMORY,
    }
}

// Writes the line of an answer about a subject, and gives the answer's status.
fn report_answer<E: Sink>(alloc: Global, err: &mut E, answer: &Reason, subject: &str) -> u8
    ensures reported { ReportsLine (status_of answer.now)
        (error_line subject.now (reason_text answer.now)) result (E.written err.old)
        (E.written err.new) (E.faults err.old) (E.faults err.new) }
    ensures faults { E.faults err.old ≤ E.faults err.new }
{
    match text_of_reason(alloc, answer) {
        Ok(text) => report_line(alloc, err, status(answer), subject, text.as_str()),
        Err(_none) => OUT_OF_MEMORY,
    }
}

/// Reports a stop in a line on standard error, and gives its status; or 9 where memory runs out, and
/// 10 where standard error fails.
pub fn report<E: Sink>(alloc: Global, err: &mut E, stop: Stop) -> u8
    ensures reported { IsReported stop result (E.written err.old) (E.written err.new)
        (E.faults err.old) (E.faults err.new) }
    ensures faults { E.faults err.old ≤ E.faults err.new }
{
    match stop {
        Stop::Refused(refusal) => {
            report_answer(alloc, err, &refusal.reason, refusal.subject.as_str())
        }
        Stop::FileFault(name) => report_line(alloc, err, FILE_FAULT, name.as_str(), "file fault"),
        Stop::InputFault => report_line(alloc, err, INPUT_FAULT, "input", "fault"),
        Stop::NoMemory => report_answer(alloc, err, &Reason::OutOfMemory, "words"),
    }
}
