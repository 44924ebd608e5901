//! The one call of the program: from its words, and the objects of the outside, to its status.
ghost use Rattle.std.specs.Prelude.{◌≡◌, ℕ, List, None, Some, Err, IfErr, IfOk, OnErr, false, map, string_bytes, OnOk, true};
ghost use Rattle.outside_core.specs.Streams.{LosesPrefix};
ghost use Rattle.cli_messages.specs.Phases.{IsCaused, IsWordsStop, Leaves, TellsStream};
ghost use Rattle.cli_messages.specs.declared.answers.Refusal.{Refusal};
ghost use Rattle.cli_needs.specs.Needs.{files_named};
ghost use Rattle.cli_writing.specs.Writing.{IsSame, KeepsDraft, KeepsFiles, store};
ghost use Rattle.keepass_call.specs.Call.{IsCall};
ghost use Rattle.session_run.specs.CallRun.Endings.{Ends};
ghost use Rattle.keepass_call.specs.Outcome.{AreTruthful, IsOfSomeFile, IsOfTask, World, command_answer, counts, draws_words, may_store_by, seen, standalone_or_command, truth};
ghost use Rattle.session_run.specs.CliCommands.SeenChange.{output_text};
ghost use Rattle.cli_parse.specs.Words.{command_of};
ghost use Rattle.cli_standalone.specs.Standalone.{standalone_of};
ghost use Rattle.cli_files.specs.Tasks.{draws_by};
ghost use Rattle.call_input.specs.Reading.{asked_by, left_of};
ghost use Rattle.cli_reporting.specs.Reporting.{IsPrinted};
ghost use Rattle.cli_sessions.specs.Openings.{opening_of};
ghost use Rattle.cli_sessions.specs.declared.opening.SessionDatabase.{SessionDatabase};
ghost use Rattle.keepass_call.specs.SessionCalls.{IsSession};

use crate::session::answer_session;
use crate::standalone::answer_alone;
use call_input::read_task;
use cli_messages::Stop;
use cli_pages::page_of;
use cli_reporting::{print, report};
use cli_sessions::read_opening;
use cli_standalone::read_standalone;
use outside_core::{Bytes, Dice, FileStore, Sink, Source};
use session_run::call_run::carry_out;
use session_run::cli_commands::{Output, lend_text};
use std::alloc::Global;

/// The status of a call for which memory ran out.
const OUT_OF_MEMORY: u8 = 9;

// The phases of a call whose words are to be a command, one after another.
fn answer<F: FileStore, S: Source, D: Dice>(
    alloc: Global,
    words: &[String],
    files: &mut F,
    input: &mut S,
    dice: &mut D,
    now: u64,
) -> Result<Output, Stop>
    ensures told { AreTruthful (truth (F.truthful files.new)
        (S.truthful input.new) (D.truthful dice.new))
        → (world : World) → F.files files.old ≡ Some world.files
        → TellsStream (asked_by (command_of (map string_bytes words.now))) (S.left input.old)
        world.input
        → TellsStream (draws_by (command_of (map string_bytes words.now)))
        (D.stream dice.old) world.dice
        → Ends result (command_answer (map string_bytes words.now) now world)
        (store (F.files files.old) (F.draft_name files.old) (F.draft_bytes files.old))
        (store (F.files files.new) (F.draft_name files.new) (F.draft_bytes files.new))
        (D.stream dice.old) (D.stream dice.new) }
    ensures held { AreTruthful (truth (F.truthful files.new)
        (S.truthful input.new) (D.truthful dice.new))
        → (world : World) → F.files files.old ≡ Some world.files
        → TellsStream (asked_by (command_of (map string_bytes words.now))) (S.left input.old)
        world.input
        → TellsStream (draws_by (command_of (map string_bytes words.now)))
        (D.stream dice.old) world.dice
        → IfOk result (λ output. IsOfTask (map string_bytes words.now) now world
        (output_text output)
        (store (F.files files.old) (F.draft_name files.old) (F.draft_bytes files.old))
        (store (F.files files.new) (F.draft_name files.new) (F.draft_bytes files.new))) }
    ensures some_file { IfOk result (λ output. IsOfSomeFile (map string_bytes words.now) now
        (output_text output)
        (store (F.files files.old) (F.draft_name files.old) (F.draft_bytes files.old))
        (store (F.files files.new) (F.draft_name files.new) (F.draft_bytes files.new))) }
    ensures left { S.truthful input.new ≡ true → (i : List ℕ)
        → TellsStream (asked_by (command_of (map string_bytes words.now))) (S.left input.old) i
        → Leaves result (S.left input.old) (S.left input.new)
        (left_of (map string_bytes words.now) i) }
    ensures unread { (refusal : Refusal) → command_of (map string_bytes words.now) ≡ Err refusal
        → S.left input.new ≡ S.left input.old }
    ensures unasked { (refusal : Refusal) → command_of (map string_bytes words.now) ≡ Err refusal
        → truth (F.truthful files.new) (S.truthful input.new) (D.truthful dice.new)
        ≡ truth (F.truthful files.old) (S.truthful input.old) (D.truthful dice.old) }
    ensures wrong { (refusal : Refusal) → command_of (map string_bytes words.now) ≡ Err refusal
        → IfErr result IsWordsStop }
    ensures kept { OnErr result (KeepsFiles
        (store (F.files files.old) (F.draft_name files.old) (F.draft_bytes files.old))
        (store (F.files files.new) (F.draft_name files.new) (F.draft_bytes files.new))) }
    ensures draft { KeepsDraft
        (store (F.files files.old) (F.draft_name files.old) (F.draft_bytes files.old))
        (store (F.files files.new) (F.draft_name files.new) (F.draft_bytes files.new)) }
    ensures unwritten { may_store_by (command_of (map string_bytes words.now)) ≡ false → IsSame
        (store (F.files files.old) (F.draft_name files.old) (F.draft_bytes files.old))
        (store (F.files files.new) (F.draft_name files.new) (F.draft_bytes files.new)) }
    ensures undrawn { draws_by (command_of (map string_bytes words.now)) ≡ false
        → D.stream dice.new ≡ D.stream dice.old }
    ensures stream { LosesPrefix (D.stream dice.old) (D.stream dice.new) }
    ensures cause { IfErr result (IsCaused
        (files_named (command_of (map string_bytes words.now))) (F.faults files.old)
        (F.faults files.new) (F.absences files.old) (F.absences files.new) (S.faults input.old)
        (S.faults input.new) (D.faults dice.old) (D.faults dice.new)) }
    ensures faultless { OnOk result ((F.faults files.new ≡ F.faults files.old)
        × (S.faults input.new ≡ S.faults input.old) × (D.faults dice.new ≡ D.faults dice.old)) }
{
    let task = read_task(alloc, words, files, input, now)?;
    carry_out(alloc, files, dice, task, now)
}

// What words give that ask for no page: what they give as a command, with a database or without one.
fn answer_words<F: FileStore, S: Source, D: Dice>(
    alloc: Global,
    words: &[String],
    files: &mut F,
    input: &mut S,
    dice: &mut D,
    now: u64,
) -> Result<Output, Stop>
    ensures told { AreTruthful (truth (F.truthful files.new)
        (S.truthful input.new) (D.truthful dice.new))
        → (world : World) → F.files files.old ≡ Some world.files
        → TellsStream (asked_by (command_of (map string_bytes words.now))) (S.left input.old)
        world.input
        → TellsStream (draws_words (map string_bytes words.now)) (D.stream dice.old) world.dice
        → Ends result (standalone_or_command (standalone_of (map string_bytes words.now))
        (map string_bytes words.now) now world)
        (store (F.files files.old) (F.draft_name files.old) (F.draft_bytes files.old))
        (store (F.files files.new) (F.draft_name files.new) (F.draft_bytes files.new))
        (D.stream dice.old) (D.stream dice.new) }
    ensures held { standalone_of (map string_bytes words.now) ≡ None
        → AreTruthful (truth (F.truthful files.new) (S.truthful input.new) (D.truthful dice.new))
        → (world : World) → F.files files.old ≡ Some world.files
        → TellsStream (asked_by (command_of (map string_bytes words.now))) (S.left input.old)
        world.input
        → TellsStream (draws_words (map string_bytes words.now)) (D.stream dice.old) world.dice
        → IfOk result (λ output. IsOfTask (map string_bytes words.now) now world
        (output_text output)
        (store (F.files files.old) (F.draft_name files.old) (F.draft_bytes files.old))
        (store (F.files files.new) (F.draft_name files.new) (F.draft_bytes files.new))) }
    ensures some_file { standalone_of (map string_bytes words.now) ≡ None
        → IfOk result (λ output. IsOfSomeFile (map string_bytes words.now) now
        (output_text output)
        (store (F.files files.old) (F.draft_name files.old) (F.draft_bytes files.old))
        (store (F.files files.new) (F.draft_name files.new) (F.draft_bytes files.new))) }
    ensures left { S.truthful input.new ≡ true → (i : List ℕ)
        → TellsStream (asked_by (command_of (map string_bytes words.now))) (S.left input.old) i
        → Leaves result (S.left input.old) (S.left input.new)
        (left_of (map string_bytes words.now) i) }
    ensures unread { (refusal : Refusal) → command_of (map string_bytes words.now) ≡ Err refusal
        → S.left input.new ≡ S.left input.old }
    ensures unasked { (refusal : Refusal) → command_of (map string_bytes words.now) ≡ Err refusal
        → standalone_of (map string_bytes words.now) ≡ None
        → truth (F.truthful files.new) (S.truthful input.new) (D.truthful dice.new)
        ≡ truth (F.truthful files.old) (S.truthful input.old) (D.truthful dice.old) }
    ensures wrong { (refusal : Refusal) → command_of (map string_bytes words.now) ≡ Err refusal
        → standalone_of (map string_bytes words.now) ≡ None → IfErr result IsWordsStop }
    ensures kept { OnErr result (KeepsFiles
        (store (F.files files.old) (F.draft_name files.old) (F.draft_bytes files.old))
        (store (F.files files.new) (F.draft_name files.new) (F.draft_bytes files.new))) }
    ensures draft { KeepsDraft
        (store (F.files files.old) (F.draft_name files.old) (F.draft_bytes files.old))
        (store (F.files files.new) (F.draft_name files.new) (F.draft_bytes files.new)) }
    ensures unwritten { may_store_by (command_of (map string_bytes words.now)) ≡ false → IsSame
        (store (F.files files.old) (F.draft_name files.old) (F.draft_bytes files.old))
        (store (F.files files.new) (F.draft_name files.new) (F.draft_bytes files.new)) }
    ensures undrawn { draws_words (map string_bytes words.now) ≡ false
        → D.stream dice.new ≡ D.stream dice.old }
    ensures stream { LosesPrefix (D.stream dice.old) (D.stream dice.new) }
    ensures cause { IfErr result (IsCaused
        (files_named (command_of (map string_bytes words.now))) (F.faults files.old)
        (F.faults files.new) (F.absences files.old) (F.absences files.new) (S.faults input.old)
        (S.faults input.new) (D.faults dice.old) (D.faults dice.new)) }
    ensures faultless { OnOk result ((F.faults files.new ≡ F.faults files.old)
        × (S.faults input.new ≡ S.faults input.old) × (D.faults dice.new ≡ D.faults dice.old)) }
{
    match read_standalone(alloc, words) {
        Ok(Some(standalone)) => answer_alone(alloc, dice, standalone),
        Ok(None) => answer(alloc, words, files, input, dice, now),
        Err(_none) => Err(Stop::NoMemory),
    }
}

// Writes a page, and gives the status that goes with it.
fn print_page<O: Sink, E: Sink>(out: &mut O, err: &mut E, page: Bytes) -> u8
    ensures printed { IsPrinted page result (O.written out.old) (O.written out.new)
        (E.written err.old) (E.written err.new) (O.faults out.old) (O.faults out.new) }
    ensures faultless { result ≡ 0 → (O.faults out.new ≡ O.faults out.old)
        × (E.faults err.new ≡ E.faults err.old) }
{
    let status = print(out, err, page.as_slice());
    drop(page);
    status
}

/// One call of the program, whose words are those after its name; `now` is in seconds since the
/// year 1. Gives the program's status.
///
/// For each world (files, input and dice) that the outside reports before the call and answered like
/// until its end: where no object of the outside fails and memory does not run out, all that is seen
/// of the call is as the outcome of its words and the moment over this world says, and there is one
/// outcome. What is printed or written at status 0 is made of documents that the files hold: each by
/// itself, or sealed under the composite key of its line of input and its key file. What was printed
/// where an object fails is a prefix of the outcome's text. Standard error gains a prefix of one line
/// at most: the outcome's, or that of what failed. Words that can be carried out give status 0 where
/// nothing fails. Copies of one database that are parts of an agreed set are merged into the join of
/// all of them, and what the target has already changes nothing.
///
/// Whatever the outside reports and answered: a refusal changes no file; words that ask for a page
/// print it, and touch nothing else; a command that needs no database touches no file and no input;
/// and words that are no command that may write change no file.
///
/// Words that open a session are carried out line by line: for each world all that is seen is as the
/// outcome of the session's lines says, or, where something failed, as some of its first lines leave it.
pub fn keepass<F: FileStore, S: Source, O: Sink, E: Sink, D: Dice>(
    alloc: Global,
    words: &[String],
    files: &mut F,
    input: &mut S,
    out: &mut O,
    err: &mut E,
    dice: &mut D,
    now: u64,
) -> u8
    ensures call { opening_of (map string_bytes words.now) ≡ None
        → IsCall (map string_bytes words.now) now result
        (seen (O.written out.old) (E.written err.old) (F.files files.old) (F.draft_name files.old)
        (F.draft_bytes files.old) (S.left input.old) (D.stream dice.old)
        (truth (F.truthful files.old) (S.truthful input.old) (D.truthful dice.old)))
        (seen (O.written out.new) (E.written err.new) (F.files files.new) (F.draft_name files.new)
        (F.draft_bytes files.new) (S.left input.new) (D.stream dice.new)
        (truth (F.truthful files.new) (S.truthful input.new) (D.truthful dice.new)))
        (counts (F.faults files.old) (F.absences files.old) (S.faults input.old) (O.faults out.old)
        (E.faults err.old) (D.faults dice.old))
        (counts (F.faults files.new) (F.absences files.new) (S.faults input.new) (O.faults out.new)
        (E.faults err.new) (D.faults dice.new)) }
    ensures session { (database : SessionDatabase)
        → opening_of (map string_bytes words.now) ≡ Some database
        → IsSession database now result
        (seen (O.written out.old) (E.written err.old) (F.files files.old) (F.draft_name files.old)
        (F.draft_bytes files.old) (S.left input.old) (D.stream dice.old)
        (truth (F.truthful files.old) (S.truthful input.old) (D.truthful dice.old)))
        (seen (O.written out.new) (E.written err.new) (F.files files.new) (F.draft_name files.new)
        (F.draft_bytes files.new) (S.left input.new) (D.stream dice.new)
        (truth (F.truthful files.new) (S.truthful input.new) (D.truthful dice.new)))
        (counts (F.faults files.old) (F.absences files.old) (S.faults input.old) (O.faults out.old)
        (E.faults err.old) (D.faults dice.old))
        (counts (F.faults files.new) (F.absences files.new) (S.faults input.new) (O.faults out.new)
        (E.faults err.new) (D.faults dice.new)) }
{
    match page_of(alloc, words) {
        Ok(Some(page)) => print_page(out, err, page),
        Ok(None) => match read_opening(alloc, words) {
            Ok(Some(database)) => {
                answer_session(alloc, database, files, input, out, err, dice, now)
            }
            Ok(None) => match answer_words(alloc, words, files, input, dice, now) {
                Ok(output) => print(out, err, lend_text(&output)),
                Err(stop) => report(alloc, err, stop),
            },
            Err(_none) => OUT_OF_MEMORY,
        },
        Err(_none) => OUT_OF_MEMORY,
    }
}
