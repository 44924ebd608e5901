//! What a call is to do, from its words, its input and its files.
ghost use Rattle.std.specs.Prelude.{◌≡◌, ◌≤◌, ℕ, List, Ok, Err, Some, IfErr, IfOk, IfSome, is_some, map, not, string_bytes, OnOk, true};
ghost use Rattle.outside_core.specs.Files.{FileMap};
ghost use Rattle.outside_core.specs.Reports.{StaysTruthful, reported};
ghost use Rattle.kdbx_frame.specs.Settings.{IsInOrder};
ghost use Rattle.cli_messages.specs.Phases.{IsEarlyStop, IsFileStop, IsWordsStop, Leaves, Returns, TellsStream};
ghost use Rattle.cli_messages.specs.declared.answers.Refusal.{Refusal};
ghost use Rattle.cli_resealing.specs.CliFiles.Tasks.{databases_in};
ghost use Rattle.cli_lines.specs.Lines.{AreTextLines, HasLines};
ghost use Rattle.cli_profiles.specs.Profiles.{IsProfile};
ghost use Rattle.cli_lines.specs.SeenLines.{lines_seen};
ghost use Rattle.cli_needs.specs.Needs.{HasKey, HasKeyAfter, HasKeys, files_named, generated_by, needs_of, target_access};
ghost use Rattle.cli_resealing.specs.CliFiles.SeenTask.{task_seen};
ghost use Rattle.cli_parse.specs.Words.{command_of};
ghost use Rattle.call_input.specs.Attaching.{SomeAttached};
ghost use Rattle.call_input.specs.Opening.{SomeCommandDatabases};
ghost use Rattle.call_input.specs.Reading.{HasSomeFile, asked_by, left_of, opened_task, task_of};

use crate::{attached_for, open_for};
use cli_lines::{Lines, read_lines};
use cli_messages::Stop;
use cli_needs::Command;
use cli_parse::read_words;
use cli_resealing::cli_databases::Databases;
use cli_resealing::cli_files::{Opened, Task};
use kdbx_frame::release_key;
use outside_core::{FileStore, Source};
use std::alloc::Global;

// Lets a database go, whose composite key is cleared and released.
fn let_go(opened: Opened) {
    let Opened {
        doc,
        sealing,
        passed_over,
    } = opened;
    drop(doc);
    drop(passed_over);
    release_key(sealing);
}

// The task of a command at a moment by the lines that it asked for: with its databases, and then the
// file that it puts into its database.
fn open_task<F: FileStore>(
    alloc: Global,
    files: &mut F,
    command: Command,
    lines: Lines,
    now: u64,
) -> Result<Task, Stop>
    requires keys { HasKeys (needs_of command) }
    requires target_key { HasKey (target_access command) }
    requires new_key { HasKeyAfter command }
    requires lines { HasLines (needs_of command) (lines_seen lines) }
    ensures told { (m : FileMap) → reported (F.truthful files.new) (F.files files.old) ≡ Some m
        → Returns task_seen result (opened_task command (lines_seen lines) now m) }
    ensures command { IfOk result (λ task. task.command ≡ command) }
    ensures lines { IfOk result (λ task. lines_seen task.lines ≡ lines_seen lines) }
    ensures holds { IfOk result (λ task. SomeCommandDatabases command (lines_seen lines) now
        (databases_in (task_seen task))) }
    ensures attaches { IfOk result (λ task. SomeAttached command (task_seen task).attached) }
    ensures in_order { IfOk result (λ task. IfSome task.opened.sealing (λ s.
        IsInOrder s.settings)) }
    ensures cause { IfErr result (IsFileStop (files_named (Ok command))
        (F.faults files.old) (F.faults files.new) (F.absences files.old) (F.absences files.new)) }
    ensures faults { F.faults files.old ≤ F.faults files.new }
    ensures files { F.files files.new ≡ F.files files.old }
    ensures draft_name { F.draft_name files.new ≡ F.draft_name files.old }
    ensures draft_bytes { F.draft_bytes files.new ≡ F.draft_bytes files.old }
    ensures truthful { StaysTruthful (F.truthful files.old) (F.truthful files.new) }
    ensures faultless { OnOk result (F.faults files.new ≡ F.faults files.old) }
{
    let Databases { target, sources } = match open_for(alloc, files, &command, &lines, now) {
        Ok(databases) => databases,
        Err(stop) => {
            drop(lines);
            drop(command);
            return Err(stop);
        }
    };
    match attached_for(alloc, files, &command) {
        Ok(attached) => Ok(Task {
            command,
            lines,
            opened: target,
            sources,
            attached,
        }),
        Err(stop) => {
            drop(command);
            drop(lines);
            drop(sources);
            let_go(target);
            Err(stop)
        }
    }
}

/// What the words ask for at a moment: their command, its lines, its databases, and the file that it
/// puts into its database. No file is changed.
pub fn read_task<F: FileStore, S: Source>(
    alloc: Global,
    words: &[String],
    files: &mut F,
    input: &mut S,
    now: u64,
) -> Result<Task, Stop>
    ensures told { S.truthful input.new ≡ true → (m : FileMap) (i : List ℕ)
        → reported (F.truthful files.new) (F.files files.old) ≡ Some m
        → TellsStream (asked_by (command_of (map string_bytes words.now))) (S.left input.old) i
        → Returns task_seen result (task_of (map string_bytes words.now) now i m) }
    ensures command { IfOk result (λ task. command_of (map string_bytes words.now)
        ≡ Ok task.command) }
    ensures some_file { IfOk result (λ task. HasSomeFile (map string_bytes words.now) now
        (task_seen task)) }
    ensures text { IfOk result (λ task. AreTextLines (lines_seen task.lines).more
        (lines_seen task.lines).otp (lines_seen task.lines).fields) }
    ensures profile { IfOk result (λ task. IfSome (generated_by task.command) IsProfile) }
    ensures in_order { IfOk result (λ task. IfSome task.opened.sealing (λ s.
        IsInOrder s.settings)) }
    ensures sealed { IfOk result (λ task. is_some task.opened.sealing
        ≡ not (target_access task.command).plain) }
    ensures left { S.truthful input.new ≡ true → (i : List ℕ)
        → TellsStream (asked_by (command_of (map string_bytes words.now))) (S.left input.old) i
        → Leaves result (S.left input.old) (S.left input.new)
        (left_of (map string_bytes words.now) i) }
    ensures unread { (refusal : Refusal) → command_of (map string_bytes words.now) ≡ Err refusal
        → S.left input.new ≡ S.left input.old }
    ensures unasked { (refusal : Refusal) → command_of (map string_bytes words.now) ≡ Err refusal
        → (F.truthful files.new ≡ F.truthful files.old)
        × (S.truthful input.new ≡ S.truthful input.old) }
    ensures wrong { (refusal : Refusal) → command_of (map string_bytes words.now) ≡ Err refusal
        → IfErr result IsWordsStop }
    ensures cause { IfErr result (IsEarlyStop
        (files_named (command_of (map string_bytes words.now))) (F.faults files.old)
        (F.faults files.new) (F.absences files.old) (F.absences files.new) (S.faults input.old)
        (S.faults input.new)) }
    ensures faults { F.faults files.old ≤ F.faults files.new }
    ensures files { F.files files.new ≡ F.files files.old }
    ensures draft_name { F.draft_name files.new ≡ F.draft_name files.old }
    ensures draft_bytes { F.draft_bytes files.new ≡ F.draft_bytes files.old }
    ensures files_truthful { StaysTruthful (F.truthful files.old) (F.truthful files.new) }
    ensures input_truthful { StaysTruthful (S.truthful input.old) (S.truthful input.new) }
    ensures faultless { OnOk result ((F.faults files.new ≡ F.faults files.old)
        × (S.faults input.new ≡ S.faults input.old)) }
{
    let command = read_words(alloc, words)?;
    let needs = cli_needs::needs_of(&command);
    let lines = match read_lines(alloc, input, needs) {
        Ok(lines) => lines,
        Err(stop) => {
            drop(command);
            return Err(stop);
        }
    };
    open_task(alloc, files, command, lines, now)
}
