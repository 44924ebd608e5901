//! Carrying a task out: what its command makes of its database, and the file that is written.
ghost use Rattle.std.specs.Prelude.{◌≡◌, ◌≤◌, ℕ, List, IfErr, IfOk, IfSome, None, OnErr, OnOk, ◌&&◌, false, is_some, not, option_map, true};
ghost use Rattle.outside_core.specs.Reports.{StaysTruthful};
ghost use Rattle.outside_core.specs.Streams.{LosesPrefix};
ghost use Rattle.secret_core.specs.Secret.{AllZero};
ghost use Rattle.vault_model.specs.SeenDoc.{doc_seen};
ghost use Rattle.kdbx_frame.specs.Settings.{IsInOrder};
ghost use Rattle.call_run.specs.Endings.{IsUnrefused};
ghost use Rattle.cli_messages.specs.Phases.{IsCommandStop, TellsStream};
ghost use Rattle.cli_lines.specs.Lines.{AreTextLines};
ghost use Rattle.cli_profiles.specs.Profiles.{IsProfile};
ghost use Rattle.cli_lines.specs.SeenLines.{lines_seen};
ghost use Rattle.cli_needs.specs.Needs.{file_written, generated_by, target_access, target_of};
ghost use Rattle.cli_commands.specs.CliWriting.Held.{IsWritten};
ghost use Rattle.cli_commands.specs.CliWriting.Writing.{IsSame, IsSizeStop, IsWriteStop, KeepsDraft, KeepsFiles, store};
ghost use Rattle.cli_commands.specs.Commands.{may_store, may_write, only_reads};
ghost use Rattle.call_run.specs.Endings.{Ends, EndsWith, HoldsNew, IsOfDice, IsOfSomeDice, IsRecoverable, LeavesDatabase, ReadsBack, Stores, WritesNew, attachment_file, carried_out, change_of_task, ended_with, new_file, opened_after, resealed, settings_in, targets_of};
ghost use Rattle.call_run.specs.SeenRequest.{task_by};
ghost use Rattle.cli_commands.specs.SeenChange.{change_seen, lent_settings, output_text};
ghost use Rattle.cli_files.specs.SeenOpened.{opened_seen};
ghost use Rattle.cli_files.specs.SeenTask.{task_seen};
ghost use Rattle.cli_files.specs.Tasks.{draws};

use cli_commands::cli_writing::{write_bytes, write_plain};
use cli_commands::{Change, CommandInput, Output, may_write, perform};
use cli_files::{Opened, Task, bytes_in};
use cli_lines::Lines;
use cli_messages::Stop;
use cli_needs::{Command, exported_to};
use cli_sealing::write_sealed;
use kdbx_frame::{Sealing, Settings, release_key};
use outside_core::{Dice, FileStore, List, Text};
use secret_core::Secret;
use std::alloc::Global;
use std::rc::Rc;
use vault_model::Doc;

/// What a command is carried out with beside its database.
#[derive(Drop)]
pub struct Request {
    /// The command.
    pub command: Command,
    /// The lines that it asked for.
    pub lines: Lines,
    /// The documents of its sources.
    pub sources: List<Doc>,
    /// The bytes of the file that is put into the database, where there is one.
    pub attached: Option<Rc<Secret>>,
}

// The file of the database that a command shows or writes.
fn database_of(command: &Command) -> &str
    ensures { result.now ≡ target_of command.now }
{
    cli_needs::target_of(command).as_str()
}

// Clears the composite key of a database at once that is not written again. Its settings stay.
fn clear_unless(may_write: bool, sealing: &mut Option<Sealing>)
    ensures settings { settings_in sealing.new ≡ settings_in sealing.old }
    ensures whole { may_write ≡ true → sealing.new ≡ sealing.old }
    ensures cleared { may_write ≡ false → IfSome sealing.new (λ s. AllZero s.composite) }
{
    if may_write {
        return;
    }
    if let Some(sealing) = sealing {
        sealing.composite.clear();
    }
}

// The settings of a database's file.
fn settings_of(sealing: &Option<Sealing>) -> Option<&Settings>
    ensures { lent_settings result ≡ settings_in sealing.now }
{
    match sealing {
        Some(sealing) => Some(&sealing.settings),
        None => None,
    }
}

/// Lets a database go that was opened: its composite key, if it has one, is cleared and released.
pub fn close(opened: Opened) {
    let Opened {
        doc,
        sealing,
        passed_over,
    } = opened;
    drop(doc);
    drop(passed_over);
    release_key(sealing);
}

// Writes a document into the file of this name: by itself, or sealed as its database was.
fn write_anew<F: FileStore, D: Dice>(
    alloc: Global,
    files: &mut F,
    dice: &mut D,
    name: &str,
    doc: &Doc,
    sealing: &mut Option<Sealing>,
) -> Result<(), Stop>
    requires { IfSome sealing.old (λ s. IsInOrder s.settings) }
    ensures told { D.truthful dice.new ≡ true
        → (d : List ℕ) → TellsStream (is_some sealing.old) (D.stream dice.old) d
        → WritesNew result (new_file name.now sealing.old (doc_seen doc.now) d)
        (store (F.files files.old) (F.draft_name files.old) (F.draft_bytes files.old))
        (store (F.files files.new) (F.draft_name files.new) (F.draft_bytes files.new))
        (D.stream dice.old) (D.stream dice.new) }
    ensures held { OnOk result (IsWritten (HoldsNew sealing.old (doc_seen doc.now)) name.now
        (store (F.files files.old) (F.draft_name files.old) (F.draft_bytes files.old))
        (store (F.files files.new) (F.draft_name files.new) (F.draft_bytes files.new))) }
    ensures kept { OnErr result (KeepsFiles
        (store (F.files files.old) (F.draft_name files.old) (F.draft_bytes files.old))
        (store (F.files files.new) (F.draft_name files.new) (F.draft_bytes files.new))) }
    ensures draft { KeepsDraft
        (store (F.files files.old) (F.draft_name files.old) (F.draft_bytes files.old))
        (store (F.files files.new) (F.draft_name files.new) (F.draft_bytes files.new)) }
    ensures files_truthful { StaysTruthful (F.truthful files.old) (F.truthful files.new) }
    ensures undrawn { is_some sealing.old ≡ false → D.stream dice.new ≡ D.stream dice.old }
    ensures stream { LosesPrefix (D.stream dice.old) (D.stream dice.new) }
    ensures dice_truthful { StaysTruthful (D.truthful dice.old) (D.truthful dice.new) }
    ensures cause { IfErr result (IsCommandStop name.now (F.faults files.old) (F.faults files.new)
        (D.faults dice.old) (D.faults dice.new)) }
    ensures faultless { OnOk result ((F.faults files.new ≡ F.faults files.old)
        × (D.faults dice.new ≡ D.faults dice.old)) }
    ensures sealing { sealing.new ≡ option_map (resealed (doc_seen doc.now)) sealing.old }
    ensures size { IfErr result IsSizeStop }
{
    match sealing {
        None => write_plain(alloc, files, name, doc),
        Some(sealing) => write_sealed(alloc, files, dice, name, doc, sealing),
    }
}

// Writes the bytes of an attachment into a new file, if there are some and it is named.
fn write_attachment<F: FileStore>(
    alloc: Global,
    files: &mut F,
    to: Option<&Text>,
    bytes: &Option<Rc<Secret>>,
) -> Result<(), Stop>
    ensures stored { OnOk result (Stores (attachment_file (option_map (λ to. to.now) to.entry)
        (option_map (λ bytes. bytes.value.bytes) bytes.now))
        (store (F.files files.old) (F.draft_name files.old) (F.draft_bytes files.old))
        (store (F.files files.new) (F.draft_name files.new) (F.draft_bytes files.new))) }
    ensures unrefused { IfErr result IsUnrefused }
    ensures kept { OnErr result (KeepsFiles
        (store (F.files files.old) (F.draft_name files.old) (F.draft_bytes files.old))
        (store (F.files files.new) (F.draft_name files.new) (F.draft_bytes files.new))) }
    ensures draft { KeepsDraft
        (store (F.files files.old) (F.draft_name files.old) (F.draft_bytes files.old))
        (store (F.files files.new) (F.draft_name files.new) (F.draft_bytes files.new)) }
    ensures truthful { StaysTruthful (F.truthful files.old) (F.truthful files.new) }
    ensures unwritten { option_map (λ to. to.now) to.entry ≡ None → IsSame
        (store (F.files files.old) (F.draft_name files.old) (F.draft_bytes files.old))
        (store (F.files files.new) (F.draft_name files.new) (F.draft_bytes files.new)) }
    ensures cause { (name : List ℕ) → IfSome to.entry (λ to. to.now ≡ name)
        → IfErr result (IsWriteStop name (F.faults files.old) (F.faults files.new)) }
    ensures faultless { OnOk result (F.faults files.new ≡ F.faults files.old) }
{
    match (to, bytes) {
        (Some(to), Some(bytes)) => {
            write_bytes(alloc, files, to.as_str(), bytes.lend(0, bytes.len()))
        }
        _ => Ok(()),
    }
}

// Writes what a command made: the document of its database, if it is to be written, or else the
// attachment that it takes out, if it does.
fn write_change<F: FileStore, D: Dice>(
    alloc: Global,
    files: &mut F,
    dice: &mut D,
    command: &Command,
    change: &Change,
    opened: &mut Opened,
) -> Result<(), Stop>
    requires in_order { IfSome opened.old.sealing (λ s. IsInOrder s.settings) }
    requires unwritten { may_write command.now ≡ false → change.now.is_written ≡ false }
    ensures told { D.truthful dice.new ≡ true
        → (d : List ℕ)
        → TellsStream (change.now.is_written && is_some opened.old.sealing) (D.stream dice.old) d
        → EndsWith (output_text change.now.output) result (ended_with (targets_of command.now)
        opened.old.sealing (change_seen change.now (doc_seen opened.old.doc)) d)
        (store (F.files files.old) (F.draft_name files.old) (F.draft_bytes files.old))
        (store (F.files files.new) (F.draft_name files.new) (F.draft_bytes files.new))
        (D.stream dice.old) (D.stream dice.new) }
    ensures held { OnOk result (ReadsBack (targets_of command.now) opened.old.sealing
        (change_seen change.now (doc_seen opened.old.doc))
        (store (F.files files.old) (F.draft_name files.old) (F.draft_bytes files.old))
        (store (F.files files.new) (F.draft_name files.new) (F.draft_bytes files.new))) }
    ensures kept { OnErr result (KeepsFiles
        (store (F.files files.old) (F.draft_name files.old) (F.draft_bytes files.old))
        (store (F.files files.new) (F.draft_name files.new) (F.draft_bytes files.new))) }
    ensures draft { KeepsDraft
        (store (F.files files.old) (F.draft_name files.old) (F.draft_bytes files.old))
        (store (F.files files.new) (F.draft_name files.new) (F.draft_bytes files.new)) }
    ensures files_truthful { StaysTruthful (F.truthful files.old) (F.truthful files.new) }
    ensures unwritten { may_store command.now ≡ false → IsSame
        (store (F.files files.old) (F.draft_name files.old) (F.draft_bytes files.old))
        (store (F.files files.new) (F.draft_name files.new) (F.draft_bytes files.new)) }
    ensures undrawn { (change.now.is_written && is_some opened.old.sealing) ≡ false
        → D.stream dice.new ≡ D.stream dice.old }
    ensures stream { LosesPrefix (D.stream dice.old) (D.stream dice.new) }
    ensures dice_truthful { StaysTruthful (D.truthful dice.old) (D.truthful dice.new) }
    ensures cause { IfErr result (IsCommandStop (file_written command.now)
        (F.faults files.old) (F.faults files.new) (D.faults dice.old) (D.faults dice.new)) }
    ensures faultless { OnOk result ((F.faults files.new ≡ F.faults files.old)
        × (D.faults dice.new ≡ D.faults dice.old)) }
    ensures opened { opened_seen opened.new ≡ opened_after (opened_seen opened.old)
        (change_seen change.now (doc_seen opened.old.doc)).doc }
    ensures size { IfErr result IsSizeStop }
{
    if change.is_written {
        write_anew(
            alloc,
            files,
            dice,
            database_of(command),
            &opened.doc,
            &mut opened.sealing,
        )
    } else {
        write_attachment(alloc, files, exported_to(command), &change.attachment)
    }
}

/// Carries a command out on a database that stays open: what it makes of the document, and then the
/// file, if one is written. What is printed is composed before the file is written.
///
/// Afterwards the database is as the command leaves it: with the new document where it was written,
/// and else as before. A refusal of status 1 or 2 leaves it as it was; after any other stop its
/// document is not known, and it is only to be closed.
pub fn step<F: FileStore, D: Dice>(
    alloc: Global,
    files: &mut F,
    dice: &mut D,
    request: &Request,
    opened: &mut Opened,
    now: u64,
) -> Result<Output, Stop>
    requires text { AreTextLines (lines_seen request.now.lines).more
        (lines_seen request.now.lines).otp (lines_seen request.now.lines).fields }
    requires profile { IfSome (generated_by request.now.command) IsProfile }
    requires in_order { IfSome opened.old.sealing (λ s. IsInOrder s.settings) }
    requires sealed { is_some opened.old.sealing
        ≡ not (target_access request.now.command).plain }
    ensures told { D.truthful dice.new ≡ true
        → (d : List ℕ) → TellsStream (draws request.now.command) (D.stream dice.old) d
        → Ends result (carried_out now (task_by request.now opened.old) d)
        (store (F.files files.old) (F.draft_name files.old) (F.draft_bytes files.old))
        (store (F.files files.new) (F.draft_name files.new) (F.draft_bytes files.new))
        (D.stream dice.old) (D.stream dice.new) }
    ensures of_dice { D.truthful dice.new ≡ true
        → (d : List ℕ)
        → TellsStream (draws request.now.command) (D.stream dice.old) d
        → IfOk result (λ output. IsOfDice now (task_by request.now opened.old) d
        (output_text output)
        (store (F.files files.old) (F.draft_name files.old) (F.draft_bytes files.old))
        (store (F.files files.new) (F.draft_name files.new) (F.draft_bytes files.new))) }
    ensures some_dice { IfOk result (λ output. IsOfSomeDice now (task_by request.now opened.old)
        (output_text output)
        (store (F.files files.old) (F.draft_name files.old) (F.draft_bytes files.old))
        (store (F.files files.new) (F.draft_name files.new) (F.draft_bytes files.new))) }
    ensures kept { OnErr result (KeepsFiles
        (store (F.files files.old) (F.draft_name files.old) (F.draft_bytes files.old))
        (store (F.files files.new) (F.draft_name files.new) (F.draft_bytes files.new))) }
    ensures draft { KeepsDraft
        (store (F.files files.old) (F.draft_name files.old) (F.draft_bytes files.old))
        (store (F.files files.new) (F.draft_name files.new) (F.draft_bytes files.new)) }
    ensures files_truthful { StaysTruthful (F.truthful files.old) (F.truthful files.new) }
    ensures unwritten { may_store request.now.command ≡ false → IsSame
        (store (F.files files.old) (F.draft_name files.old) (F.draft_bytes files.old))
        (store (F.files files.new) (F.draft_name files.new) (F.draft_bytes files.new)) }
    ensures undrawn { draws request.now.command ≡ false
        → D.stream dice.new ≡ D.stream dice.old }
    ensures stream { LosesPrefix (D.stream dice.old) (D.stream dice.new) }
    ensures dice_truthful { StaysTruthful (D.truthful dice.old) (D.truthful dice.new) }
    ensures cause { IfErr result (IsCommandStop (file_written request.now.command)
        (F.faults files.old) (F.faults files.new) (D.faults dice.old) (D.faults dice.new)) }
    ensures faultless { OnOk result ((F.faults files.new ≡ F.faults files.old)
        × (D.faults dice.new ≡ D.faults dice.old)) }
    ensures leaves { D.truthful dice.new ≡ true
        → (d : List ℕ) → TellsStream (draws request.now.command) (D.stream dice.old) d
        → IfOk result (λ _. LeavesDatabase (only_reads request.now.command)
        (change_of_task now (task_by request.now opened.old) d).answer
        (opened_seen opened.old) (opened_seen opened.new)) }
    ensures recoverable { IfErr result (λ stop. IsRecoverable stop
        → opened_seen opened.new ≡ opened_seen opened.old) }
    ensures recoverable_faults { IfErr result (λ stop. IsRecoverable stop
        → (F.faults files.new ≡ F.faults files.old)
        × (D.faults dice.old ≤ D.faults dice.new)) }
    ensures still_in_order { IfSome opened.new.sealing (λ s. IsInOrder s.settings) }
    ensures still_sealed { is_some opened.new.sealing ≡ is_some opened.old.sealing }
{
    let input = CommandInput {
        line: bytes_in(&request.lines.more),
        otp: bytes_in(&request.lines.otp),
        fields: request.lines.fields.as_slice(),
        attached: request.attached.as_ref(),
        sources: request.sources.as_slice(),
        settings: settings_of(&opened.sealing),
        passed_over: opened.passed_over.as_slice(),
        now,
    };
    let change = perform(alloc, dice, &request.command, input, &mut opened.doc)?;
    write_change(alloc, files, dice, &request.command, &change, opened)?;
    Ok(change.output)
}

/// Carries a task out: what its command makes of the document, and then the file, if one is
/// written. What is printed is composed before the file is written, and printed after it.
///
/// Whatever the answer, the composite key of the database was cleared and released; where the
/// command may write none, it was cleared before.
pub fn carry_out<F: FileStore, D: Dice>(
    alloc: Global,
    files: &mut F,
    dice: &mut D,
    task: Task,
    now: u64,
) -> Result<Output, Stop>
    requires text { AreTextLines (lines_seen task.lines).more (lines_seen task.lines).otp
        (lines_seen task.lines).fields }
    requires profile { IfSome (generated_by task.command) IsProfile }
    requires in_order { IfSome task.opened.sealing (λ s. IsInOrder s.settings) }
    requires sealed { is_some task.opened.sealing ≡ not (target_access task.command).plain }
    ensures told { D.truthful dice.new ≡ true
        → (d : List ℕ) → TellsStream (draws task.command) (D.stream dice.old) d
        → Ends result (carried_out now (task_seen task) d)
        (store (F.files files.old) (F.draft_name files.old) (F.draft_bytes files.old))
        (store (F.files files.new) (F.draft_name files.new) (F.draft_bytes files.new))
        (D.stream dice.old) (D.stream dice.new) }
    ensures of_dice { D.truthful dice.new ≡ true
        → (d : List ℕ) → TellsStream (draws task.command) (D.stream dice.old) d
        → IfOk result (λ output. IsOfDice now (task_seen task) d (output_text output)
        (store (F.files files.old) (F.draft_name files.old) (F.draft_bytes files.old))
        (store (F.files files.new) (F.draft_name files.new) (F.draft_bytes files.new))) }
    ensures some_dice { IfOk result (λ output. IsOfSomeDice now (task_seen task)
        (output_text output)
        (store (F.files files.old) (F.draft_name files.old) (F.draft_bytes files.old))
        (store (F.files files.new) (F.draft_name files.new) (F.draft_bytes files.new))) }
    ensures kept { OnErr result (KeepsFiles
        (store (F.files files.old) (F.draft_name files.old) (F.draft_bytes files.old))
        (store (F.files files.new) (F.draft_name files.new) (F.draft_bytes files.new))) }
    ensures draft { KeepsDraft
        (store (F.files files.old) (F.draft_name files.old) (F.draft_bytes files.old))
        (store (F.files files.new) (F.draft_name files.new) (F.draft_bytes files.new)) }
    ensures files_truthful { StaysTruthful (F.truthful files.old) (F.truthful files.new) }
    ensures unwritten { may_store task.command ≡ false → IsSame
        (store (F.files files.old) (F.draft_name files.old) (F.draft_bytes files.old))
        (store (F.files files.new) (F.draft_name files.new) (F.draft_bytes files.new)) }
    ensures undrawn { draws task.command ≡ false → D.stream dice.new ≡ D.stream dice.old }
    ensures stream { LosesPrefix (D.stream dice.old) (D.stream dice.new) }
    ensures dice_truthful { StaysTruthful (D.truthful dice.old) (D.truthful dice.new) }
    ensures cause { IfErr result (IsCommandStop (file_written task.command)
        (F.faults files.old) (F.faults files.new) (D.faults dice.old) (D.faults dice.new)) }
    ensures faultless { OnOk result ((F.faults files.new ≡ F.faults files.old)
        × (D.faults dice.new ≡ D.faults dice.old)) }
{
    let Task {
        command,
        lines,
        mut opened,
        sources,
        attached,
    } = task;
    let request = Request {
        command,
        lines,
        sources,
        attached,
    };
    clear_unless(may_write(&request.command), &mut opened.sealing);
    let answer = step(alloc, files, dice, &request, &mut opened, now);
    drop(request);
    close(opened);
    answer
}
