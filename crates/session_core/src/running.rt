//! Carrying out a line of a session.
ghost use Rattle.std.specs.Prelude.{◌≡◌, ◌≤◌, ℕ, List, IfErr, IfOk, IfSome, OnErr, OnOk, Some, is_some, not, true};
ghost use Rattle.outside_core.specs.Files.{FileMap};
ghost use Rattle.outside_core.specs.Reports.{StaysTruthful};
ghost use Rattle.outside_core.specs.Streams.{LosesPrefix};
ghost use Rattle.kdbx_frame.specs.Settings.{IsInOrder};
ghost use Rattle.call_run.specs.CliFiles.SeenOpened.{opened_seen};
ghost use Rattle.call_run.specs.CliFiles.declared.documents.Opened.{Opened};
ghost use Rattle.cli_lines.specs.SeenLines.{last_seen};
ghost use Rattle.cli_writing.specs.Writing.{KeepsDraft, KeepsFiles, store};
ghost use Rattle.call_run.specs.Endings.{IsRecoverable};
ghost use Rattle.call_run.specs.SeenRequest.{task_by};
ghost use Rattle.session_core.specs.ReadsBack.{LineReadsBack};
ghost use Rattle.session_core.specs.Running.{IsLineStop, Runs, state_seen};
ghost use Rattle.session_core.specs.Sessions.{line_outcome, line_task};

use crate::reading::{LineRequest, read_request};
use call_run::cli_commands::Output;
use call_run::cli_files::Opened;
use call_run::{Request, step};
use cli_lines::{LastLines, Lines};
use cli_messages::Stop;
use cli_needs::Command;
use cli_sessions::SessionDatabase;
use outside_core::{Dice, FileStore, List, Source};
use std::alloc::Global;

/// A session over a database that stays open.
pub struct Session {
    /// How the database was opened, and its file.
    pub database: SessionDatabase,
    /// The number of the next line of the input.
    pub number: u64,
    /// The database, whose composite key must be cleared and released.
    pub opened: Opened,
}

/// What a line of a session did.
pub enum LineEnd {
    /// It ended the session.
    Ends,
    /// It has no word.
    Nothing,
    /// It is to print this.
    Printed(Output),
}

/// Ends a session: its composite key, if it has one, is cleared and released.
pub fn close(session: Session) {
    let Session {
        database,
        number: _,
        opened,
    } = session;
    drop(database);
    call_run::close(opened);
}

// What a command is carried out with that has these lines after it.
fn request_with(alloc: Global, command: Command, last: LastLines) -> Request
    ensures task { (opened : Opened) → task_by result opened
        ≡ line_task (opened_seen opened) command (last_seen last) }
    ensures command { result.command ≡ command }
{
    let LastLines { more, otp, fields } = last;
    Request {
        command,
        lines: Lines {
            password: None,
            sources: List::new(alloc),
            more,
            otp,
            fields,
        },
        sources: List::new(alloc),
        attached: None,
    }
}

/// Reads the next line of a session and carries it out: its command changes the session's database,
/// and then the file, if it writes one. What it prints is given, and not printed.
///
/// After a refusal of status 1 or 2 the session is as it was, but for the input and the dice that the
/// line took. After any other stop it is only to be closed.
pub fn run_line<F: FileStore, S: Source, D: Dice>(
    alloc: Global,
    session: &mut Session,
    files: &mut F,
    input: &mut S,
    dice: &mut D,
    now: u64,
) -> Result<LineEnd, Stop>
    requires in_order { IfSome session.old.opened.sealing (λ s. IsInOrder s.settings) }
    requires sealed { is_some session.old.opened.sealing ≡ not session.old.database.access.plain }
    ensures told { S.truthful input.new ≡ true → D.truthful dice.new ≡ true
        → (i d : List ℕ) → S.left input.old ≡ Some i → D.stream dice.old ≡ Some d
        → Runs result (line_outcome now session.old.database (state_seen session.old i d))
        (store (F.files files.old) (F.draft_name files.old) (F.draft_bytes files.old))
        (store (F.files files.new) (F.draft_name files.new) (F.draft_bytes files.new))
        session.new (S.left input.new) (D.stream dice.new) }
    ensures reads_back { S.truthful input.new ≡ true → D.truthful dice.new ≡ true
        → (m : FileMap) (i d : List ℕ) → F.files files.old ≡ Some m → S.left input.old ≡ Some i
        → D.stream dice.old ≡ Some d → IfOk result (λ end.
        LineReadsBack (opened_seen session.old.opened).sealing
        (line_outcome now session.old.database (state_seen session.old i d))) }
    ensures database { session.new.database ≡ session.old.database }
    ensures still_in_order { IfSome session.new.opened.sealing (λ s. IsInOrder s.settings) }
    ensures still_sealed { is_some session.new.opened.sealing
        ≡ is_some session.old.opened.sealing }
    ensures kept { OnErr result (KeepsFiles
        (store (F.files files.old) (F.draft_name files.old) (F.draft_bytes files.old))
        (store (F.files files.new) (F.draft_name files.new) (F.draft_bytes files.new))) }
    ensures draft { KeepsDraft
        (store (F.files files.old) (F.draft_name files.old) (F.draft_bytes files.old))
        (store (F.files files.new) (F.draft_name files.new) (F.draft_bytes files.new)) }
    ensures stream { LosesPrefix (D.stream dice.old) (D.stream dice.new) }
    ensures files_truthful { StaysTruthful (F.truthful files.old) (F.truthful files.new) }
    ensures input_truthful { StaysTruthful (S.truthful input.old) (S.truthful input.new) }
    ensures dice_truthful { StaysTruthful (D.truthful dice.old) (D.truthful dice.new) }
    ensures cause { IfErr result (IsLineStop session.old.database.file
        (F.faults files.old) (F.faults files.new) (S.faults input.old) (S.faults input.new)
        (D.faults dice.old) (D.faults dice.new)) }
    ensures recoverable_faults { IfErr result (λ stop. IsRecoverable stop
        → (F.faults files.new ≡ F.faults files.old)
        × (S.faults input.old ≤ S.faults input.new) × (D.faults dice.old ≤ D.faults dice.new)) }
    ensures faultless { OnOk result ((F.faults files.new ≡ F.faults files.old)
        × (S.faults input.new ≡ S.faults input.old) × (D.faults dice.new ≡ D.faults dice.old)) }
{
    match read_request(alloc, &session.database, &mut session.number, input)? {
        LineRequest::Ends => Ok(LineEnd::Ends),
        LineRequest::Nothing => Ok(LineEnd::Nothing),
        LineRequest::Asks(command, last) => {
            let request = request_with(alloc, command, last);
            let done = step(alloc, files, dice, &request, &mut session.opened, now);
            drop(request);
            match done {
                Ok(output) => Ok(LineEnd::Printed(output)),
                Err(stop) => Err(stop),
            }
        }
    }
}
