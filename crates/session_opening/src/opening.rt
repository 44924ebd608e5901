//! Opening the database of a session.
ghost use Rattle.std.specs.Prelude.{◌≡◌, ◌≤◌, ℕ, List, IfErr, IfOk, IfSome, OnOk, Some, is_some, not, true};
ghost use Rattle.outside_core.specs.Files.{FileMap};
ghost use Rattle.outside_core.specs.Reports.{StaysTruthful, reported};
ghost use Rattle.cli_lines.specs.KdbxFrame.Settings.{IsInOrder};
ghost use Rattle.cli_messages.specs.Phases.{IsEarlyStop, IsFileStop, Returns, ReturnsStream};
ghost use Rattle.cli_needs.specs.Needs.{HasKey, files_of};
ghost use Rattle.cli_needs.specs.SeenNeeds.{needs_seen};
ghost use Rattle.cli_lines.specs.Lines.{HasLines};
ghost use Rattle.cli_lines.specs.SeenLines.{lines_seen};
ghost use Rattle.cli_databases.specs.CliFiles.LeavesFiles.{LeavesFiles};
ghost use Rattle.cli_databases.specs.CliFiles.SeenOpened.{opened_seen};
ghost use Rattle.session_opening.specs.Opening as spec;
ghost use Rattle.session_opening.specs.Opening.{opened_by, session_opened};

use cli_databases::cli_files::Opened;
use cli_databases::{Databases, open};
use cli_lines::{Lines, read_lines};
use cli_messages::Stop;
use cli_needs::{Needs, asks_password};
use cli_sessions::SessionDatabase;
use outside_core::{FileStore, Source};
use std::alloc::Global;

// What a session asks for as it begins.
fn opening_needs(database: &SessionDatabase) -> Needs<'_>
    ensures { needs_seen result ≡ spec.opening_needs database.now }
{
    Needs {
        access: &database.access,
        file: &database.file,
        from: &database.access,
        same: false,
        sources: &[],
        has_line: false,
        has_otp: false,
        fields: &[],
    }
}

/// The number of the first line of a session in its input: 2 where the password comes before it.
pub fn first_number(database: &SessionDatabase) -> u64
    ensures { result ≡ spec.first_number database.now }
{
    if asks_password(&database.access) {
        2
    } else {
        1
    }
}

// The database of a command, without its sources.
fn target_in(databases: Databases) -> Opened
    ensures { result ≡ databases.target }
{
    let Databases { target, sources } = databases;
    drop(sources);
    target
}

// Opens the database of a session by the lines that it asked for.
fn open_by<F: FileStore>(
    alloc: Global,
    files: &mut F,
    database: &SessionDatabase,
    lines: &Lines,
) -> Result<Opened, Stop>
    requires key { HasKey database.now.access }
    requires lines { HasLines (spec.opening_needs database.now) (lines_seen lines.now) }
    ensures told { (m : FileMap) → reported (F.truthful files.new) (F.files files.old) ≡ Some m
        → Returns opened_seen result (opened_by database.now (lines_seen lines.now) m) }
    ensures in_order { IfOk result (λ opened. IfSome opened.sealing (λ s. IsInOrder s.settings)) }
    ensures sealed { IfOk result (λ opened. is_some opened.sealing
        ≡ not database.now.access.plain) }
    ensures cause { IfErr result (IsFileStop (files_of (spec.opening_needs database.now))
        (F.faults files.old) (F.faults files.new) (F.absences files.old) (F.absences files.new)) }
    ensures leaves { LeavesFiles F.files F.draft_name F.draft_bytes F.truthful F.faults
        F.absences files.old files.new }
    ensures faultless { OnOk result (F.faults files.new ≡ F.faults files.old) }
{
    match open(alloc, files, opening_needs(database), lines) {
        Ok(databases) => Ok(target_in(databases)),
        Err(stop) => Err(stop),
    }
}

/// Opens the database of a session: its password is the first line of the input, where it has one.
/// Its composite key must be cleared and released; after a refusal it was. No file is changed.
pub fn open_session<F: FileStore, S: Source>(
    alloc: Global,
    files: &mut F,
    input: &mut S,
    database: &SessionDatabase,
) -> Result<Opened, Stop>
    requires { HasKey database.now.access }
    ensures told { S.truthful input.new ≡ true → (m : FileMap) (i : List ℕ)
        → reported (F.truthful files.new) (F.files files.old) ≡ Some m → S.left input.old ≡ Some i
        → ReturnsStream opened_seen result (S.left input.new)
        (session_opened database.now i m) }
    ensures in_order { IfOk result (λ opened. IfSome opened.sealing (λ s. IsInOrder s.settings)) }
    ensures sealed { IfOk result (λ opened. is_some opened.sealing
        ≡ not database.now.access.plain) }
    ensures cause { IfErr result (IsEarlyStop (files_of (spec.opening_needs database.now))
        (F.faults files.old) (F.faults files.new) (F.absences files.old) (F.absences files.new)
        (S.faults input.old) (S.faults input.new)) }
    ensures leaves { LeavesFiles F.files F.draft_name F.draft_bytes F.truthful F.faults
        F.absences files.old files.new }
    ensures input_truthful { StaysTruthful (S.truthful input.old) (S.truthful input.new) }
    ensures input_faults { S.faults input.old ≤ S.faults input.new }
{
    let lines = read_lines(alloc, input, opening_needs(database))?;
    let opened = open_by(alloc, files, database, &lines);
    drop(lines);
    opened
}
