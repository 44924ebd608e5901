//! The databases of a command.
ghost use Rattle.std.specs.Prelude.{◌≡◌, ◌≤◌, ◌∷◌, IfErr, IfOk, IfSome, Ok, Some, OnOk};
ghost use Rattle.outside_core.specs.Files.{FileMap};
ghost use Rattle.outside_core.specs.Reports.{StaysTruthful, reported};
ghost use Rattle.kdbx_frame.specs.Settings.{IsInOrder};
ghost use Rattle.cli_messages.specs.Phases.{IsFileStop, Returns};
ghost use Rattle.cli_resealing.specs.CliFiles.LeavesFiles.{LeavesFiles};
ghost use Rattle.cli_resealing.specs.CliDatabases.SeenOpened.{databases_seen};
ghost use Rattle.cli_resealing.specs.CliDatabases.SomeFiles.{SomeDatabases};
ghost use Rattle.cli_lines.specs.Lines.{HasLines};
ghost use Rattle.cli_lines.specs.SeenLines.{lines_seen};
ghost use Rattle.cli_needs.specs.Needs.{HasKey, HasKeyAfter, HasKeys, files_named, files_of, needs_of, target_access};
ghost use Rattle.cli_needs.specs.SeenNeeds.{needs_seen};
ghost use Rattle.call_input.specs.Opening.{SomeCommandDatabases, databases_beside, databases_for};
ghost use Rattle.call_input.specs.SeenAlone.{IsAlone};

use cli_lines::Lines;
use cli_messages::Stop;
use cli_needs::{Command, Needs, Origin, origin_of};
use cli_resealing::cli_databases::{Databases, open};
use cli_resealing::cli_files::Opened;
use cli_resealing::cli_importing::{import, refuse_existing};
use cli_resealing::{create, edit_file};
use outside_core::{FileStore, List, Text};
use std::alloc::Global;

// A database that a command makes, which has no sources beside it.
fn alone(alloc: Global, made: Result<Opened, Stop>) -> Result<Databases, Stop>
    ensures { IsAlone made result }
{
    match made {
        Ok(target) => Ok(Databases {
            target,
            sources: List::new(alloc),
        }),
        Err(stop) => Err(stop),
    }
}

// Opens the databases that a command names, where no file has the name of the new one that it makes.
fn open_beside<F: FileStore>(
    alloc: Global,
    files: &mut F,
    to: &Text,
    needs: Needs<'_>,
    lines: &Lines,
) -> Result<Databases, Stop>
    requires keys { HasKeys (needs_seen needs) }
    requires lines { HasLines (needs_seen needs) (lines_seen lines.now) }
    ensures told { (m : FileMap) → reported (F.truthful files.new) (F.files files.old) ≡ Some m
        → Returns databases_seen result
        (databases_beside to.now (needs_seen needs.entry) (lines_seen lines.now) m) }
    ensures some_file { IfOk result (λ databases. SomeDatabases (needs_seen needs.entry)
        (lines_seen lines.now) (databases_seen databases)) }
    ensures in_order { IfOk result (λ databases. IfSome databases.target.sealing (λ sealing.
        IsInOrder sealing.settings)) }
    ensures cause { IfErr result (IsFileStop (to.now ∷ files_of (needs_seen needs.entry))
        (F.faults files.old) (F.faults files.new) (F.absences files.old) (F.absences files.new)) }
    ensures leaves { LeavesFiles F.files F.draft_name F.draft_bytes F.truthful F.faults
        F.absences files.old files.new }
    ensures faultless { OnOk result (F.faults files.new ≡ F.faults files.old) }
{
    refuse_existing(alloc, files, to.as_str())?;
    open(alloc, files, needs, lines)
}

/// Opens the databases of a command at a moment, with the lines that it asked for: those that it
/// names, or the one that it makes. The composite key of a sealed one goes on with it, and must be
/// cleared and released; after a refusal it was. No file is changed.
pub fn open_for<F: FileStore>(
    alloc: Global,
    files: &mut F,
    command: &Command,
    lines: &Lines,
    now: u64,
) -> Result<Databases, Stop>
    requires keys { HasKeys (needs_of command.now) }
    requires target_key { HasKey (target_access command.now) }
    requires new_key { HasKeyAfter command.now }
    requires lines { HasLines (needs_of command.now) (lines_seen lines.now) }
    ensures told { (m : FileMap) → reported (F.truthful files.new) (F.files files.old) ≡ Some m
        → Returns databases_seen result
        (databases_for command.now (lines_seen lines.now) now m) }
    ensures some_file { IfOk result (λ databases. SomeCommandDatabases command.now
        (lines_seen lines.now) now (databases_seen databases)) }
    ensures in_order { IfOk result (λ databases. IfSome databases.target.sealing (λ sealing.
        IsInOrder sealing.settings)) }
    ensures cause { IfErr result (IsFileStop (files_named (Ok command.now))
        (F.faults files.old) (F.faults files.new) (F.absences files.old) (F.absences files.new)) }
    ensures faults { F.faults files.old ≤ F.faults files.new }
    ensures absences { F.absences files.old ≤ F.absences files.new }
    ensures files { F.files files.new ≡ F.files files.old }
    ensures draft_name { F.draft_name files.new ≡ F.draft_name files.old }
    ensures draft_bytes { F.draft_bytes files.new ≡ F.draft_bytes files.old }
    ensures truthful { StaysTruthful (F.truthful files.old) (F.truthful files.new) }
    ensures faultless { OnOk result (F.faults files.new ≡ F.faults files.old) }
{
    let needs = cli_needs::needs_of(command);
    match origin_of(command) {
        Origin::Attached(_source) => open(alloc, files, needs, lines),
        Origin::Opened => open(alloc, files, needs, lines),
        Origin::Exported(to) => open_beside(alloc, files, to, needs, lines),
        Origin::Imported(source) => alone(alloc, import(alloc, files, source, lines, now)),
        Origin::Created(new) => alone(alloc, create(alloc, files, new, lines, now)),
        Origin::Changed(change) => alone(alloc, edit_file(alloc, files, needs, change, lines)),
    }
}
