//! The file that is put into a database.
ghost use Rattle.std.specs.Prelude.{◌≡◌, [], ◌∷◌, IfErr, IfOk, Ok, OnOk, Some, option_map};
ghost use Rattle.outside_core.specs.Files.{FileMap};
ghost use Rattle.outside_core.specs.Reports.{reported};
ghost use Rattle.cli_resealing.specs.CliFiles.LeavesFiles.{LeavesFiles};
ghost use Rattle.cli_messages.specs.Phases.{IsFileStop, Returns};
ghost use Rattle.cli_needs.specs.Needs.{files_named};
ghost use Rattle.call_input.specs.Attaching as spec;
ghost use Rattle.call_input.specs.Attaching.{SomeAttached};

use cli_messages::Stop;
use cli_needs::{Command, Origin, origin_of};
use cli_resealing::cli_files::unread;
use kdbx_frame::FILE_LIMIT;
use outside_core::{FileStore, Text};
use secret_core::{Secret, read_file};
use std::alloc::Global;
use std::rc::Rc;

// The bytes of the file of this name.
fn read_bytes<F: FileStore>(alloc: Global, files: &mut F, source: &Text) -> Result<Rc<Secret>, Stop>
    ensures told { (m : FileMap) → reported (F.truthful files.new) (F.files files.old) ≡ Some m
        → Returns (λ bytes. bytes.value.bytes) result (spec.bytes_in source.now m) }
    ensures cause { IfErr result (IsFileStop (source.now ∷ []) (F.faults files.old)
        (F.faults files.new) (F.absences files.old) (F.absences files.new)) }
    ensures leaves { LeavesFiles F.files F.draft_name F.draft_bytes F.truthful F.faults
        F.absences files.old files.new }
    ensures faultless { OnOk result (F.faults files.new ≡ F.faults files.old) }
{
    let name = source.as_str();
    let bytes = match read_file(alloc, files, name, FILE_LIMIT) {
        Ok(bytes) => bytes,
        Err(fail) => return Err(unread(alloc, fail, name)),
    };
    match Rc::new(alloc, bytes) {
        Ok(shared) => Ok(shared),
        Err(_bytes) => Err(Stop::NoMemory),
    }
}

/// The bytes of the file that a command puts into its database, where it names one. No file is
/// changed.
pub fn attached_for<F: FileStore>(
    alloc: Global,
    files: &mut F,
    command: &Command,
) -> Result<Option<Rc<Secret>>, Stop>
    ensures told { (m : FileMap) → reported (F.truthful files.new) (F.files files.old) ≡ Some m
        → Returns (option_map (λ bytes. bytes.value.bytes)) result
        (spec.attached_for command.now m) }
    ensures some_file { IfOk result (λ attached. SomeAttached command.now
        (option_map (λ bytes. bytes.value.bytes) attached)) }
    ensures cause { IfErr result (IsFileStop (files_named (Ok command.now))
        (F.faults files.old) (F.faults files.new) (F.absences files.old) (F.absences files.new)) }
    ensures leaves { LeavesFiles F.files F.draft_name F.draft_bytes F.truthful F.faults
        F.absences files.old files.new }
    ensures faultless { OnOk result (F.faults files.new ≡ F.faults files.old) }
{
    match origin_of(command) {
        Origin::Attached(source) => match read_bytes(alloc, files, source) {
            Ok(bytes) => Ok(Some(bytes)),
            Err(stop) => Err(stop),
        },
        _ => Ok(None),
    }
}
