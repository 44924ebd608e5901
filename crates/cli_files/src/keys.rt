//! The keys of key files.
ghost use Rattle.std.specs.Prelude.{◌≡◌, ◌≢◌, [], ◌∷◌, IfErr, IfOk, IsSome, Some, option_map, OnOk};
ghost use Rattle.std.specs.FinMap as finmap;
ghost use Rattle.outside_core.specs.Files.{FileMap};
ghost use Rattle.outside_core.specs.Reports.{reported};
ghost use Rattle.cli_lines.specs.KeyCore.KeyFile.{key_file_key};
ghost use Rattle.cli_messages.specs.Phases.{IsFileStop, IsPlainStop, Returns};
ghost use Rattle.cli_lines.specs.CliNeeds.Needs.{key_files};
ghost use Rattle.cli_files.specs.Answers as answer;
ghost use Rattle.cli_files.specs.Files as spec;
ghost use Rattle.cli_files.specs.Files.{key_in, key_or_refusal};
ghost use Rattle.cli_files.specs.LeavesFiles.{LeavesFiles};
ghost use Rattle.cli_files.specs.SomeFiles.{IsSomeKey, SomeKey};

use crate::stops::unread;
use cli_lines::kdbx_frame::FILE_LIMIT;
use cli_lines::key_core::{KeyFileFail, read_key_file};
use cli_messages::{Reason, Stop, refused};
use outside_core::FileStore;
use secret_core::{Key, Secret, read_file};
use std::alloc::Global;

// The answer that a refusal of a key file is.
fn key_answer(fail: KeyFileFail) -> Reason
    ensures is { result ≡ answer.key_answer fail }
    ensures there { result ≢ Reason.NoSuchFile }
{
    match fail {
        KeyFileFail::KeyFileForm(at) => Reason::BadKeyFile(at),
        KeyFileFail::KeyFileHash { kept, found } => Reason::KeyFileHash { kept, found },
        KeyFileFail::NoMemory => Reason::OutOfMemory,
    }
}

// The key in these bytes of a key file.
fn key_by(alloc: Global, name: &str, bytes: &Secret) -> Result<Key, Stop>
    ensures gives { Returns (λ key. key) result
        (key_or_refusal name.now (key_file_key bytes.now.bytes)) }
    ensures some_file { IfOk result IsSomeKey }
    ensures cause { IfErr result IsPlainStop }
{
    match read_key_file(alloc, bytes.lend(0, bytes.len())) {
        Ok(key) => Ok(key),
        Err(KeyFileFail::NoMemory) => Err(Stop::NoMemory),
        Err(fail) => Err(refused(alloc, key_answer(fail), name)),
    }
}

// The key of a key file.
fn open_key_file<F: FileStore>(alloc: Global, files: &mut F, name: &str) -> Result<Key, Stop>
    ensures told { (m : FileMap) → reported (F.truthful files.new) (F.files files.old) ≡ Some m
        → Returns (λ key. key) result (key_in name.now (finmap.get m name.now)) }
    ensures some_file { IfOk result IsSomeKey }
    ensures cause { IfErr result (IsFileStop (name.now ∷ []) (F.faults files.old)
        (F.faults files.new) (F.absences files.old) (F.absences files.new)) }
    ensures leaves { LeavesFiles F.files F.draft_name F.draft_bytes F.truthful F.faults
        F.absences files.old files.new }
    ensures faultless { OnOk result (F.faults files.new ≡ F.faults files.old) }
{
    match read_file(alloc, files, name, FILE_LIMIT) {
        Ok(bytes) => key_by(alloc, name, &bytes),
        Err(fail) => Err(unread(alloc, fail, name)),
    }
}

/// The key of the key file, where one is named. It must be cleared and released.
pub fn key_of<F: FileStore>(
    alloc: Global,
    files: &mut F,
    key_file: Option<&str>,
) -> Result<Option<Key>, Stop>
    ensures told { (m : FileMap) → reported (F.truthful files.new) (F.files files.old) ≡ Some m
        → Returns (λ key. key) result
        (spec.key_of (option_map (λ name. name.now) key_file.entry) m) }
    ensures given { IfOk result (λ key. IsSome key_file.entry → IsSome key) }
    ensures some_file { IfOk result (SomeKey (option_map (λ name. name.now) key_file.entry)) }
    ensures cause { IfErr result (IsFileStop (key_files
        (option_map (λ name. name.now) key_file.entry)) (F.faults files.old) (F.faults files.new)
        (F.absences files.old) (F.absences files.new)) }
    ensures leaves { LeavesFiles F.files F.draft_name F.draft_bytes F.truthful F.faults
        F.absences files.old files.new }
    ensures faultless { OnOk result (F.faults files.new ≡ F.faults files.old) }
{
    match key_file {
        Some(name) => match open_key_file(alloc, files, name) {
            Ok(key) => Ok(Some(key)),
            Err(stop) => Err(stop),
        },
        None => Ok(None),
    }
}
