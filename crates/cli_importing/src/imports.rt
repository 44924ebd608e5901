//! The database that an import makes.
ghost use Rattle.std.specs.Prelude.{◌≡◌, [], ◌∷◌, IfErr, IfOk, IfSome, Some, option_map, OnOk};
ghost use Rattle.std.specs.FinMap as finmap;
ghost use Rattle.outside_core.specs.Files.{FileMap};
ghost use Rattle.outside_core.specs.Reports.{reported};
ghost use Rattle.kdbx_frame.specs.Settings.{IsInOrder};
ghost use Rattle.cli_messages.specs.Phases.{IsFault, IsFileStop, Returns};
ghost use Rattle.cli_files.specs.LeavesFiles.{LeavesFiles};
ghost use Rattle.cli_files.specs.SeenOpened.{opened_seen};
ghost use Rattle.cli_lines.specs.Lines.{CanOpen};
ghost use Rattle.cli_lines.specs.SeenLines.{line_seen, lines_seen};
ghost use Rattle.cli_needs.specs.Needs.{key_files};
ghost use Rattle.cli_needs.specs.SeenNeeds.{import_seen};
ghost use Rattle.cli_importing.specs.Held.{SomeImport, SomeSealing};
ghost use Rattle.cli_importing.specs.Imports as spec;
ghost use Rattle.cli_importing.specs.Imports.{imported_of, refuse_file, sealing_of};

use crate::sources::read_source;
use cli_files::{Opened, bytes_in, key_of, name_in};
use cli_lines::Lines;
use cli_messages::{Reason, Stop, refused};
use cli_needs::{Access, ImportNeeds};
use kdbx_frame::{Cipher, FileVersion, Sealing, Settings};
use key_core::{ArgonKind, Kdf, composite};
use outside_core::{Bytes, FileFail, FileStore, NoMemory, Text};
use std::alloc::Global;

// A fault of the store at the file of this name.
fn faulty(alloc: Global, name: &str) -> Stop
    ensures { IsFault result name.now }
{
    match Text::of(alloc, name) {
        Ok(name) => Stop::FileFault(name),
        Err(NoMemory) => Stop::NoMemory,
    }
}

/// Refuses where a file of this name is there, which is not changed.
pub fn refuse_existing<F: FileStore>(alloc: Global, files: &mut F, name: &str) -> Result<(), Stop>
    ensures told { (m : FileMap) → reported (F.truthful files.new) (F.files files.old) ≡ Some m
        → Returns (λ u. u) result (refuse_file name.now (finmap.get m name.now)) }
    ensures cause { IfErr result (IsFileStop (name.now ∷ []) (F.faults files.old)
        (F.faults files.new) (F.absences files.old) (F.absences files.new)) }
    ensures leaves { LeavesFiles F.files F.draft_name F.draft_bytes F.truthful F.faults
        F.absences files.old files.new }
    ensures faultless { OnOk result (F.faults files.new ≡ F.faults files.old) }
{
    match files.size(name) {
        Ok(_) => Err(refused(alloc, Reason::FileExists, name)),
        Err(FileFail::NoSuchFile) => Ok(()),
        Err(FileFail::Failed) => Err(faulty(alloc, name)),
        Err(FileFail::NoMemory) => Err(Stop::NoMemory),
    }
}

/// The passes of Argon2d over its memory in a new file.
const NEW_PASSES: u64 = 10;

/// The memory of Argon2d in a new file, in bytes: 64 MiB.
const NEW_BYTES: u64 = 67_108_864;

/// The lanes of Argon2d in a new file.
const NEW_LANES: u32 = 2;

// The settings of a new file, whose salt is drawn as the file is written.
fn new_settings(alloc: Global) -> Result<Settings, NoMemory>
    ensures is { IfOk result (λ settings. settings ≡ spec.new_settings) }
    ensures in_order { IfOk result IsInOrder }
{
    let mut salt = Bytes::new(alloc);
    if let Err(fail) = salt.add(&[0; 32]) {
        drop(salt);
        return Err(fail);
    }
    Ok(Settings {
        version: FileVersion::V40,
        cipher: Cipher::Aes,
        kdf: Kdf::Argon {
            kind: ArgonKind::D,
            passes: NEW_PASSES,
            bytes: NEW_BYTES,
            lanes: NEW_LANES,
            salt,
        },
        public: None,
    })
}

/// What a new file is sealed with, unless it is to be a plain document. The composite key must be
/// cleared and released; after a refusal there is none. No file is changed.
pub fn new_sealing<F: FileStore>(
    alloc: Global,
    files: &mut F,
    access: &Access,
    password: Option<&[u8]>,
) -> Result<Option<Sealing>, Stop>
    requires { CanOpen access.now (option_map (λ p. p.now) password) }
    ensures told { (m : FileMap) → reported (F.truthful files.new) (F.files files.old) ≡ Some m
        → Returns (λ sealing. sealing) result (sealing_of access.now.plain access.now.key_file
        (option_map (λ p. p.now) password.entry) m) }
    ensures some_file { IfOk result (SomeSealing access.now.plain access.now.key_file
        (option_map (λ p. p.now) password.entry)) }
    ensures in_order { IfOk result (λ sealing. IfSome sealing (λ s. IsInOrder s.settings)) }
    ensures cause { IfErr result (IsFileStop (key_files access.now.key_file)
        (F.faults files.old) (F.faults files.new) (F.absences files.old) (F.absences files.new)) }
    ensures leaves { LeavesFiles F.files F.draft_name F.draft_bytes F.truthful F.faults
        F.absences files.old files.new }
    ensures faultless { OnOk result (F.faults files.new ≡ F.faults files.old) }
{
    if access.plain {
        return Ok(None);
    }
    let settings = new_settings(alloc)?;
    match key_of(alloc, files, name_in(&access.key_file)) {
        Ok(key) => Ok(Some(Sealing {
            settings,
            composite: composite(password, key),
        })),
        Err(stop) => {
            drop(settings);
            Err(stop)
        }
    }
}

/// Makes the database of an import, with the lines that it asked for: the document of its source,
/// where no file has the new one's name, and the key of the new file, which must be cleared and
/// released; after a refusal it was. No file is changed.
#[tactic(auto, unfolding(crate::specs::Imports::imported_of))]
pub fn import<F: FileStore>(
    alloc: Global,
    files: &mut F,
    import: ImportNeeds<'_>,
    lines: &Lines,
    now: u64,
) -> Result<Opened, Stop>
    requires { CanOpen import.access.now (line_seen lines.now.more) }
    ensures told { (m : FileMap) → reported (F.truthful files.new) (F.files files.old) ≡ Some m
        → Returns opened_seen result
        (imported_of (import_seen import.entry) (lines_seen lines.now) now m) }
    ensures some_file { IfOk result (λ opened. SomeImport (import_seen import.entry)
        (lines_seen lines.now) now (opened_seen opened)) }
    ensures in_order { IfOk result (λ opened. IfSome opened.sealing (λ s. IsInOrder s.settings)) }
    ensures cause { IfErr result (IsFileStop (import.entry.source.now
        ∷ import.entry.file.now ∷ key_files import.entry.access.now.key_file)
        (F.faults files.old) (F.faults files.new) (F.absences files.old) (F.absences files.new)) }
    ensures leaves { LeavesFiles F.files F.draft_name F.draft_bytes F.truthful F.faults
        F.absences files.old files.new }
    ensures faultless { OnOk result (F.faults files.new ≡ F.faults files.old) }
{
    let source = read_source(alloc, files, import, bytes_in(&lines.password), now)?;
    if let Err(stop) = refuse_existing(alloc, files, import.file.as_str()) {
        drop(source);
        return Err(stop);
    }
    match new_sealing(alloc, files, import.access, bytes_in(&lines.more)) {
        Ok(sealing) => Ok(Opened {
            doc: source.doc,
            sealing,
            passed_over: source.passed_over,
        }),
        Err(stop) => {
            drop(source);
            Err(stop)
        }
    }
}
