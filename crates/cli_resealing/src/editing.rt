//! The database whose file is changed.
ghost use Rattle.std.specs.Prelude.{◌≡◌, ◌++◌, ◌⊎◌, IfErr, IfOk, IfSome, IsSome, ℕ, List, Option, Some, option_map, OnOk};
ghost use Rattle.outside_core.specs.Files.{FileMap};
ghost use Rattle.outside_core.specs.Reports.{reported};
ghost use Rattle.kdbx_frame.specs.Settings.{IsInOrder};
ghost use Rattle.cli_messages.specs.Phases.{IsFileStop, Returns};
ghost use Rattle.cli_databases.specs.CliFiles.LeavesFiles.{LeavesFiles};
ghost use Rattle.cli_databases.specs.CliFiles.SeenOpened.{opened_seen};
ghost use Rattle.cli_lines.specs.Lines.{HasLines};
ghost use Rattle.cli_lines.specs.SeenLines.{line_seen, lines_seen};
ghost use Rattle.cli_needs.specs.Needs.{HasKey, HasNewKey, database_files, new_key_files, sets_password};
ghost use Rattle.cli_needs.specs.SeenNeeds.{needs_seen};
ghost use Rattle.cli_resealing.specs.Edited as spec;
ghost use Rattle.cli_resealing.specs.Edited.{changed_of, edited_of, key_after};
ghost use Rattle.cli_resealing.specs.Held.{SomeChanged, SomeEdited, SomeKeyAfter};

use crate::asked::{AskedSettings, close, with_asked};
use cli_databases::cli_files::{Opened, bytes_in, key_of, name_in};
use cli_databases::open_sealed;
use cli_lines::Lines;
use cli_messages::Stop;
use cli_needs::{FileChange, KeyFileChange, Needs, PasswordChange};
use kdbx_frame::Sealing;
use key_core::composite;
use outside_core::FileStore;
use secret_core::Key;
use std::alloc::Global;

// The same key once more, if there is one.
fn copy_of(key: &Option<Key>) -> Option<Key>
    ensures { result ≡ key.now }
{
    match key {
        Some(key) => Some(Key::of(key.bytes())),
        None => None,
    }
}

// Clears and releases a key, if there is one.
fn give_up(key: Option<Key>) {
    if let Some(mut key) = key {
        key.clear();
        key.release();
    }
}

// The password after a change: the new line, or none, or the old one.
fn password_after(change: PasswordChange, lines: &Lines) -> Option<&[u8]>
    ensures { option_map (λ p. p.now) result ≡ spec.password_after change
        (line_seen lines.now.password) (line_seen lines.now.more) }
{
    match change {
        PasswordChange::Keep => bytes_in(&lines.password),
        PasswordChange::Set => bytes_in(&lines.more),
        PasswordChange::Unset => None,
    }
}

// The key of the key file after a change: that of the new file, or none, or the old one, which is
// cleared and released where it does not go on.
fn new_key<F: FileStore>(
    alloc: Global,
    files: &mut F,
    change: &KeyFileChange,
    old: Option<Key>,
) -> Result<Option<Key>, Stop>
    ensures told { (m : FileMap) → reported (F.truthful files.new) (F.files files.old) ≡ Some m
        → Returns (λ key. key) result (key_after change.now old m) }
    ensures some_file { IfOk result (SomeKeyAfter change.now old) }
    ensures cause { IfErr result (IsFileStop (new_key_files change.now)
        (F.faults files.old) (F.faults files.new) (F.absences files.old) (F.absences files.new)) }
    ensures leaves { LeavesFiles F.files F.draft_name F.draft_bytes F.truthful F.faults
        F.absences files.old files.new }
    ensures faultless { OnOk result (F.faults files.new ≡ F.faults files.old) }
{
    match change {
        KeyFileChange::Keep => Ok(old),
        KeyFileChange::Set(name) => {
            give_up(old);
            key_of(alloc, files, Some(name.as_str()))
        }
        KeyFileChange::Unset => {
            give_up(old);
            Ok(None)
        }
    }
}

// A database whose file is sealed under another composite key. The old one is cleared and released.
fn under_key(opened: Opened, mut composite: Key) -> Opened
    ensures told { opened_seen result ≡ spec.under_key composite (opened_seen opened) }
    ensures in_order { IfSome opened.sealing (λ s. IsInOrder s.settings)
        → IfSome result.sealing (λ s. IsInOrder s.settings) }
{
    let Opened {
        doc,
        sealing,
        passed_over,
    } = opened;
    let Some(
        Sealing {
            settings,
            composite: mut old,
        },
    ) = sealing
    else {
        composite.clear();
        composite.release();
        return Opened {
            doc,
            sealing: None,
            passed_over,
        };
    };
    old.clear();
    old.release();
    Opened {
        doc,
        sealing: Some(Sealing {
            settings,
            composite,
        }),
        passed_over,
    }
}

// The settings that a change of a file asks for.
fn asked_in(change: &FileChange) -> AskedSettings
    ensures cipher { result.cipher ≡ change.now.cipher }
    ensures kdf { result.kdf ≡ change.now.kdf }
    ensures version { result.version ≡ change.now.version }
{
    AskedSettings {
        cipher: change.cipher,
        kdf: change.kdf,
        version: change.version,
    }
}

// A database that was opened, and the key of its key file.
struct OpenedWithKey {
    opened: Opened,
    key: Option<Key>,
}

// Changes how the file of a database that was opened is to be sealed.
fn change_file<F: FileStore>(
    alloc: Global,
    files: &mut F,
    file: &str,
    change: &FileChange,
    lines: &Lines,
    before: OpenedWithKey,
) -> Result<Opened, Stop>
    requires in_order { IfSome before.opened.sealing (λ s. IsInOrder s.settings) }
    requires part { (key : Option (List ℕ)) → SomeKeyAfter change.now.key_file before.key key
        → IsSome (spec.password_after change.now.password (line_seen lines.now.password)
        (line_seen lines.now.more)) ⊎ IsSome key }
    ensures told { (m : FileMap) → reported (F.truthful files.new) (F.files files.old) ≡ Some m
        → Returns opened_seen result (changed_of file.now change.now (lines_seen lines.now)
        before.key (opened_seen before.opened) m) }
    ensures some_file { IfOk result (λ opened. SomeChanged file.now change.now
        (lines_seen lines.now) before.key (opened_seen before.opened) (opened_seen opened)) }
    ensures in_order { IfOk result (λ opened. IfSome opened.sealing (λ s. IsInOrder s.settings)) }
    ensures cause { IfErr result (IsFileStop (new_key_files change.now.key_file)
        (F.faults files.old) (F.faults files.new) (F.absences files.old) (F.absences files.new)) }
    ensures leaves { LeavesFiles F.files F.draft_name F.draft_bytes F.truthful F.faults
        F.absences files.old files.new }
    ensures faultless { OnOk result (F.faults files.new ≡ F.faults files.old) }
{
    let OpenedWithKey { opened, key } = before;
    match new_key(alloc, files, &change.key_file, key) {
        Ok(key) => {
            let password = password_after(change.password, lines);
            let opened = under_key(opened, composite(password, key));
            with_asked(alloc, file, opened, asked_in(change))
        }
        Err(stop) => {
            close(opened);
            Err(stop)
        }
    }
}

/// Opens the database whose file a command changes, with the lines that it asked for, and sets what
/// its file is to be sealed with: the composite key of the parts that are set, or else of those that
/// stay, and the settings that are asked for, or else its own. The composite key must be cleared and
/// released; after a refusal it was. No file is changed.
#[tactic(auto, unfolding(crate::specs::Edited::edited_of))]
pub fn edit_file<F: FileStore>(
    alloc: Global,
    files: &mut F,
    needs: Needs<'_>,
    change: &FileChange,
    lines: &Lines,
) -> Result<Opened, Stop>
    requires key { HasKey needs.access.now }
    requires new_key { HasNewKey needs.access.now change.now }
    requires lines { HasLines (needs_seen needs) (lines_seen lines.now) }
    requires more { needs.has_line ≡ sets_password change.now.password }
    ensures told { (m : FileMap) → reported (F.truthful files.new) (F.files files.old) ≡ Some m
        → Returns opened_seen result
        (edited_of (needs_seen needs.entry) change.now (lines_seen lines.now) m) }
    ensures some_file { IfOk result (λ opened. SomeEdited (needs_seen needs.entry) change.now
        (lines_seen lines.now) (opened_seen opened)) }
    ensures in_order { IfOk result (λ opened. IfSome opened.sealing (λ s. IsInOrder s.settings)) }
    ensures cause { IfErr result (IsFileStop (database_files needs.entry.access.now
        needs.entry.file.now ++ new_key_files change.now.key_file)
        (F.faults files.old) (F.faults files.new) (F.absences files.old) (F.absences files.new)) }
    ensures leaves { LeavesFiles F.files F.draft_name F.draft_bytes F.truthful F.faults
        F.absences files.old files.new }
    ensures faultless { OnOk result (F.faults files.new ≡ F.faults files.old) }
{
    let file = needs.file.as_str();
    let key = key_of(alloc, files, name_in(&needs.access.key_file))?;
    let kept = copy_of(&key);
    match open_sealed(alloc, files, file, bytes_in(&lines.password), key) {
        Ok(opened) => {
            let before = OpenedWithKey { opened, key: kept };
            change_file(alloc, files, file, change, lines, before)
        }
        Err(stop) => {
            give_up(kept);
            Err(stop)
        }
    }
}
