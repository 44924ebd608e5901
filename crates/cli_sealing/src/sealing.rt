//! Sealing a document again under the key that opened its file.
ghost use Rattle.std.specs.Prelude.{◌≡◌, ◌≤◌, ℕ, List, IfErr, IfOk, OnErr, OnOk, Some, true};
ghost use Rattle.outside_core.specs.Counts.{Increased};
ghost use Rattle.outside_core.specs.Reports.{StaysTruthful};
ghost use Rattle.outside_core.specs.Streams.{LosesPrefix};
ghost use Rattle.vault_making.specs.NeededVersion.{later, needed_version};
ghost use Rattle.vault_model.specs.SeenDoc.{doc_seen};
ghost use Rattle.kdbx_frame.specs.Settings.{IsInOrder};
ghost use Rattle.kdbx_seal.specs.KdbxWriting.Draws.{AreDrawn};
ghost use Rattle.cli_messages.specs.Phases.{IsCommandStop, IsFault};
ghost use Rattle.cli_writing.specs.Held.{IsWritten};
ghost use Rattle.cli_writing.specs.Writing.{IsSizeStop, KeepsDraft, KeepsFiles, store};
ghost use Rattle.cli_sealing.specs.Draws.{after_draws, draws_of};
ghost use Rattle.cli_sealing.specs.Held.{HoldsSealed};
ghost use Rattle.cli_sealing.specs.Sealing.{IsUnsealed, Seals, file_by, sealed_file, settings_for};

use cli_messages::{Reason, Stop, refused};
use kdbx_frame::{Sealing, Settings};
use kdbx_seal::{Draws, SealFail, draw, seal_file};
use outside_core::{Dice, DiceFail, FileStore, NoMemory, Text};
use std::alloc::Global;
use vault_making::needed;
use vault_model::{Doc, FileVersion};

// The later of two versions.
fn later_of(one: FileVersion, other: FileVersion) -> FileVersion
    ensures { result ≡ later one other }
{
    match (one, other) {
        (FileVersion::V31, other) => other,
        (FileVersion::V40, FileVersion::V31) => FileVersion::V40,
        (FileVersion::V40, other) => other,
        (FileVersion::V41, _) => FileVersion::V41,
    }
}

// Raises the version of settings to that which a document needs.
fn raise(settings: &mut Settings, doc: &Doc)
    ensures { settings.new ≡ settings_for settings.old (doc_seen doc.now) }
{
    settings.version = later_of(needed(doc), settings.version);
}

// A fault of the store at the file of this name.
fn faulty(alloc: Global, name: &str) -> Stop
    ensures { IsFault result name.now }
{
    match Text::of(alloc, name) {
        Ok(name) => Stop::FileFault(name),
        Err(NoMemory) => Stop::NoMemory,
    }
}

// The stop of a call that could not seal a document as the file of this name.
fn unsealed(alloc: Global, fail: SealFail, name: &str) -> Stop
    ensures is { IsUnsealed fail name.now result }
    ensures size { IsSizeStop result }
{
    match fail {
        SealFail::FileFault => faulty(alloc, name),
        SealFail::NoMemory => Stop::NoMemory,
        SealFail::TooMany(_) => refused(alloc, Reason::TooMany, name),
        SealFail::TooLarge(_) => refused(alloc, Reason::TooLarge, name),
    }
}

// Draws what a file of these settings is sealed with.
fn draw_for<D: Dice>(settings: &Settings, dice: &mut D) -> Result<Draws, DiceFail>
    ensures told { D.truthful dice.new ≡ true
        → (d : List ℕ) → D.stream dice.old ≡ Some d
        → IfOk result (λ draws. (draws ≡ draws_of settings.now d)
        × (D.stream dice.new ≡ Some (after_draws settings.now d))) }
    ensures drawn { IfOk result (λ draws. AreDrawn settings.now draws) }
    ensures stream { LosesPrefix (D.stream dice.old) (D.stream dice.new) }
    ensures dice_truthful { StaysTruthful (D.truthful dice.old) (D.truthful dice.new) }
    ensures cause { IfErr result (λ _. Increased (D.faults dice.old) (D.faults dice.new)) }
    ensures faultless { OnOk result (D.faults dice.new ≡ D.faults dice.old) }
{
    match draw(settings, dice) {
        Ok(draws) => Ok(draws),
        Err(fail) => Err(fail),
    }
}

// Writes a document sealed by settings whose version it may have.
fn seal<F: FileStore, D: Dice>(
    alloc: Global,
    files: &mut F,
    dice: &mut D,
    name: &str,
    doc: &Doc,
    sealing: &Sealing,
) -> Result<(), Stop>
    requires in_order { IsInOrder sealing.now.settings }
    requires needed { later (needed_version (doc_seen doc.now)) sealing.now.settings.version
        ≡ sealing.now.settings.version }
    ensures told { D.truthful dice.new ≡ true
        → (d : List ℕ) → D.stream dice.old ≡ Some d → Seals result
        (file_by name.now sealing.now.settings sealing.now.composite (doc_seen doc.now) d)
        (store (F.files files.old) (F.draft_name files.old) (F.draft_bytes files.old))
        (store (F.files files.new) (F.draft_name files.new) (F.draft_bytes files.new))
        (D.stream dice.new) }
    ensures held { OnOk result (IsWritten (HoldsSealed sealing.now.settings
        sealing.now.composite (doc_seen doc.now)) name.now
        (store (F.files files.old) (F.draft_name files.old) (F.draft_bytes files.old))
        (store (F.files files.new) (F.draft_name files.new) (F.draft_bytes files.new))) }
    ensures kept { OnErr result (KeepsFiles
        (store (F.files files.old) (F.draft_name files.old) (F.draft_bytes files.old))
        (store (F.files files.new) (F.draft_name files.new) (F.draft_bytes files.new))) }
    ensures draft { KeepsDraft
        (store (F.files files.old) (F.draft_name files.old) (F.draft_bytes files.old))
        (store (F.files files.new) (F.draft_name files.new) (F.draft_bytes files.new)) }
    ensures files_truthful { StaysTruthful (F.truthful files.old) (F.truthful files.new) }
    ensures stream { LosesPrefix (D.stream dice.old) (D.stream dice.new) }
    ensures dice_truthful { StaysTruthful (D.truthful dice.old) (D.truthful dice.new) }
    ensures cause { IfErr result (IsCommandStop name.now (F.faults files.old) (F.faults files.new)
        (D.faults dice.old) (D.faults dice.new)) }
    ensures size { IfErr result IsSizeStop }
    ensures faultless { OnOk result ((F.faults files.new ≡ F.faults files.old)
        × (D.faults dice.new ≡ D.faults dice.old)) }
{
    let draws = match draw_for(&sealing.settings, dice) {
        Ok(draws) => draws,
        Err(_) => return Err(Stop::InputFault),
    };
    match seal_file(
        alloc,
        doc,
        &sealing.settings,
        &sealing.composite,
        draws,
        files,
        name,
    ) {
        Ok(()) => Ok(()),
        Err(fail) => Err(unsealed(alloc, fail, name)),
    }
}

/// Writes a document sealed into the file of this name, whole or not at all, under the composite
/// key that is lent. The version of the settings is raised where the document needs that.
///
/// At Ok the file opens under the same key to this document, with settings that are these but for
/// the seed or salt of the key derivation, which is drawn anew.
pub fn write_sealed<F: FileStore, D: Dice>(
    alloc: Global,
    files: &mut F,
    dice: &mut D,
    name: &str,
    doc: &Doc,
    sealing: &mut Sealing,
) -> Result<(), Stop>
    requires { IsInOrder sealing.old.settings }
    ensures told { D.truthful dice.new ≡ true
        → (d : List ℕ) → D.stream dice.old ≡ Some d → Seals result
        (sealed_file name.now sealing.old.settings sealing.old.composite (doc_seen doc.now) d)
        (store (F.files files.old) (F.draft_name files.old) (F.draft_bytes files.old))
        (store (F.files files.new) (F.draft_name files.new) (F.draft_bytes files.new))
        (D.stream dice.new) }
    ensures held { OnOk result (IsWritten (HoldsSealed
        (settings_for sealing.old.settings (doc_seen doc.now)) sealing.old.composite
        (doc_seen doc.now)) name.now
        (store (F.files files.old) (F.draft_name files.old) (F.draft_bytes files.old))
        (store (F.files files.new) (F.draft_name files.new) (F.draft_bytes files.new))) }
    ensures kept { OnErr result (KeepsFiles
        (store (F.files files.old) (F.draft_name files.old) (F.draft_bytes files.old))
        (store (F.files files.new) (F.draft_name files.new) (F.draft_bytes files.new))) }
    ensures draft { KeepsDraft
        (store (F.files files.old) (F.draft_name files.old) (F.draft_bytes files.old))
        (store (F.files files.new) (F.draft_name files.new) (F.draft_bytes files.new)) }
    ensures files_truthful { StaysTruthful (F.truthful files.old) (F.truthful files.new) }
    ensures stream { LosesPrefix (D.stream dice.old) (D.stream dice.new) }
    ensures dice_truthful { StaysTruthful (D.truthful dice.old) (D.truthful dice.new) }
    ensures cause { IfErr result (IsCommandStop name.now (F.faults files.old) (F.faults files.new)
        (D.faults dice.old) (D.faults dice.new)) }
    ensures size { IfErr result IsSizeStop }
    ensures composite { sealing.new.composite ≡ sealing.old.composite }
    ensures settings { sealing.new.settings
        ≡ settings_for sealing.old.settings (doc_seen doc.now) }
    ensures faultless { OnOk result ((F.faults files.new ≡ F.faults files.old)
        × (D.faults dice.new ≡ D.faults dice.old)) }
{
    raise(&mut sealing.settings, doc);
    seal(alloc, files, dice, name, doc, sealing)
}
