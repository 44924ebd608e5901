//! The settings that words ask for.
ghost use Rattle.std.specs.Prelude.{◌≡◌, ◌*◌, [], IfErr, IfOk, IfSome, Some, replicate};
ghost use Rattle.vault_model.specs.SeenDoc.{doc_seen};
ghost use Rattle.kdbx_frame.specs.Settings.{IsInOrder};
ghost use Rattle.cli_messages.specs.Phases.{IsPlainStop, Returns};
ghost use Rattle.cli_databases.specs.CliFiles.SeenOpened.{opened_seen};
ghost use Rattle.cli_resealing.specs.Asked as spec;
ghost use Rattle.cli_resealing.specs.Asked.{AsksFor, IsOrPasses, StandsFor, asked_settings, derivation_of, resealed, with_resealed};

use argon_core::ArgonKind;
use cli_databases::cli_files::Opened;
use cli_messages::{NeededVersion, Reason, Stop, refused};
use cli_needs::{KdfAsked, KdfKind};
use kdbx_frame::{Cipher, FileVersion, Sealing, release_key};
use kdbx_settings::{SettingsChange, SettingsFail, change_settings};
use key_core::Kdf;
use outside_core::{Bytes, List, NoMemory};
use std::alloc::Global;
use vault_making::needed;
use vault_model::Doc;

/// The settings that words ask for, each where it is asked for.
#[derive(Clone, Copy)]
pub(crate) struct AskedSettings {
    /// The cipher of the content.
    pub(crate) cipher: Option<Cipher>,
    /// How the key is derived.
    pub(crate) kdf: Option<KdfAsked>,
    /// The version of the format.
    pub(crate) version: Option<FileVersion>,
}

// A salt that is drawn as the file is written.
fn undrawn_salt(alloc: Global) -> Result<Bytes, NoMemory>
    ensures { IfOk result (λ salt. salt ≡ replicate 32 0) }
{
    let mut salt = Bytes::new(alloc);
    match salt.add(&[0; 32]) {
        Ok(()) => Ok(salt),
        Err(fail) => {
            drop(salt);
            Err(fail)
        }
    }
}

// A memory in KiB, in bytes. Where they do not fit their type, the greatest number that does stands
// for it, which is out of its limit too.
fn memory_of(kib: u64) -> u64
    ensures { IsOrPasses 1_073_741_824 result (1024 * kib) }
{
    match kib.checked_mul(1024) {
        Some(bytes) => bytes,
        None => u64::MAX,
    }
}

// Lanes. Where they do not fit their type, the greatest number that does stands for them, which is
// out of its limit too.
fn lanes_of(lanes: u64) -> u32
    ensures { IsOrPasses 1024 result lanes }
{
    match u32::try_from(lanes) {
        Ok(lanes) => lanes,
        Err(_) => u32::MAX,
    }
}

// Argon2 of this kind with the costs that are asked for.
#[tactic(auto, using(crate::proofs::Costs::stands_argon))]
fn argon(alloc: Global, kind: ArgonKind, asked: KdfAsked) -> Result<Kdf, NoMemory>
    ensures { IfOk result (λ kdf. StandsFor kdf
        (spec.argon_of kind asked.rounds asked.kib asked.lanes)) }
{
    let salt = undrawn_salt(alloc)?;
    Ok(Kdf::Argon {
        kind,
        passes: asked.rounds,
        bytes: memory_of(asked.kib),
        lanes: lanes_of(asked.lanes),
        salt,
    })
}

// The key derivation that is asked for.
fn derivation(alloc: Global, asked: KdfAsked) -> Result<Kdf, NoMemory>
    ensures { IfOk result (λ kdf. StandsFor kdf (derivation_of asked)) }
{
    match asked.kind {
        KdfKind::Aes => Ok(Kdf::Aes {
            rounds: asked.rounds,
            seed: [0; 32],
        }),
        KdfKind::Argon2d => argon(alloc, ArgonKind::D, asked),
        KdfKind::Argon2id => argon(alloc, ArgonKind::Id, asked),
    }
}

// The settings that are asked for, as a change of settings.
fn change_of(alloc: Global, asked: AskedSettings) -> Result<SettingsChange, NoMemory>
    ensures { IfOk result (λ change. AsksFor change
        (asked_settings asked.cipher asked.kdf asked.version)) }
{
    let kdf = match asked.kdf {
        Some(asked) => Some(derivation(alloc, asked)?),
        None => None,
    };
    Ok(SettingsChange {
        cipher: asked.cipher,
        kdf,
        version: asked.version,
    })
}

// The answer that a refusal of settings is.
fn settings_answer(fail: SettingsFail) -> Reason
    ensures { result ≡ spec.settings_answer fail }
{
    match fail {
        SettingsFail::NeedsVersion(FileVersion::V41) => Reason::NeedsVersion(NeededVersion::V41),
        SettingsFail::NeedsVersion(_) => Reason::NeedsVersion(NeededVersion::V40),
        SettingsFail::KdfLimit => Reason::KdfLimit,
    }
}

// Changes what the file of a document is sealed with to the settings that are asked for. After a
// refusal the composite key is the one of before.
#[tactic(auto, using(crate::proofs::Costs::settled_as, crate::proofs::Costs::refused_as))]
fn reseal(
    alloc: Global,
    file: &str,
    doc: &Doc,
    sealing: &mut Sealing,
    asked: AskedSettings,
) -> Result<(), Stop>
    requires { IsInOrder sealing.old.settings }
    ensures told { Returns (λ _. Some sealing.new) result (resealed file.now
        (asked_settings asked.cipher asked.kdf asked.version) (doc_seen doc.now)
        (Some sealing.old)) }
    ensures in_order { IsInOrder sealing.new.settings }
    ensures cause { IfErr result IsPlainStop }
{
    let change = change_of(alloc, asked)?;
    match change_settings(&mut sealing.settings, change, needed(doc)) {
        Ok(()) => Ok(()),
        Err(fail) => Err(refused(alloc, settings_answer(fail), file)),
    }
}

/// Lets a database go that was opened, whose composite key is cleared and released.
pub(crate) fn close(opened: Opened) {
    let Opened {
        doc,
        sealing,
        passed_over,
    } = opened;
    drop(doc);
    drop(passed_over);
    release_key(sealing);
}

// A document whose file is to be sealed by the settings that are asked for.
fn sealed_as(
    alloc: Global,
    file: &str,
    doc: Doc,
    mut sealing: Sealing,
    asked: AskedSettings,
) -> Result<Opened, Stop>
    requires { IsInOrder sealing.settings }
    ensures told { Returns opened_seen result (with_resealed file.now
        (asked_settings asked.cipher asked.kdf asked.version)
        (record { doc = doc_seen doc; sealing = Some sealing; passed_over = [] })) }
    ensures in_order { IfOk result (λ opened. IfSome opened.sealing (λ s. IsInOrder s.settings)) }
    ensures cause { IfErr result IsPlainStop }
{
    match reseal(alloc, file, &doc, &mut sealing, asked) {
        Ok(()) => Ok(Opened {
            doc,
            sealing: Some(sealing),
            passed_over: List::new(alloc),
        }),
        Err(stop) => {
            drop(doc);
            release_key(Some(sealing));
            Err(stop)
        }
    }
}

/// A database whose file is to be sealed by the settings that are asked for. A plain document is not
/// sealed.
pub(crate) fn with_asked(
    alloc: Global,
    file: &str,
    opened: Opened,
    asked: AskedSettings,
) -> Result<Opened, Stop>
    requires { IfSome opened.sealing (λ s. IsInOrder s.settings) }
    ensures told { Returns opened_seen result (with_resealed file.now
        (asked_settings asked.cipher asked.kdf asked.version) (opened_seen opened)) }
    ensures in_order { IfOk result (λ opened. IfSome opened.sealing (λ s. IsInOrder s.settings)) }
    ensures cause { IfErr result IsPlainStop }
{
    let Opened {
        doc,
        sealing,
        passed_over,
    } = opened;
    drop(passed_over);
    match sealing {
        Some(sealing) => sealed_as(alloc, file, doc, sealing, asked),
        None => Ok(Opened {
            doc,
            sealing: None,
            passed_over: List::new(alloc),
        }),
    }
}
