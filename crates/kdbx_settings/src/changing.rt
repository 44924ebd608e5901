//! Settings changed in place.
ghost use Rattle.std.specs.Prelude.{◌≡◌, IfOk, OnErr};
ghost use Rattle.kdbx_frame.specs.Settings.{IsInOrder};
ghost use Rattle.vault_making.specs.NeededVersion as making;
ghost use Rattle.kdbx_settings.specs.Changed as spec;
ghost use Rattle.kdbx_settings.specs.Changed.{IsChanged, changed_settings, with_change};

use kdbx_frame::{Cipher, FileVersion, Settings};
use key_core::{Kdf, check_kdf};
use outside_core::Bytes;

/// What a file's settings are changed to, each where it is asked for.
#[derive(Drop)]
pub struct SettingsChange {
    /// The cipher of the content.
    pub cipher: Option<Cipher>,
    /// The key derivation, whose seed or salt is drawn as the file is written.
    pub kdf: Option<Kdf>,
    /// The version of the format.
    pub version: Option<FileVersion>,
}

/// Why settings are not changed.
#[derive(Clone, Copy)]
pub enum SettingsFail {
    /// The version that is asked for is earlier than this one, which the file needs.
    NeedsVersion(FileVersion),
    /// A number of the key derivation is out of its limits.
    KdfLimit,
}

// The later of two versions.
fn later(one: FileVersion, other: FileVersion) -> FileVersion
    ensures { result ≡ making.later one other }
{
    if one < other { other } else { one }
}

// The earliest version that a file can have with this key derivation and this public data, and a
// document that needs this version.
fn earliest_version(kdf: &Kdf, public: &Option<Bytes>, needed: FileVersion) -> FileVersion
    ensures { result ≡ spec.earliest_version kdf.now public.now needed }
{
    let argon = matches!(kdf, Kdf::Argon { .. });
    if argon || public.is_some() {
        later(needed, FileVersion::V40)
    } else {
        needed
    }
}

// The version of a file: the one that is asked for, or else that of before, raised to the earliest.
fn changed_version(
    asked: Option<FileVersion>,
    before: FileVersion,
    earliest: FileVersion,
) -> Result<FileVersion, SettingsFail>
    ensures { result ≡ spec.changed_version asked before earliest }
{
    match asked {
        None => Ok(later(earliest, before)),
        Some(asked) if asked < earliest => Err(SettingsFail::NeedsVersion(earliest)),
        Some(asked) => Ok(asked),
    }
}

// The version of a file whose settings are changed, or the refusal of the change.
#[tactic(auto, unfolding(crate::specs::Changed::version_after), using(crate::proofs::Orders::ordered))]
fn version_of(
    settings: &Settings,
    change: &SettingsChange,
    needed: FileVersion,
) -> Result<FileVersion, SettingsFail>
    requires { IsInOrder settings.now }
    ensures told { result ≡ spec.version_after change.now settings.now needed }
    ensures in_order { IfOk result (λ version.
        IsInOrder (with_change change.now settings.now version)) }
{
    let kdf = match &change.kdf {
        Some(kdf) => kdf,
        None => &settings.kdf,
    };
    let earliest = earliest_version(kdf, &settings.public, needed);
    let version = changed_version(change.version, settings.version, earliest)?;
    match check_kdf(kdf) {
        Ok(()) => Ok(version),
        Err(_) => Err(SettingsFail::KdfLimit),
    }
}

/// Changes the settings of a file whose document needs this version; a refusal changes nothing.
pub fn change_settings(
    settings: &mut Settings,
    change: SettingsChange,
    needed: FileVersion,
) -> Result<(), SettingsFail>
    requires { IsInOrder settings.old }
    ensures told { IsChanged result settings.new (changed_settings change settings.old needed) }
    ensures err { OnErr result (settings.new ≡ settings.old) }
    ensures in_order { IsInOrder settings.new }
{
    let version = match version_of(settings, &change, needed) {
        Ok(version) => version,
        Err(fail) => {
            drop(change);
            return Err(fail);
        }
    };
    settings.version = version;
    if let Some(cipher) = change.cipher {
        settings.cipher = cipher;
    }
    if let Some(kdf) = change.kdf {
        settings.kdf = kdf;
    }
    Ok(())
}
