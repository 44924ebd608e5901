//! The settings of a file that words ask for.
ghost use Rattle.std.specs.Prelude.{◌≡◌, IfOk};
ghost use Rattle.cli_options.specs.SaidWords.{Gives, said_seen, text_seen};
ghost use Rattle.cli_parse.specs.Settings as spec;

use cli_needs::kdbx_frame::{Cipher, FileVersion};
use cli_needs::{FileChange, KdfAsked, KdfKind, KeyFileChange, PasswordChange};
use cli_options::{CommandOption, SaidWords, WordsFail, is_given, number_of, text_of};
use outside_core::{NoMemory, Text};
use std::alloc::Global;

/// The cipher of a name.
pub fn cipher_named(name: &str) -> Option<Cipher>
    ensures { result ≡ spec.cipher_named name.now }
{
    match name {
        "aes" => Some(Cipher::Aes),
        "twofish" => Some(Cipher::Twofish),
        "chacha20" => Some(Cipher::ChaCha),
        _ => None,
    }
}

/// The cipher that is asked for, where one is.
pub(crate) fn cipher_in(said: &SaidWords<'_, '_>) -> Result<Option<Cipher>, WordsFail>
    ensures { Gives (λ cipher. cipher) result (spec.cipher_in (said_seen said.now)) }
{
    let Some(name) = text_of(said, CommandOption::Cipher) else {
        return Ok(None);
    };
    match cipher_named(name) {
        Some(cipher) => Ok(Some(cipher)),
        None => Err(WordsFail::Wrong),
    }
}

/// The version of the format of a name.
pub fn version_named(name: &str) -> Option<FileVersion>
    ensures { result ≡ spec.version_named name.now }
{
    match name {
        "3.1" => Some(FileVersion::V31),
        "4.0" => Some(FileVersion::V40),
        "4.1" => Some(FileVersion::V41),
        _ => None,
    }
}

// The version that is asked for, where one is.
fn version_in(said: &SaidWords<'_, '_>) -> Result<Option<FileVersion>, WordsFail>
    ensures { Gives (λ version. version) result (spec.version_in (said_seen said.now)) }
{
    let Some(name) = text_of(said, CommandOption::FileVersion) else {
        return Ok(None);
    };
    match version_named(name) {
        Some(version) => Ok(Some(version)),
        None => Err(WordsFail::Wrong),
    }
}

/// The kind of a key derivation of a name.
pub fn kdf_named(name: &str) -> Option<KdfKind>
    ensures { result ≡ spec.kdf_named name.now }
{
    match name {
        "aes" => Some(KdfKind::Aes),
        "argon2d" => Some(KdfKind::Argon2d),
        "argon2id" => Some(KdfKind::Argon2id),
        _ => None,
    }
}

/// Reports whether a kind is one of Argon2, which has memory and lanes.
pub fn is_argon(kind: KdfKind) -> bool
    ensures { result ≡ spec.is_argon kind }
{
    !matches!(&kind, KdfKind::Aes)
}

// The rounds of AES or the passes of Argon2 where none are named.
fn usual_rounds(kind: KdfKind) -> u64
    ensures { result ≡ spec.usual_rounds kind }
{
    if is_argon(kind) { 10 } else { 100_000 }
}

// The cost that a text of one to ten digits is, or the usual one where there is no text.
fn cost_or(usual: u64, text: Option<&str>) -> Option<u64>
    ensures { result ≡ spec.cost_or usual (text_seen text.entry) }
{
    match text {
        Some(text) => number_of(10, text),
        None => Some(usual),
    }
}

/// Reports whether a cost is named that only Argon2 has.
pub fn has_argon_cost(said: &SaidWords<'_, '_>) -> bool
    ensures { result ≡ spec.has_argon_cost (said_seen said.now) }
{
    is_given(said, CommandOption::Memory) || is_given(said, CommandOption::Lanes)
}

// A derivation of this kind with these costs, if each of them is one.
fn kdf_with(
    kind: KdfKind,
    rounds: Option<u64>,
    kib: Option<u64>,
    lanes: Option<u64>,
) -> Option<KdfAsked>
    ensures { result ≡ spec.kdf_with kind rounds kib lanes }
{
    Some(KdfAsked {
        kind,
        rounds: rounds?,
        kib: kib?,
        lanes: lanes?,
    })
}

// The derivation of this kind that is asked for, if it has what is named.
fn kdf_of(said: &SaidWords<'_, '_>, kind: KdfKind) -> Option<KdfAsked>
    ensures { result ≡ spec.kdf_of (said_seen said.now) kind }
{
    if has_argon_cost(said) && !is_argon(kind) {
        return None;
    }
    let rounds = cost_or(usual_rounds(kind), text_of(said, CommandOption::Rounds));
    let kib = cost_or(65_536, text_of(said, CommandOption::Memory));
    let lanes = cost_or(2, text_of(said, CommandOption::Lanes));
    kdf_with(kind, rounds, kib, lanes)
}

// The derivation of a name that is asked for.
fn kdf_by(said: &SaidWords<'_, '_>, name: &str) -> Option<KdfAsked>
    ensures { result ≡ spec.kdf_by (said_seen said.now) name.now }
{
    match kdf_named(name) {
        Some(kind) => kdf_of(said, kind),
        None => None,
    }
}

/// The derivation that is asked for, where one is.
pub(crate) fn kdf_in(said: &SaidWords<'_, '_>) -> Result<Option<KdfAsked>, WordsFail>
    ensures { Gives (λ kdf. kdf) result (spec.kdf_in (said_seen said.now)) }
{
    match text_of(said, CommandOption::Kdf) {
        Some(name) => match kdf_by(said, name) {
            Some(kdf) => Ok(Some(kdf)),
            None => Err(WordsFail::Wrong),
        },
        None if is_given(said, CommandOption::Rounds) || has_argon_cost(said) => {
            Err(WordsFail::Wrong)
        }
        None => Ok(None),
    }
}

// What becomes of the password.
fn password_change(said: &SaidWords<'_, '_>) -> PasswordChange
    ensures { result ≡ spec.password_change (said_seen said.now) }
{
    if is_given(said, CommandOption::SetPassword) {
        PasswordChange::Set
    } else if is_given(said, CommandOption::UnsetPassword) {
        PasswordChange::Unset
    } else {
        PasswordChange::Keep
    }
}

// What becomes of the key file.
fn key_file_change(alloc: Global, said: &SaidWords<'_, '_>) -> Result<KeyFileChange, NoMemory>
    ensures { IfOk result (λ change. change ≡ spec.key_file_change (said_seen said.now)) }
{
    match text_of(said, CommandOption::SetKeyFile) {
        Some(name) => Ok(KeyFileChange::Set(Text::of(alloc, name)?)),
        None if is_given(said, CommandOption::UnsetKeyFile) => Ok(KeyFileChange::Unset),
        None => Ok(KeyFileChange::Keep),
    }
}

/// Reports whether a part of the key is set or unset, or a setting is named.
pub fn has_file_change(said: &SaidWords<'_, '_>) -> bool
    ensures { result ≡ spec.has_file_change (said_seen said.now) }
{
    is_given(said, CommandOption::SetPassword)
        || is_given(said, CommandOption::UnsetPassword)
        || is_given(said, CommandOption::SetKeyFile)
        || is_given(said, CommandOption::UnsetKeyFile)
        || is_given(said, CommandOption::Cipher)
        || is_given(said, CommandOption::Kdf)
        || is_given(said, CommandOption::FileVersion)
}

/// The change of a file that is asked for.
pub(crate) fn change_in(alloc: Global, said: &SaidWords<'_, '_>) -> Result<FileChange, WordsFail>
    ensures { Gives (λ change. change) result (spec.change_in (said_seen said.now)) }
{
    let cipher = cipher_in(said)?;
    let kdf = kdf_in(said)?;
    let version = version_in(said)?;
    Ok(FileChange {
        password: password_change(said),
        key_file: key_file_change(alloc, said)?,
        cipher,
        kdf,
        version,
    })
}
