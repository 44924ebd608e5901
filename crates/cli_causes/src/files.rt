//! Finding what is wrong in what is said of the key and the settings of a file.
ghost use Rattle.std.specs.Prelude.{◌≡◌, IfOk};
ghost use Rattle.cli_causes.specs.Files as spec;
ghost use Rattle.cli_options.specs.Said.{text_of};
ghost use Rattle.cli_options.specs.SaidWords.{said_seen, text_seen};

use crate::cause::Cause;
use cli_needs::KdfKind;
use cli_options::{
    CommandName, CommandOption, SaidWords, is_fit_change, is_given, number_of, text_of,
};
use cli_parse::{cipher_named, has_file_change, is_argon, kdf_named, version_named};
use outside_core::{NoMemory, Text};
use std::alloc::Global;

// A cipher that is unknown.
fn cipher_cause(alloc: Global, name: Option<&str>) -> Result<Option<Cause>, NoMemory>
    ensures { IfOk result (λ cause. cause ≡ spec.cipher_cause (text_seen name.entry)) }
{
    match name {
        Some(name) if cipher_named(name).is_none() => {
            Ok(Some(Cause::UnknownCipher(Text::of(alloc, name)?)))
        }
        _ => Ok(None),
    }
}

// A version that is unknown.
fn version_cause(alloc: Global, name: Option<&str>) -> Result<Option<Cause>, NoMemory>
    ensures { IfOk result (λ cause. cause ≡ spec.version_cause (text_seen name.entry)) }
{
    match name {
        Some(name) if version_named(name).is_none() => {
            Ok(Some(Cause::UnknownVersion(Text::of(alloc, name)?)))
        }
        _ => Ok(None),
    }
}

// A cost that is no number of one to ten digits.
fn cost_cause(
    alloc: Global,
    option: CommandOption,
    text: Option<&str>,
) -> Result<Option<Cause>, NoMemory>
    ensures { IfOk result (λ cause. cause ≡ spec.cost_cause option (text_seen text.entry)) }
{
    match text {
        Some(text) if number_of(10, text).is_none() => {
            Ok(Some(Cause::UnknownCost(option, Text::of(alloc, text)?)))
        }
        _ => Ok(None),
    }
}

// A cost of an option that is given and no such number.
fn given_cost_cause(
    alloc: Global,
    said: &SaidWords<'_, '_>,
    option: CommandOption,
) -> Result<Option<Cause>, NoMemory>
    ensures { IfOk result (λ cause. cause
        ≡ spec.cost_cause option (text_of option (said_seen said.now))) }
{
    cost_cause(alloc, option, text_of(said, option))
}

// The first cost that is no such number.
fn costs_cause(alloc: Global, said: &SaidWords<'_, '_>) -> Result<Option<Cause>, NoMemory>
    ensures { IfOk result (λ cause. cause ≡ spec.costs_cause (said_seen said.now)) }
{
    if let Some(cause) = given_cost_cause(alloc, said, CommandOption::Rounds)? {
        return Ok(Some(cause));
    }
    match given_cost_cause(alloc, said, CommandOption::Memory)? {
        Some(cause) => Ok(Some(cause)),
        None => given_cost_cause(alloc, said, CommandOption::Lanes),
    }
}

// A cost that only Argon2 has.
fn argon_cause(said: &SaidWords<'_, '_>) -> Option<Cause>
    ensures { result ≡ spec.argon_cause (said_seen said.now) }
{
    if is_given(said, CommandOption::Memory) {
        Some(Cause::NeedsArgon(CommandOption::Memory))
    } else if is_given(said, CommandOption::Lanes) {
        Some(Cause::NeedsArgon(CommandOption::Lanes))
    } else {
        None
    }
}

// A cost that a derivation of this kind does not have, or that is no number.
fn kind_cause(
    alloc: Global,
    said: &SaidWords<'_, '_>,
    kind: KdfKind,
) -> Result<Option<Cause>, NoMemory>
    ensures { IfOk result (λ cause. cause ≡ spec.kind_cause (said_seen said.now) kind) }
{
    if is_argon(kind) {
        return costs_cause(alloc, said);
    }
    match argon_cause(said) {
        Some(cause) => Ok(Some(cause)),
        None => costs_cause(alloc, said),
    }
}

// A cost, where no derivation is named.
fn no_kdf_cause(said: &SaidWords<'_, '_>) -> Option<Cause>
    ensures { result ≡ spec.no_kdf_cause (said_seen said.now) }
{
    if is_given(said, CommandOption::Rounds) {
        Some(Cause::NeedsKdf(CommandOption::Rounds))
    } else if is_given(said, CommandOption::Memory) {
        Some(Cause::NeedsKdf(CommandOption::Memory))
    } else if is_given(said, CommandOption::Lanes) {
        Some(Cause::NeedsKdf(CommandOption::Lanes))
    } else {
        None
    }
}

// A derivation that is unknown, or a cost that does not fit the one that is named.
fn kdf_cause(
    alloc: Global,
    said: &SaidWords<'_, '_>,
    name: Option<&str>,
) -> Result<Option<Cause>, NoMemory>
    ensures { IfOk result (λ cause. cause
        ≡ spec.kdf_cause (said_seen said.now) (text_seen name.entry)) }
{
    let Some(name) = name else {
        return Ok(no_kdf_cause(said));
    };
    match kdf_named(name) {
        Some(kind) => kind_cause(alloc, said, kind),
        None => Ok(Some(Cause::UnknownKdf(Text::of(alloc, name)?))),
    }
}

// A cipher or a derivation that is unknown, or a cost that does not fit.
fn settings_cause(alloc: Global, said: &SaidWords<'_, '_>) -> Result<Option<Cause>, NoMemory>
    ensures { IfOk result (λ cause. cause ≡ spec.settings_cause (said_seen said.now)) }
{
    match cipher_cause(alloc, text_of(said, CommandOption::Cipher))? {
        Some(cause) => Ok(Some(cause)),
        None => kdf_cause(alloc, said, text_of(said, CommandOption::Kdf)),
    }
}

/// What opens the new database of this command does not fit it.
pub(crate) fn new_key_cause(command: CommandName, said: &SaidWords<'_, '_>) -> Option<Cause>
    ensures { result ≡ spec.new_key_cause command (said_seen said.now) }
{
    let has_password = is_given(said, CommandOption::SetPassword);
    let has_key_file = is_given(said, CommandOption::SetKeyFile);
    if is_given(said, CommandOption::Plain) {
        if has_password {
            Some(Cause::NotWithPlain(CommandOption::SetPassword))
        } else if has_key_file {
            Some(Cause::NotWithPlain(CommandOption::SetKeyFile))
        } else {
            None
        }
    } else if has_password || has_key_file {
        None
    } else {
        Some(Cause::NoNewKey(command))
    }
}

// A new plain document is given a setting.
fn plain_settings_cause(said: &SaidWords<'_, '_>) -> Option<Cause>
    ensures { result ≡ spec.plain_settings_cause (said_seen said.now) }
{
    let plain = is_given(said, CommandOption::Plain);
    if plain && is_given(said, CommandOption::Cipher) {
        Some(Cause::NotTogether(CommandOption::Cipher, CommandOption::Plain))
    } else if plain && is_given(said, CommandOption::Kdf) {
        Some(Cause::NotTogether(CommandOption::Kdf, CommandOption::Plain))
    } else {
        None
    }
}

/// What is said of a database that is created does not fit together.
pub(crate) fn create_cause(
    alloc: Global,
    said: &SaidWords<'_, '_>,
) -> Result<Option<Cause>, NoMemory>
    ensures { IfOk result (λ cause. cause ≡ spec.create_cause (said_seen said.now)) }
{
    if let Some(cause) = new_key_cause(CommandName::Create, said) {
        return Ok(Some(cause));
    }
    match plain_settings_cause(said) {
        Some(cause) => Ok(Some(cause)),
        None => settings_cause(alloc, said),
    }
}

// A part of the key is both set and unset, or none is left.
fn key_change_cause(said: &SaidWords<'_, '_>) -> Option<Cause>
    ensures { result ≡ spec.key_change_cause (said_seen said.now) }
{
    let password = is_given(said, CommandOption::SetPassword);
    let key_file = is_given(said, CommandOption::SetKeyFile);
    if password && is_given(said, CommandOption::UnsetPassword) {
        Some(Cause::NotTogether(CommandOption::SetPassword, CommandOption::UnsetPassword))
    } else if key_file && is_given(said, CommandOption::UnsetKeyFile) {
        Some(Cause::NotTogether(CommandOption::SetKeyFile, CommandOption::UnsetKeyFile))
    } else if is_fit_change(said) {
        None
    } else {
        Some(Cause::NoKeyLeft)
    }
}

// Nothing is given that changes a file.
fn file_change_cause(said: &SaidWords<'_, '_>) -> Option<Cause>
    ensures { result ≡ spec.file_change_cause (said_seen said.now) }
{
    if has_file_change(said) {
        None
    } else if is_given(said, CommandOption::KeyFile) {
        Some(Cause::KeyFileChangesNothing)
    } else {
        Some(Cause::NoFileChange)
    }
}

/// What is said of a file that is changed does not fit together.
pub(crate) fn edit_file_cause(
    alloc: Global,
    said: &SaidWords<'_, '_>,
) -> Result<Option<Cause>, NoMemory>
    ensures { IfOk result (λ cause. cause ≡ spec.edit_file_cause (said_seen said.now)) }
{
    if let Some(cause) = key_change_cause(said) {
        return Ok(Some(cause));
    }
    if let Some(cause) = settings_cause(alloc, said)? {
        return Ok(Some(cause));
    }
    match version_cause(alloc, text_of(said, CommandOption::FileVersion))? {
        Some(cause) => Ok(Some(cause)),
        None => Ok(file_change_cause(said)),
    }
}
