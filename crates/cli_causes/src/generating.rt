//! Finding what is wrong in what is said of a generated password, and of a test.
ghost use Rattle.std.specs.Prelude.{◌≡◌, IfOk};
ghost use Rattle.cli_causes.specs.Causes as spec;
ghost use Rattle.cli_profiles.specs.Profiles.{alphabet_of};
ghost use Rattle.cli_options.specs.SaidWords.{said_seen, text_seen};

use crate::cause::Cause;
use cli_options::{CommandOption, SaidWords, is_given, text_of};
use cli_profiles::{alphabet_of, length_named};
use cli_standalone::test_count;
use outside_core::{NoMemory, Text};
use std::alloc::Global;

// A length that no password has.
fn length_cause(alloc: Global, text: Option<&str>) -> Result<Option<Cause>, NoMemory>
    ensures { IfOk result (λ cause. cause ≡ spec.length_cause (text_seen text.entry)) }
{
    match text {
        Some(text) if length_named(text).is_none() => {
            Ok(Some(Cause::UnknownLength(Text::of(alloc, text)?)))
        }
        _ => Ok(None),
    }
}

/// A number of entries that no test has.
pub(crate) fn test_cause(alloc: Global, positions: &[Text]) -> Result<Option<Cause>, NoMemory>
    ensures { IfOk result (λ cause. cause ≡ spec.test_cause positions.now) }
{
    match positions {
        [text] if test_count(text.as_str()).is_none() => {
            Ok(Some(Cause::UnknownCount(Text::of(alloc, text.as_str())?)))
        }
        _ => Ok(None),
    }
}

// No character is left.
fn alphabet_cause(alphabet: &str) -> Option<Cause>
    ensures { result ≡ spec.alphabet_cause alphabet.now }
{
    match alphabet.as_bytes() {
        [] => Some(Cause::NoCharacters),
        _ => None,
    }
}

// No character is left of those that are asked for.
fn characters_cause(alloc: Global, said: &SaidWords<'_, '_>) -> Result<Option<Cause>, NoMemory>
    ensures { IfOk result (λ cause. cause
        ≡ spec.alphabet_cause (alphabet_of (said_seen said.now))) }
{
    let alphabet = alphabet_of(alloc, said)?;
    let cause = alphabet_cause(alphabet.as_str());
    drop(alphabet);
    Ok(cause)
}

/// What is said of a generated password is none of a password.
pub(crate) fn profile_cause(
    alloc: Global,
    said: &SaidWords<'_, '_>,
) -> Result<Option<Cause>, NoMemory>
    ensures { IfOk result (λ cause. cause ≡ spec.profile_cause (said_seen said.now)) }
{
    match length_cause(alloc, text_of(said, CommandOption::Length))? {
        Some(cause) => Ok(Some(cause)),
        None => characters_cause(alloc, said),
    }
}

// An option that says how a password is generated.
fn profile_option_cause(said: &SaidWords<'_, '_>) -> Option<Cause>
    ensures { result ≡ spec.profile_option_cause (said_seen said.now) }
{
    if is_given(said, CommandOption::Length) {
        Some(Cause::NeedsGenerate(CommandOption::Length))
    } else if is_given(said, CommandOption::Exclude) {
        Some(Cause::NeedsGenerate(CommandOption::Exclude))
    } else if is_given(said, CommandOption::Lower) {
        Some(Cause::NeedsGenerate(CommandOption::Lower))
    } else if is_given(said, CommandOption::Upper) {
        Some(Cause::NeedsGenerate(CommandOption::Upper))
    } else if is_given(said, CommandOption::Numeric) {
        Some(Cause::NeedsGenerate(CommandOption::Numeric))
    } else if is_given(said, CommandOption::Special) {
        Some(Cause::NeedsGenerate(CommandOption::Special))
    } else {
        None
    }
}

/// What is said of an entry's password does not fit together.
pub(crate) fn generated_cause(
    alloc: Global,
    said: &SaidWords<'_, '_>,
) -> Result<Option<Cause>, NoMemory>
    ensures { IfOk result (λ cause. cause ≡ spec.generated_cause (said_seen said.now)) }
{
    if !is_given(said, CommandOption::Generate) {
        return Ok(profile_option_cause(said));
    }
    if is_given(said, CommandOption::EntryPassword) {
        return Ok(Some(Cause::NotTogether(CommandOption::Generate, CommandOption::EntryPassword)));
    }
    profile_cause(alloc, said)
}
