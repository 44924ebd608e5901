//! Finding what is wrong in what is said of a version of an entry.
ghost use Rattle.std.specs.Prelude.{◌≡◌, IfOk};
ghost use Rattle.cli_causes.specs.Versions as spec;
ghost use Rattle.cli_options.specs.SaidWords.{said_seen, text_seen};

use crate::cause::Cause;
use cli_options::{CommandOption, SaidWords, is_given};
use cli_parse::version_numbered;
use outside_core::{NoMemory, Text};
use std::alloc::Global;

/// The options that change an entry, or say how its password is generated.
const ENTRY_OPTIONS: [CommandOption; 19] = [
    CommandOption::Title,
    CommandOption::User,
    CommandOption::Url,
    CommandOption::Notes,
    CommandOption::EntryPassword,
    CommandOption::Generate,
    CommandOption::Otp,
    CommandOption::Set,
    CommandOption::Protect,
    CommandOption::Unset,
    CommandOption::Tag,
    CommandOption::Untag,
    CommandOption::Expires,
    CommandOption::Length,
    CommandOption::Exclude,
    CommandOption::Lower,
    CommandOption::Upper,
    CommandOption::Numeric,
    CommandOption::Special,
];

/// A number of a version that is none, if this option names one.
pub(crate) fn number_cause(
    alloc: Global,
    option: CommandOption,
    text: Option<&str>,
) -> Result<Option<Cause>, NoMemory>
    ensures { IfOk result (λ cause. cause ≡ spec.number_cause option (text_seen text.entry)) }
{
    match text {
        Some(text) if version_numbered(text).is_none() => {
            Ok(Some(Cause::UnknownNumber(option, Text::of(alloc, text)?)))
        }
        _ => Ok(None),
    }
}

// The first of these options that is given.
fn first_given(said: &SaidWords<'_, '_>, options: &[CommandOption]) -> Option<CommandOption>
    ensures { result ≡ spec.first_given (said_seen said.now) options.now }
{
    for option in options {
        if is_given(said, *option) {
            return Some(*option);
        }
    }
    None
}

// An entry is changed beside a version of it that is restored.
fn beside_cause(said: &SaidWords<'_, '_>) -> Option<Cause>
    ensures { result ≡ spec.beside_cause (said_seen said.now) }
{
    match first_given(said, &ENTRY_OPTIONS) {
        Some(option) => Some(Cause::NotTogether(CommandOption::Restore, option)),
        None => None,
    }
}

/// What is said of a version that is restored does not fit.
pub(crate) fn restore_cause(
    alloc: Global,
    said: &SaidWords<'_, '_>,
    text: &str,
) -> Result<Option<Cause>, NoMemory>
    ensures { IfOk result (λ cause. cause ≡ spec.restore_cause (said_seen said.now) text.now) }
{
    match beside_cause(said) {
        Some(cause) => Ok(Some(cause)),
        None => number_cause(alloc, CommandOption::Restore, Some(text)),
    }
}
