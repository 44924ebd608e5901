//! The commands that show and change entries: `show`, `history`, `add` and `edit`.
ghost use Rattle.std.specs.Prelude.{◌≡◌, IfOk};
ghost use Rattle.cli_options.specs.declared.forms.CommandOption.TheVariants as option;
ghost use Rattle.cli_options.specs.Said.{text_of};
ghost use Rattle.cli_options.specs.SaidWords.{Gives, said_seen, text_seen};
ghost use Rattle.cli_parse.specs.Words as spec;

use crate::bases::base_and_path;
use crate::fields::further_of;
use cli_needs::{Asked, Command};
use cli_options::{
    CommandOption, SaidWords, WordsFail, copy_of, is_given, number_of, text_of, texts_of,
};
use cli_profiles::{generated_in, has_profile_option};
use outside_core::{NoMemory, Text};
use std::alloc::Global;

// Reports whether something is said of a field of one's own, of a tag, or of when an entry expires.
fn has_further(said: &SaidWords<'_, '_>) -> bool
    ensures { result ≡ spec.has_further (said_seen said.now) }
{
    is_given(said, CommandOption::Set)
        || is_given(said, CommandOption::Protect)
        || is_given(said, CommandOption::Unset)
        || is_given(said, CommandOption::Tag)
        || is_given(said, CommandOption::Untag)
        || is_given(said, CommandOption::Expires)
}

/// Reports whether at least one value of an entry is given, or something is said of what else it
/// says.
pub fn has_change(said: &SaidWords<'_, '_>) -> bool
    ensures { result ≡ spec.has_change (said_seen said.now) }
{
    is_given(said, CommandOption::Title)
        || is_given(said, CommandOption::User)
        || is_given(said, CommandOption::Url)
        || is_given(said, CommandOption::Notes)
        || is_given(said, CommandOption::EntryPassword)
        || is_given(said, CommandOption::Generate)
        || is_given(said, CommandOption::Otp)
        || has_further(said)
}

// The texts that an entry is to have.
#[derive(Drop)]
struct AskedTexts {
    title: Option<Text>,
    user: Option<Text>,
    url: Option<Text>,
    notes: Option<Text>,
}

// The texts that an entry is to have.
fn asked_texts(alloc: Global, said: &SaidWords<'_, '_>) -> Result<AskedTexts, NoMemory>
    ensures title { IfOk result (λ t. t.title ≡ text_of option.Title (said_seen said.now)) }
    ensures user { IfOk result (λ t. t.user ≡ text_of option.User (said_seen said.now)) }
    ensures url { IfOk result (λ t. t.url ≡ text_of option.Url (said_seen said.now)) }
    ensures notes { IfOk result (λ t. t.notes ≡ text_of option.Notes (said_seen said.now)) }
{
    let title = copy_of(alloc, text_of(said, CommandOption::Title))?;
    let user = match copy_of(alloc, text_of(said, CommandOption::User)) {
        Ok(user) => user,
        Err(fail) => {
            drop(title);
            return Err(fail);
        }
    };
    let url = match copy_of(alloc, text_of(said, CommandOption::Url)) {
        Ok(url) => url,
        Err(fail) => {
            drop(title);
            drop(user);
            return Err(fail);
        }
    };
    match copy_of(alloc, text_of(said, CommandOption::Notes)) {
        Ok(notes) => Ok(AskedTexts {
            title,
            user,
            url,
            notes,
        }),
        Err(fail) => {
            drop(title);
            drop(user);
            drop(url);
            Err(fail)
        }
    }
}

// The values that an entry is to have.
fn asked_of(alloc: Global, said: &SaidWords<'_, '_>) -> Result<Asked, WordsFail>
    ensures { Gives (λ asked. asked) result (spec.asked_of (said_seen said.now)) }
{
    let texts = asked_texts(alloc, said)?;
    match generated_in(alloc, said) {
        Ok(generated) => Ok(Asked {
            title: texts.title,
            user: texts.user,
            url: texts.url,
            notes: texts.notes,
            password: is_given(said, CommandOption::EntryPassword),
            generated,
            otp: is_given(said, CommandOption::Otp),
        }),
        Err(fail) => {
            drop(texts);
            Err(fail)
        }
    }
}

/// The number of a version that a text is.
pub fn version_numbered(text: &str) -> Option<u64>
    ensures { result ≡ spec.version_numbered text.now }
{
    number_of(6, text)
}

// The number of the version that is asked for: that of the current one where there is no text.
fn version_asked(text: Option<&str>) -> Option<u64>
    ensures { result ≡ spec.version_asked (text_seen text.entry) }
{
    match text {
        Some(text) => version_numbered(text),
        None => Some(0),
    }
}

// Reports whether what is to be shown goes together.
fn is_fit_show(said: &SaidWords<'_, '_>) -> bool
    ensures { result ≡ spec.is_fit_show (said_seen said.now) }
{
    !(is_given(said, CommandOption::Totp)
        && (is_given(said, CommandOption::All) || is_given(said, CommandOption::Attachments)))
}

// The command `show` of a file's entry, of its version of this number.
fn show_of(
    alloc: Global,
    said: &SaidWords<'_, '_>,
    file: &Text,
    entry: &Text,
    at: u64,
) -> Result<Command, NoMemory>
    ensures { IfOk result (λ command. command
        ≡ spec.show_of (said_seen said.now) file.now entry.now at) }
{
    let both = base_and_path(alloc, said, file, entry)?;
    match texts_of(alloc, said, CommandOption::Attribute) {
        Ok(names) => Ok(Command::Show {
            access: both.access,
            file: both.file,
            entry: both.path,
            clear: is_given(said, CommandOption::Clear),
            all: is_given(said, CommandOption::All),
            attachments: is_given(said, CommandOption::Attachments),
            names,
            totp: is_given(said, CommandOption::Totp),
            at,
        }),
        Err(fail) => {
            drop(both);
            Err(fail)
        }
    }
}

// The same, if what is asked for is the number of a version.
fn show_by(
    alloc: Global,
    said: &SaidWords<'_, '_>,
    file: &Text,
    entry: &Text,
) -> Result<Command, WordsFail>
    ensures { Gives (λ command. command) result
        (spec.show_by (said_seen said.now) file.now entry.now) }
{
    match version_asked(text_of(said, CommandOption::At)) {
        Some(at) => Ok(show_of(alloc, said, file, entry, at)?),
        None => Err(WordsFail::Wrong),
    }
}

/// The command `show` at these positions.
pub(crate) fn show_at(alloc: Global, said: &SaidWords<'_, '_>) -> Result<Command, WordsFail>
    ensures { Gives (λ command. command) result
        (spec.show_at (said_seen said.now) said.now.positions.now) }
{
    match said.positions {
        [file, entry] if is_fit_show(said) => show_by(alloc, said, file, entry),
        _ => Err(WordsFail::Wrong),
    }
}

/// The command `history` at these positions.
pub(crate) fn history_at(alloc: Global, said: &SaidWords<'_, '_>) -> Result<Command, WordsFail>
    ensures { Gives (λ command. command) result
        (spec.history_at (said_seen said.now) said.now.positions.now) }
{
    let [file, entry] = said.positions else {
        return Err(WordsFail::Wrong);
    };
    let both = base_and_path(alloc, said, file, entry)?;
    Ok(Command::History {
        access: both.access,
        file: both.file,
        entry: both.path,
    })
}

/// The command `add` at these positions.
pub(crate) fn add_at(alloc: Global, said: &SaidWords<'_, '_>) -> Result<Command, WordsFail>
    ensures { Gives (λ command. command) result
        (spec.add_at (said_seen said.now) said.now.positions.now) }
{
    let [file, entry] = said.positions else {
        return Err(WordsFail::Wrong);
    };
    let both = base_and_path(alloc, said, file, entry)?;
    match asked_of(alloc, said) {
        Ok(asked) => Ok(Command::Add {
            access: both.access,
            file: both.file,
            entry: both.path,
            asked,
        }),
        Err(fail) => {
            drop(both);
            Err(fail)
        }
    }
}

// The command `edit` of a file's entry.
fn edit_of(
    alloc: Global,
    said: &SaidWords<'_, '_>,
    file: &Text,
    entry: &Text,
) -> Result<Command, WordsFail>
    ensures { Gives (λ command. command) result
        (spec.edit_of (said_seen said.now) file.now entry.now) }
{
    let asked = asked_of(alloc, said)?;
    let further = match further_of(alloc, said) {
        Ok(further) => further,
        Err(fail) => {
            drop(asked);
            return Err(fail);
        }
    };
    match base_and_path(alloc, said, file, entry) {
        Ok(both) => Ok(Command::Edit {
            access: both.access,
            file: both.file,
            entry: both.path,
            asked,
            further,
        }),
        Err(fail) => {
            drop(asked);
            drop(further);
            Err(WordsFail::from(fail))
        }
    }
}

// The command `edit` of a file's entry that restores the version of the number that a text is.
fn restore_of(
    alloc: Global,
    said: &SaidWords<'_, '_>,
    file: &Text,
    entry: &Text,
    text: &str,
) -> Result<Command, WordsFail>
    ensures { Gives (λ command. command) result
        (spec.restore_of (said_seen said.now) file.now entry.now text.now) }
{
    if has_change(said) || has_profile_option(said) {
        return Err(WordsFail::Wrong);
    }
    let Some(version) = version_numbered(text) else {
        return Err(WordsFail::Wrong);
    };
    let both = base_and_path(alloc, said, file, entry)?;
    Ok(Command::Restore {
        access: both.access,
        file: both.file,
        entry: both.path,
        version,
    })
}

// The command `edit` of a file's entry, which restores a version where a text says which.
fn edit_by(
    alloc: Global,
    said: &SaidWords<'_, '_>,
    file: &Text,
    entry: &Text,
    restored: Option<&str>,
) -> Result<Command, WordsFail>
    ensures { Gives (λ command. command) result (spec.edit_by (said_seen said.now) file.now
        entry.now (text_seen restored.entry)) }
{
    match restored {
        Some(text) => restore_of(alloc, said, file, entry, text),
        None if has_change(said) => edit_of(alloc, said, file, entry),
        None => Err(WordsFail::Wrong),
    }
}

/// The command `edit` at these positions.
pub(crate) fn edit_at(alloc: Global, said: &SaidWords<'_, '_>) -> Result<Command, WordsFail>
    ensures { Gives (λ command. command) result
        (spec.edit_at (said_seen said.now) said.now.positions.now) }
{
    let [file, entry] = said.positions else {
        return Err(WordsFail::Wrong);
    };
    edit_by(
        alloc,
        said,
        file,
        entry,
        text_of(said, CommandOption::Restore),
    )
}
