//! Which options each command takes.
ghost use Rattle.std.specs.Prelude.{◌≡◌, ◌<◌, IfSome};
ghost use Rattle.cli_options.specs.Options as spec;

use crate::forms::{CommandOption, form_of};
use crate::names::CommandName;

// The options that a command takes beside those that others take too.
fn own_options(command: CommandName) -> &'static [CommandOption]
    ensures { result.now ≡ spec.own_options command }
{
    match command {
        CommandName::Ls => {
            &[
                CommandOption::Recursive,
                CommandOption::Flat,
                CommandOption::Ids,
            ]
        }
        CommandName::Show => {
            &[
                CommandOption::Clear,
                CommandOption::All,
                CommandOption::Attachments,
                CommandOption::Attribute,
                CommandOption::Totp,
                CommandOption::At,
            ]
        }
        CommandName::Add => {
            &[
                CommandOption::User,
                CommandOption::Url,
                CommandOption::Notes,
                CommandOption::EntryPassword,
                CommandOption::Generate,
                CommandOption::Length,
                CommandOption::Lower,
                CommandOption::Upper,
                CommandOption::Numeric,
                CommandOption::Special,
                CommandOption::Exclude,
            ]
        }
        CommandName::Edit => {
            &[
                CommandOption::Title,
                CommandOption::User,
                CommandOption::Url,
                CommandOption::Notes,
                CommandOption::EntryPassword,
                CommandOption::Generate,
                CommandOption::Length,
                CommandOption::Lower,
                CommandOption::Upper,
                CommandOption::Numeric,
                CommandOption::Special,
                CommandOption::Exclude,
                CommandOption::Otp,
                CommandOption::Restore,
                CommandOption::Set,
                CommandOption::Protect,
                CommandOption::Unset,
                CommandOption::Tag,
                CommandOption::Untag,
                CommandOption::Expires,
            ]
        }
        CommandName::Merge => {
            &[
                CommandOption::SameCredentials,
                CommandOption::DryRun,
                CommandOption::Details,
                CommandOption::KeyFileFrom,
                CommandOption::NoPasswordFrom,
            ]
        }
        CommandName::Import => {
            &[
                CommandOption::SetPassword,
                CommandOption::SetKeyFile,
                CommandOption::ImportFormat,
            ]
        }
        CommandName::Create => {
            &[
                CommandOption::SetPassword,
                CommandOption::SetKeyFile,
                CommandOption::Cipher,
                CommandOption::Kdf,
                CommandOption::Rounds,
                CommandOption::Memory,
                CommandOption::Lanes,
                CommandOption::DatabaseName,
            ]
        }
        CommandName::Export => &[CommandOption::Format],
        CommandName::ExportAttachment => &[CommandOption::Stdout],
        CommandName::ImportAttachment => &[CommandOption::Force],
        CommandName::EditFile => {
            &[
                CommandOption::SetPassword,
                CommandOption::SetKeyFile,
                CommandOption::UnsetPassword,
                CommandOption::UnsetKeyFile,
                CommandOption::Cipher,
                CommandOption::Kdf,
                CommandOption::Rounds,
                CommandOption::Memory,
                CommandOption::Lanes,
                CommandOption::FileVersion,
            ]
        }
        CommandName::Generate => {
            &[
                CommandOption::Length,
                CommandOption::Lower,
                CommandOption::Upper,
                CommandOption::Numeric,
                CommandOption::Special,
                CommandOption::Exclude,
            ]
        }
        _ => &[],
    }
}

// The options that a command shares with others: what has a database takes that of what is printed,
// and all but `db-edit`, which gives its file a key, that of plain documents; and all but `import`
// and `db-create`, which make their database, those of what opens one.
fn shared_options(command: CommandName) -> &'static [CommandOption]
    ensures { result.now ≡ spec.shared_options command }
{
    match command {
        CommandName::Import => &[CommandOption::Quiet, CommandOption::Plain],
        CommandName::Create => &[CommandOption::Quiet, CommandOption::Plain],
        CommandName::EditFile => {
            &[
                CommandOption::Quiet,
                CommandOption::NoPassword,
                CommandOption::KeyFile,
            ]
        }
        CommandName::Generate | CommandName::SelfTest => &[],
        _ => {
            &[
                CommandOption::Quiet,
                CommandOption::Plain,
                CommandOption::NoPassword,
                CommandOption::KeyFile,
            ]
        }
    }
}

// Reports whether an option has this letter.
fn has_letter(option: CommandOption, letter: u8) -> bool
    ensures { result ≡ spec.has_letter option letter }
{
    match form_of(option).letter {
        Some(own) => own == letter,
        None => false,
    }
}

// The first of these options that has this letter.
fn with_letter(letter: u8, options: &[CommandOption]) -> Option<CommandOption>
    ensures { result ≡ spec.with_letter letter options.now }
{
    for option in options {
        if has_letter(*option, letter) {
            return Some(*option);
        }
    }
    None
}

// The first of these options that has this name.
fn with_name(name: &str, options: &[CommandOption]) -> Option<CommandOption>
    ensures { result ≡ spec.with_name name.now options.now }
{
    for option in options {
        if form_of(*option).name == name {
            return Some(*option);
        }
    }
    None
}

/// The option of a command that has this letter.
#[tactic(auto, using(crate::proofs::Found::letter_found))]
pub fn letter_option(command: CommandName, letter: u8) -> Option<CommandOption>
    ensures is { result ≡ spec.letter_option command letter }
    ensures ascii { IfSome result (λ option. letter < 128) }
{
    match with_letter(letter, own_options(command)) {
        Some(option) => Some(option),
        None => with_letter(letter, shared_options(command)),
    }
}

/// The option of a command that has this long name.
#[tactic(auto, using(crate::proofs::Found::name_found))]
pub fn name_option(command: CommandName, name: &str) -> Option<CommandOption>
    ensures { result ≡ spec.name_option command name.now }
{
    match with_name(name, own_options(command)) {
        Some(option) => Some(option),
        None => with_name(name, shared_options(command)),
    }
}
