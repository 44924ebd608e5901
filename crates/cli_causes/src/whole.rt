//! Finding what is wrong in all words of a call together.
ghost use Rattle.std.specs.Prelude.{◌≡◌, IfOk};
ghost use Rattle.std.specs.Option.{option_or};
ghost use Rattle.cli_causes.specs.Causes as spec;
ghost use Rattle.cli_causes.specs.Fields.{further_cause};
ghost use Rattle.cli_options.specs.declared.names.CommandName.TheVariants as name;
ghost use Rattle.cli_options.specs.SaidWords.{said_seen, text_seen};

use crate::attachments::{export_attachment_cause, import_attachment_cause};
use crate::cause::Cause;
use crate::fields;
use crate::files::{create_cause, edit_file_cause, new_key_cause};
use crate::generating::{generated_cause, profile_cause, test_cause};
use crate::versions::{number_cause, restore_cause};
use cli_options::{CommandName, CommandOption, SaidWords, is_given, text_of};
use cli_parse::{format_named, has_change, import_format_named};
use outside_core::{NoMemory, Text};
use std::alloc::Global;

// The fewest positions that a command has.
fn fewest(command: CommandName) -> usize
    ensures { result ≡ spec.fewest command }
{
    match command {
        CommandName::Ls
        | CommandName::Create
        | CommandName::Export
        | CommandName::EditFile
        | CommandName::Info
        | CommandName::SelfTest
        | CommandName::Open => 1,
        CommandName::Move | CommandName::ExportAttachment | CommandName::RemoveAttachment => 3,
        CommandName::ImportAttachment => 4,
        CommandName::Generate => 0,
        _ => 2,
    }
}

// The most positions that a command has.
fn most(command: CommandName) -> usize
    ensures { result ≡ spec.most command }
{
    match command {
        CommandName::Merge => 17,
        CommandName::Ls => 2,
        CommandName::ExportAttachment => 4,
        _ => fewest(command),
    }
}

// A position more than a command takes.
fn extra_cause(alloc: Global, command: CommandName, word: &str) -> Result<Cause, NoMemory>
    ensures { IfOk result (λ cause. cause ≡ spec.extra_cause command word.now) }
{
    match command {
        CommandName::Merge => Ok(Cause::ManySources),
        _ => Ok(Cause::ExtraPosition(command, Text::of(alloc, word)?)),
    }
}

// Fewer positions than these, or one more than those.
fn count_cause(
    alloc: Global,
    command: CommandName,
    fewest: usize,
    most: usize,
    positions: &[Text],
) -> Result<Option<Cause>, NoMemory>
    ensures { IfOk result (λ cause. cause
        ≡ spec.count_cause command fewest most positions.now) }
{
    if positions.len() < fewest {
        return Ok(Some(Cause::FewPositions(command)));
    }
    match positions.get(most) {
        Some(word) => Ok(Some(extra_cause(alloc, command, word.as_str())?)),
        None => Ok(None),
    }
}

// Fewer positions than a command needs, or one too many.
fn positions_cause(
    alloc: Global,
    command: CommandName,
    positions: &[Text],
) -> Result<Option<Cause>, NoMemory>
    ensures { IfOk result (λ cause. cause ≡ spec.positions_cause command positions.now) }
{
    count_cause(alloc, command, fewest(command), most(command), positions)
}

// What goes with no plain document and is given beside it.
fn plain_cause(said: &SaidWords<'_, '_>) -> Option<Cause>
    ensures { result ≡ spec.plain_cause (said_seen said.now) }
{
    if is_given(said, CommandOption::NoPassword) {
        Some(Cause::NotWithPlain(CommandOption::NoPassword))
    } else if is_given(said, CommandOption::KeyFile) {
        Some(Cause::NotWithPlain(CommandOption::KeyFile))
    } else if is_given(said, CommandOption::NoPasswordFrom) {
        Some(Cause::NotWithPlain(CommandOption::NoPasswordFrom))
    } else if is_given(said, CommandOption::KeyFileFrom) {
        Some(Cause::NotWithPlain(CommandOption::KeyFileFrom))
    } else if is_given(said, CommandOption::SameCredentials) {
        Some(Cause::NotWithPlain(CommandOption::SameCredentials))
    } else {
        None
    }
}

// What opens a database, or the sources of a merge, does not fit it.
fn sealed_cause(said: &SaidWords<'_, '_>) -> Option<Cause>
    ensures { result ≡ spec.sealed_cause (said_seen said.now) }
{
    let same = is_given(said, CommandOption::SameCredentials);
    let no_password_from = is_given(said, CommandOption::NoPasswordFrom);
    let key_file_from = is_given(said, CommandOption::KeyFileFrom);
    if is_given(said, CommandOption::NoPassword) && !is_given(said, CommandOption::KeyFile) {
        Some(Cause::NoKeyFile)
    } else if same && no_password_from {
        Some(Cause::NotWithSame(CommandOption::NoPasswordFrom))
    } else if same && key_file_from {
        Some(Cause::NotWithSame(CommandOption::KeyFileFrom))
    } else if no_password_from && !key_file_from {
        Some(Cause::NoKeyFileFrom)
    } else {
        None
    }
}

// What opens databases does not fit them.
fn credentials_cause(said: &SaidWords<'_, '_>) -> Option<Cause>
    ensures { result ≡ spec.credentials_cause (said_seen said.now) }
{
    if is_given(said, CommandOption::Plain) {
        plain_cause(said)
    } else {
        sealed_cause(said)
    }
}

// A format of an import that is unknown.
fn import_format_cause(alloc: Global, name: Option<&str>) -> Result<Option<Cause>, NoMemory>
    ensures { IfOk result (λ cause. cause ≡ spec.import_format_cause (text_seen name.entry)) }
{
    match name {
        Some(name) if import_format_named(name).is_none() => {
            Ok(Some(Cause::UnknownImportFormat(Text::of(alloc, name)?)))
        }
        _ => Ok(None),
    }
}

// A format of an export that is unknown.
fn export_format_cause(alloc: Global, name: Option<&str>) -> Result<Option<Cause>, NoMemory>
    ensures { IfOk result (λ cause. cause ≡ spec.export_format_cause (text_seen name.entry)) }
{
    match name {
        Some(name) if format_named(name).is_none() => {
            Ok(Some(Cause::UnknownExportFormat(Text::of(alloc, name)?)))
        }
        _ => Ok(None),
    }
}

// A one-time code is shown beside all that there is.
fn code_cause(said: &SaidWords<'_, '_>) -> Option<Cause>
    ensures { result ≡ spec.code_cause (said_seen said.now) }
{
    let totp = is_given(said, CommandOption::Totp);
    if totp && is_given(said, CommandOption::All) {
        Some(Cause::NotTogether(CommandOption::Totp, CommandOption::All))
    } else if totp && is_given(said, CommandOption::Attachments) {
        Some(Cause::NotTogether(CommandOption::Totp, CommandOption::Attachments))
    } else {
        None
    }
}

// The same, or the number of the version that is shown is none.
fn show_cause(alloc: Global, said: &SaidWords<'_, '_>) -> Result<Option<Cause>, NoMemory>
    ensures { IfOk result (λ cause. cause ≡ spec.show_cause (said_seen said.now)) }
{
    match code_cause(said) {
        Some(cause) => Ok(Some(cause)),
        None => number_cause(alloc, CommandOption::At, text_of(said, CommandOption::At)),
    }
}

// An edit is given no value.
fn change_cause(said: &SaidWords<'_, '_>) -> Option<Cause>
    ensures { result ≡ spec.change_cause (said_seen said.now) }
{
    if has_change(said) {
        None
    } else {
        Some(Cause::NothingToChange)
    }
}

// What else of an entry is to change does not fit together, or nothing is to change.
fn further_or_change_cause(
    alloc: Global,
    said: &SaidWords<'_, '_>,
) -> Result<Option<Cause>, NoMemory>
    ensures { IfOk result (λ cause. cause
        ≡ option_or (further_cause (said_seen said.now)) (spec.change_cause (said_seen said.now))) }
{
    match fields::further_cause(alloc, said)? {
        Some(cause) => Ok(Some(cause)),
        None => Ok(change_cause(said)),
    }
}

// What is said of the values of an entry that is edited does not fit, or none is given.
fn values_cause(alloc: Global, said: &SaidWords<'_, '_>) -> Result<Option<Cause>, NoMemory>
    ensures { IfOk result (λ cause. cause ≡ spec.values_cause (said_seen said.now)) }
{
    match generated_cause(alloc, said)? {
        Some(cause) => Ok(Some(cause)),
        None => further_or_change_cause(alloc, said),
    }
}

// What is said of an edit does not fit: of the version that is restored, or of the values.
fn edit_cause(
    alloc: Global,
    said: &SaidWords<'_, '_>,
    restored: Option<&str>,
) -> Result<Option<Cause>, NoMemory>
    ensures { IfOk result (λ cause. cause
        ≡ spec.edit_cause (said_seen said.now) (text_seen restored.entry)) }
{
    match restored {
        Some(text) => restore_cause(alloc, said, text),
        None => values_cause(alloc, said),
    }
}

// A new database has no key that fits it, or the format of what is imported is unknown.
fn import_cause(alloc: Global, said: &SaidWords<'_, '_>) -> Result<Option<Cause>, NoMemory>
    ensures { IfOk result (λ cause. cause
        ≡ spec.own_cause name.Import (said_seen said.now) said.now.positions.now) }
{
    match new_key_cause(CommandName::Import, said) {
        Some(cause) => Ok(Some(cause)),
        None => import_format_cause(alloc, text_of(said, CommandOption::ImportFormat)),
    }
}

// What a command asks for beside what all of them do.
fn own_cause(
    alloc: Global,
    command: CommandName,
    said: &SaidWords<'_, '_>,
) -> Result<Option<Cause>, NoMemory>
    ensures { IfOk result (λ cause. cause
        ≡ spec.own_cause command (said_seen said.now) said.now.positions.now) }
{
    match command {
        CommandName::Show => show_cause(alloc, said),
        CommandName::Add => generated_cause(alloc, said),
        CommandName::Edit => edit_cause(alloc, said, text_of(said, CommandOption::Restore)),
        CommandName::ExportAttachment => export_attachment_cause(alloc, said),
        CommandName::ImportAttachment => Ok(import_attachment_cause(said.positions)),
        CommandName::Import => import_cause(alloc, said),
        CommandName::Create => create_cause(alloc, said),
        CommandName::Export => export_format_cause(alloc, text_of(said, CommandOption::Format)),
        CommandName::EditFile => edit_file_cause(alloc, said),
        CommandName::Generate => profile_cause(alloc, said),
        CommandName::SelfTest => test_cause(alloc, said.positions),
        _ => Ok(None),
    }
}

// What does not go together, or what the command asks for beside it.
fn options_cause(
    alloc: Global,
    command: CommandName,
    said: &SaidWords<'_, '_>,
) -> Result<Option<Cause>, NoMemory>
    ensures { IfOk result (λ cause. cause
        ≡ option_or (spec.credentials_cause (said_seen said.now))
        (spec.own_cause command (said_seen said.now) said.now.positions.now)) }
{
    match credentials_cause(said) {
        Some(cause) => Ok(Some(cause)),
        None => own_cause(alloc, command, said),
    }
}

/// What is wrong in all words together, of which `last` is the last.
pub(crate) fn said_cause(
    alloc: Global,
    command: CommandName,
    last: &str,
    said: &SaidWords<'_, '_>,
) -> Result<Option<Cause>, NoMemory>
    ensures { IfOk result (λ cause. cause
        ≡ spec.said_cause command last.now (said_seen said.now)) }
{
    if said.due.is_some() {
        return Ok(Some(Cause::NoValue(Text::of(alloc, last)?)));
    }
    match positions_cause(alloc, command, said.positions)? {
        Some(cause) => Ok(Some(cause)),
        None => options_cause(alloc, command, said),
    }
}
