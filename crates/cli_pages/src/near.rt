//! Finding the name that was perhaps meant.
ghost use Rattle.std.specs.Prelude.{◌≡◌, IfOk};
ghost use Rattle.std.specs.List.{find};
ghost use Rattle.cli_pages.specs.Texts as spec;

use cli_options::{CommandName, CommandOption, name_option};
use outside_core::NoMemory;
use std::alloc::Global;
use strsim::levenshtein;

/// The commands.
const COMMANDS: [CommandName; 22] = [
    CommandName::Ls,
    CommandName::Show,
    CommandName::History,
    CommandName::Search,
    CommandName::Add,
    CommandName::Edit,
    CommandName::Move,
    CommandName::Remove,
    CommandName::MakeGroup,
    CommandName::RemoveGroup,
    CommandName::Merge,
    CommandName::Import,
    CommandName::Create,
    CommandName::Export,
    CommandName::EditFile,
    CommandName::Info,
    CommandName::Generate,
    CommandName::SelfTest,
    CommandName::Open,
    CommandName::ExportAttachment,
    CommandName::ImportAttachment,
    CommandName::RemoveAttachment,
];

/// The options, whichever command takes them.
const OPTIONS: [CommandOption; 52] = [
    CommandOption::Recursive,
    CommandOption::Flat,
    CommandOption::Quiet,
    CommandOption::Plain,
    CommandOption::NoPassword,
    CommandOption::KeyFile,
    CommandOption::Title,
    CommandOption::User,
    CommandOption::Url,
    CommandOption::Notes,
    CommandOption::EntryPassword,
    CommandOption::SameCredentials,
    CommandOption::DryRun,
    CommandOption::KeyFileFrom,
    CommandOption::NoPasswordFrom,
    CommandOption::Clear,
    CommandOption::All,
    CommandOption::Attachments,
    CommandOption::Format,
    CommandOption::Attribute,
    CommandOption::SetPassword,
    CommandOption::SetKeyFile,
    CommandOption::Totp,
    CommandOption::Generate,
    CommandOption::Length,
    CommandOption::Lower,
    CommandOption::Upper,
    CommandOption::Numeric,
    CommandOption::Special,
    CommandOption::Exclude,
    CommandOption::Otp,
    CommandOption::Cipher,
    CommandOption::Kdf,
    CommandOption::Rounds,
    CommandOption::Memory,
    CommandOption::Lanes,
    CommandOption::UnsetPassword,
    CommandOption::UnsetKeyFile,
    CommandOption::FileVersion,
    CommandOption::DatabaseName,
    CommandOption::At,
    CommandOption::Restore,
    CommandOption::Details,
    CommandOption::Ids,
    CommandOption::Set,
    CommandOption::Protect,
    CommandOption::Unset,
    CommandOption::Tag,
    CommandOption::Untag,
    CommandOption::Expires,
    CommandOption::Stdout,
    CommandOption::Force,
];

/// The name of a command.
pub(crate) fn command_text(command: CommandName) -> &'static str
    ensures { result.now ≡ spec.command_text command }
{
    match command {
        CommandName::Ls => "ls",
        CommandName::Show => "show",
        CommandName::History => "history",
        CommandName::Search => "search",
        CommandName::Add => "add",
        CommandName::Edit => "edit",
        CommandName::Move => "mv",
        CommandName::Remove => "rm",
        CommandName::MakeGroup => "mkdir",
        CommandName::RemoveGroup => "rmdir",
        CommandName::Merge => "merge",
        CommandName::Import => "import",
        CommandName::Create => "db-create",
        CommandName::Export => "export",
        CommandName::EditFile => "db-edit",
        CommandName::Info => "db-info",
        CommandName::Generate => "generate",
        CommandName::SelfTest => "selftest",
        CommandName::Open => "open",
        CommandName::ExportAttachment => "attachment-export",
        CommandName::ImportAttachment => "attachment-import",
        CommandName::RemoveAttachment => "attachment-rm",
    }
}

/// The long name of an option.
pub(crate) fn option_text(option: CommandOption) -> &'static str
    ensures { result.now ≡ spec.option_text option }
{
    match option {
        CommandOption::Recursive => "recursive",
        CommandOption::Flat => "flatten",
        CommandOption::Quiet => "quiet",
        CommandOption::Plain => "plain",
        CommandOption::NoPassword => "no-password",
        CommandOption::KeyFile => "key-file",
        CommandOption::Title => "title",
        CommandOption::User => "username",
        CommandOption::Url => "url",
        CommandOption::Notes => "notes",
        CommandOption::EntryPassword => "password-prompt",
        CommandOption::SameCredentials => "same-credentials",
        CommandOption::DryRun => "dry-run",
        CommandOption::KeyFileFrom => "key-file-from",
        CommandOption::NoPasswordFrom => "no-password-from",
        CommandOption::Clear => "show-protected",
        CommandOption::All => "all",
        CommandOption::Attachments => "show-attachments",
        CommandOption::Format => "format",
        CommandOption::Attribute => "attributes",
        CommandOption::SetPassword => "set-password",
        CommandOption::SetKeyFile => "set-key-file",
        CommandOption::ImportFormat => "format",
        CommandOption::Totp => "totp",
        CommandOption::Generate => "generate",
        CommandOption::Length => "length",
        CommandOption::Lower => "lower",
        CommandOption::Upper => "upper",
        CommandOption::Numeric => "numeric",
        CommandOption::Special => "special",
        CommandOption::Exclude => "exclude",
        CommandOption::Otp => "otp",
        CommandOption::Cipher => "cipher",
        CommandOption::Kdf => "kdf",
        CommandOption::Rounds => "rounds",
        CommandOption::Memory => "memory",
        CommandOption::Lanes => "lanes",
        CommandOption::UnsetPassword => "unset-password",
        CommandOption::UnsetKeyFile => "unset-key-file",
        CommandOption::FileVersion => "version",
        CommandOption::DatabaseName => "name",
        CommandOption::At => "at",
        CommandOption::Restore => "restore",
        CommandOption::Details => "details",
        CommandOption::Ids => "ids",
        CommandOption::Set => "set",
        CommandOption::Protect => "protect",
        CommandOption::Unset => "unset",
        CommandOption::Tag => "tag",
        CommandOption::Untag => "untag",
        CommandOption::Expires => "expires",
        CommandOption::Stdout => "stdout",
        CommandOption::Force => "force",
    }
}

// Reports whether a name is near at this distance.
fn is_short(far: usize, name: &str) -> bool
    ensures { result ≡ spec.is_short far name.now }
{
    far <= 2 && far * 2 <= name.len()
}

// Reports whether two texts begin with the same byte.
fn begin_alike(word: &str, name: &str) -> bool
    ensures { result ≡ spec.begin_alike word.now name.now }
{
    match (word.as_bytes(), name.as_bytes()) {
        ([b, ..], [c, ..]) => *b == *c,
        _ => false,
    }
}

// Reports whether a name is near a word at this distance.
fn is_near_at(far: usize, word: &str, name: &str) -> bool
    ensures { result ≡ spec.is_near_at far word.now name.now }
{
    is_short(far, name) && (far <= 1 || begin_alike(word, name))
}

// Reports whether a name is near a word.
fn is_near(alloc: Global, word: &str, name: &str) -> Result<bool, NoMemory>
    ensures { IfOk result (λ near. near ≡ spec.is_near word.now name.now) }
{
    match levenshtein(alloc, word, name) {
        Ok(far) => Ok(is_near_at(far, word, name)),
        Err(_none) => Err(NoMemory),
    }
}

// Reports whether the name of a command is near a word.
fn is_near_command(alloc: Global, word: &str, command: CommandName) -> Result<bool, NoMemory>
    ensures { IfOk result (λ near. near ≡ spec.is_near word.now (spec.command_text command)) }
{
    is_near(alloc, word, command_text(command))
}

// The first of these commands whose name is near a word.
fn first_command(
    alloc: Global,
    word: &str,
    commands: &[CommandName],
) -> Result<Option<CommandName>, NoMemory>
    ensures { IfOk result (λ near. near
        ≡ find (λ command. spec.is_near word.now (spec.command_text command)) commands.now) }
{
    for command in commands {
        if is_near_command(alloc, word, *command)? {
            return Ok(Some(*command));
        }
    }
    Ok(None)
}

/// The first command whose name is near a word.
#[tactic(auto, unfolding(crate::specs::Texts::near_command))]
pub(crate) fn near_command(alloc: Global, word: &str) -> Result<Option<CommandName>, NoMemory>
    ensures { IfOk result (λ near. near ≡ spec.near_command word.now) }
{
    first_command(alloc, word, &COMMANDS)
}

// Reports whether a command takes an option of this long name.
fn takes(command: CommandName, option: CommandOption) -> bool
    ensures { result ≡ spec.takes command option }
{
    name_option(command, option_text(option)).is_some()
}

// Reports whether a command takes an option whose name is near a word.
fn is_near_option(
    alloc: Global,
    command: CommandName,
    word: &str,
    option: CommandOption,
) -> Result<bool, NoMemory>
    ensures { IfOk result (λ near. near ≡ spec.is_near_option command word.now option) }
{
    if takes(command, option) {
        is_near(alloc, word, option_text(option))
    } else {
        Ok(false)
    }
}

// The first of these options that a command takes and whose name is near a word.
fn first_option(
    alloc: Global,
    command: CommandName,
    word: &str,
    options: &[CommandOption],
) -> Result<Option<CommandOption>, NoMemory>
    ensures { IfOk result (λ near. near
        ≡ find (spec.is_near_option command word.now) options.now) }
{
    for option in options {
        if is_near_option(alloc, command, word, *option)? {
            return Ok(Some(*option));
        }
    }
    Ok(None)
}

/// The first option that a command takes and whose name is near a word.
pub(crate) fn near_option(
    alloc: Global,
    command: CommandName,
    word: &str,
) -> Result<Option<CommandOption>, NoMemory>
    ensures { IfOk result (λ near. near ≡ spec.near_option command word.now) }
{
    first_option(alloc, command, word, &OPTIONS)
}
