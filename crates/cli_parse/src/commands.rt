//! The command that words are.
ghost use Rattle.std.specs.Prelude.{◌≡◌, IfErr, IfOk, IfSome, map, string_bytes};
ghost use Rattle.cli_messages.specs.Phases.{IsWordsStop, Returns};
ghost use Rattle.cli_profiles.specs.Profiles.{IsProfile};
ghost use Rattle.cli_needs.specs.Needs.{HasKeyAfter, HasKey, HasKeys, generated_by, needs_of, target_access};
ghost use Rattle.cli_options.specs.SaidWords.{Gives, said_seen, text_seen};
ghost use Rattle.cli_parse.specs.Words as spec;
ghost use Rattle.cli_parse.specs.Words.{command_of};

use crate::attachments::{export_attachment_at, import_attachment_at, remove_attachment_at};
use crate::bases::{access_from, access_new, access_source, base_and_path, base_of, base_with};
use crate::entries::{add_at, edit_at, history_at, show_at};
use crate::files::{create_at, edit_file_at};
use cli_messages::{Reason, Stop, refused};
use cli_needs::{Command, ExportFormat, ImportFormat};
use cli_options::{
    CommandName, CommandOption, SaidWords, WordsFail, command_named, copies_of, copy_of,
    is_fit_new, is_given, is_whole, lend_said, read_after_name, text_of,
};
use outside_core::{NoMemory, Text};
use std::alloc::Global;

/// The most sources of a merge.
const SOURCES: usize = 16;

/// The format of a name.
pub fn format_named(name: &str) -> Option<ExportFormat>
    ensures { result ≡ spec.format_named name.now }
{
    match name {
        "xml" => Some(ExportFormat::Xml),
        "csv" => Some(ExportFormat::Csv),
        _ => None,
    }
}

// The format that is asked for: the plain document where none is named.
fn format_asked(name: Option<&str>) -> Option<ExportFormat>
    ensures { result ≡ spec.format_asked (text_seen name.entry) }
{
    match name {
        Some(name) => format_named(name),
        None => Some(ExportFormat::Xml),
    }
}

/// The format of this name in which something is imported.
pub fn import_format_named(name: &str) -> Option<ImportFormat>
    ensures { result ≡ spec.import_format_named name.now }
{
    match name {
        "xml" => Some(ImportFormat::Xml),
        "psafe3" => Some(ImportFormat::Psafe),
        "csv" => Some(ImportFormat::Csv),
        "bitwarden" => Some(ImportFormat::Bitwarden),
        _ => None,
    }
}

// The format of what is imported: the plain document where none is named.
fn import_format_asked(name: Option<&str>) -> Option<ImportFormat>
    ensures { result ≡ spec.import_format_asked (text_seen name.entry) }
{
    match name {
        Some(name) => import_format_named(name),
        None => Some(ImportFormat::Xml),
    }
}

// The command `ls` of a file, and of a group where one is named.
fn list_of(
    alloc: Global,
    said: &SaidWords<'_, '_>,
    file: &Text,
    group: Option<&str>,
) -> Result<Command, NoMemory>
    ensures { IfOk result (λ command. command
        ≡ spec.list_of (said_seen said.now) file.now (text_seen group.entry)) }
{
    let base = base_of(alloc, said, file)?;
    match copy_of(alloc, group) {
        Ok(group) => Ok(Command::Ls {
            access: base.access,
            file: base.file,
            group,
            recursive: is_given(said, CommandOption::Recursive),
            flat: is_given(said, CommandOption::Flat),
            ids: is_given(said, CommandOption::Ids),
        }),
        Err(fail) => {
            drop(base);
            Err(fail)
        }
    }
}

// The command `ls` at these positions.
fn list_at(alloc: Global, said: &SaidWords<'_, '_>) -> Result<Command, WordsFail>
    ensures { Gives (λ command. command) result
        (spec.list_at (said_seen said.now) said.now.positions.now) }
{
    match said.positions {
        [file] => Ok(list_of(alloc, said, file, None)?),
        [file, group] => Ok(list_of(alloc, said, file, Some(group.as_str()))?),
        _ => Err(WordsFail::Wrong),
    }
}

// The command `search` at these positions.
fn search_at(alloc: Global, said: &SaidWords<'_, '_>) -> Result<Command, WordsFail>
    ensures { Gives (λ command. command) result
        (spec.search_at (said_seen said.now) said.now.positions.now) }
{
    let [file, term] = said.positions else {
        return Err(WordsFail::Wrong);
    };
    let both = base_and_path(alloc, said, file, term)?;
    Ok(Command::Search {
        access: both.access,
        file: both.file,
        term: both.path,
    })
}

// The command `mv` at these positions.
fn move_at(alloc: Global, said: &SaidWords<'_, '_>) -> Result<Command, WordsFail>
    ensures { Gives (λ command. command) result
        (spec.move_at (said_seen said.now) said.now.positions.now) }
{
    let [file, node, group] = said.positions else {
        return Err(WordsFail::Wrong);
    };
    let both = base_and_path(alloc, said, file, node)?;
    match Text::of(alloc, group.as_str()) {
        Ok(group) => Ok(Command::Move {
            access: both.access,
            file: both.file,
            node: both.path,
            group,
        }),
        Err(fail) => {
            drop(both);
            Err(WordsFail::from(fail))
        }
    }
}

// The command `rm` at these positions.
fn remove_at(alloc: Global, said: &SaidWords<'_, '_>) -> Result<Command, WordsFail>
    ensures { Gives (λ command. command) result
        (spec.remove_at (said_seen said.now) said.now.positions.now) }
{
    let [file, entry] = said.positions else {
        return Err(WordsFail::Wrong);
    };
    let both = base_and_path(alloc, said, file, entry)?;
    Ok(Command::Remove {
        access: both.access,
        file: both.file,
        entry: both.path,
    })
}

// The command `mkdir` at these positions.
fn make_group_at(alloc: Global, said: &SaidWords<'_, '_>) -> Result<Command, WordsFail>
    ensures { Gives (λ command. command) result
        (spec.make_group_at (said_seen said.now) said.now.positions.now) }
{
    let [file, group] = said.positions else {
        return Err(WordsFail::Wrong);
    };
    let both = base_and_path(alloc, said, file, group)?;
    Ok(Command::MakeGroup {
        access: both.access,
        file: both.file,
        group: both.path,
    })
}

// The command `rmdir` at these positions.
fn remove_group_at(alloc: Global, said: &SaidWords<'_, '_>) -> Result<Command, WordsFail>
    ensures { Gives (λ command. command) result
        (spec.remove_group_at (said_seen said.now) said.now.positions.now) }
{
    let [file, group] = said.positions else {
        return Err(WordsFail::Wrong);
    };
    let both = base_and_path(alloc, said, file, group)?;
    Ok(Command::RemoveGroup {
        access: both.access,
        file: both.file,
        group: both.path,
    })
}

// The command `merge` of a target and its sources.
fn merge_of(
    alloc: Global,
    said: &SaidWords<'_, '_>,
    file: &Text,
    sources: &[Text],
) -> Result<Command, NoMemory>
    ensures { IfOk result (λ command. command
        ≡ spec.merge_of (said_seen said.now) file.now sources.now) }
{
    let base = base_of(alloc, said, file)?;
    let sources = match copies_of(alloc, sources) {
        Ok(sources) => sources,
        Err(fail) => {
            drop(base);
            return Err(fail);
        }
    };
    match access_from(alloc, said) {
        Ok(from) => Ok(Command::Merge {
            access: base.access,
            file: base.file,
            sources,
            from,
            same: is_given(said, CommandOption::SameCredentials),
            dry: is_given(said, CommandOption::DryRun),
            details: is_given(said, CommandOption::Details),
        }),
        Err(fail) => {
            drop(base);
            drop(sources);
            Err(fail)
        }
    }
}

// The command `merge` at these positions.
fn merge_at(alloc: Global, said: &SaidWords<'_, '_>) -> Result<Command, WordsFail>
    ensures { Gives (λ command. command) result
        (spec.merge_at (said_seen said.now) said.now.positions.now) }
{
    let [file, sources @ ..] = said.positions else {
        return Err(WordsFail::Wrong);
    };
    if sources.is_empty() || sources.len() > SOURCES {
        return Err(WordsFail::Wrong);
    }
    Ok(merge_of(alloc, said, file, sources)?)
}

// The command `import` of a source in this format, and of a new file.
fn import_from(
    alloc: Global,
    said: &SaidWords<'_, '_>,
    format: ImportFormat,
    source: &Text,
    file: &Text,
) -> Result<Command, NoMemory>
    ensures { IfOk result (λ command. command
        ≡ spec.import_from (said_seen said.now) source.now file.now format) }
{
    let access = access_new(alloc, said)?;
    let base = base_with(alloc, access, file)?;
    match Text::of(alloc, source.as_str()) {
        Ok(source) => Ok(Command::Import {
            access: base.access,
            format,
            source,
            from: access_source(said, format),
            file: base.file,
        }),
        Err(fail) => {
            drop(base);
            Err(fail)
        }
    }
}

// The command `import` at these positions.
fn import_at(alloc: Global, said: &SaidWords<'_, '_>) -> Result<Command, WordsFail>
    ensures { Gives (λ command. command) result
        (spec.import_at (said_seen said.now) said.now.positions.now) }
{
    let [source, file] = said.positions else {
        return Err(WordsFail::Wrong);
    };
    match import_format_asked(text_of(said, CommandOption::ImportFormat)) {
        Some(format) if is_fit_new(said) => Ok(import_from(alloc, said, format, source, file)?),
        _ => Err(WordsFail::Wrong),
    }
}

// The command `export` at this position.
fn export_at(alloc: Global, said: &SaidWords<'_, '_>) -> Result<Command, WordsFail>
    ensures { Gives (λ command. command) result
        (spec.export_at (said_seen said.now) said.now.positions.now) }
{
    let [file] = said.positions else {
        return Err(WordsFail::Wrong);
    };
    let Some(format) = format_asked(text_of(said, CommandOption::Format)) else {
        return Err(WordsFail::Wrong);
    };
    let base = base_of(alloc, said, file)?;
    Ok(Command::Export {
        access: base.access,
        format,
        file: base.file,
    })
}

// The command `db-info` at this position.
fn info_at(alloc: Global, said: &SaidWords<'_, '_>) -> Result<Command, WordsFail>
    ensures { Gives (λ command. command) result
        (spec.info_at (said_seen said.now) said.now.positions.now) }
{
    let [file] = said.positions else {
        return Err(WordsFail::Wrong);
    };
    let base = base_of(alloc, said, file)?;
    Ok(Command::Info {
        access: base.access,
        file: base.file,
    })
}

// The command of this name at these positions.
fn command_at(
    alloc: Global,
    command: CommandName,
    said: &SaidWords<'_, '_>,
) -> Result<Command, WordsFail>
    ensures { Gives (λ command. command) result
        (spec.command_at command (said_seen said.now)
        said.now.positions.now) }
{
    match command {
        CommandName::Ls => list_at(alloc, said),
        CommandName::Show => show_at(alloc, said),
        CommandName::History => history_at(alloc, said),
        CommandName::Search => search_at(alloc, said),
        CommandName::Add => add_at(alloc, said),
        CommandName::Edit => edit_at(alloc, said),
        CommandName::Move => move_at(alloc, said),
        CommandName::Remove => remove_at(alloc, said),
        CommandName::MakeGroup => make_group_at(alloc, said),
        CommandName::RemoveGroup => remove_group_at(alloc, said),
        CommandName::Merge => merge_at(alloc, said),
        CommandName::Import => import_at(alloc, said),
        CommandName::Create => create_at(alloc, said),
        CommandName::Export => export_at(alloc, said),
        CommandName::EditFile => edit_file_at(alloc, said),
        CommandName::Info => info_at(alloc, said),
        CommandName::Generate | CommandName::SelfTest | CommandName::Open => Err(WordsFail::Wrong),
        CommandName::ExportAttachment => export_attachment_at(alloc, said),
        CommandName::ImportAttachment => import_attachment_at(alloc, said),
        CommandName::RemoveAttachment => remove_attachment_at(alloc, said),
    }
}

/// The command of this name whose other words say this.
pub fn command_saying(
    alloc: Global,
    command: CommandName,
    said: &SaidWords<'_, '_>,
) -> Result<Command, WordsFail>
    ensures { Gives (λ command. command) result
        (spec.command_saying command (said_seen said.now)) }
{
    if is_whole(said) {
        command_at(alloc, command, said)
    } else {
        Err(WordsFail::Wrong)
    }
}

// The command of this name with these words after it.
fn command_by(alloc: Global, words: &[String], command: CommandName) -> Result<Command, WordsFail>
    ensures { Gives (λ command. command) result
        (spec.command_by (map string_bytes words.now) command) }
{
    match read_after_name(alloc, command, words) {
        Ok(read) => {
            let made = command_saying(alloc, command, &lend_said(&read));
            drop(read);
            made
        }
        Err(fail) => Err(fail),
    }
}

// The command that the words are, if they are one.
fn command_in(alloc: Global, words: &[String]) -> Result<Command, WordsFail>
    ensures { Gives (λ command. command) result (spec.command_in (map string_bytes words.now)) }
{
    let [name, words @ ..] = words else {
        return Err(WordsFail::Wrong);
    };
    match command_named(name.as_str()) {
        Some(command) => command_by(alloc, words, command),
        None => Err(WordsFail::Wrong),
    }
}

/// The command that the words are.
pub fn read_words(alloc: Global, words: &[String]) -> Result<Command, Stop>
    ensures told { Returns (λ command. command) result (command_of (map string_bytes words.now)) }
    ensures has_key { IfOk result (λ command. HasKeys (needs_of command)) }
    ensures has_target_key { IfOk result (λ command. HasKey (target_access command)) }
    ensures has_key_after { IfOk result HasKeyAfter }
    ensures has_profile { IfOk result (λ command. IfSome (generated_by command) IsProfile) }
    ensures cause { IfErr result IsWordsStop }
{
    match command_in(alloc, words) {
        Ok(command) => Ok(command),
        Err(WordsFail::Wrong) => Err(refused(alloc, Reason::WrongWords, "words")),
        Err(WordsFail::NoMemory) => Err(Stop::NoMemory),
    }
}
