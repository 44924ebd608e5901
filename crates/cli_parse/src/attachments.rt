//! The commands of attachments: `attachment-export`, `attachment-import` and `attachment-rm`.
ghost use Rattle.std.specs.Prelude.{◌≡◌, IfOk};
ghost use Rattle.cli_options.specs.SaidWords.{Gives, said_seen, text_seen};
ghost use Rattle.cli_needs.specs.declared.command.Command.TheVariants.{ExportAttachment};
ghost use Rattle.cli_parse.specs.Words as spec;

use crate::bases::base_and_path;
use cli_needs::{Access, Command};
use cli_options::{CommandOption, SaidWords, WordsFail, copy_of, is_given};
use outside_core::{NoMemory, Text};
use std::alloc::Global;

// How a database is opened, its file, and the attachment of an entry there.
#[derive(Drop)]
struct AttachmentBase {
    access: Access,
    file: Text,
    entry: Text,
    name: Text,
}

// The same of these words.
fn attachment_base(
    alloc: Global,
    said: &SaidWords<'_, '_>,
    file: &Text,
    entry: &Text,
    name: &Text,
) -> Result<AttachmentBase, NoMemory>
    ensures access { IfOk result (λ base. base.access ≡ spec.access_of (said_seen said.now)) }
    ensures file { IfOk result (λ base. base.file ≡ file.now) }
    ensures entry { IfOk result (λ base. base.entry ≡ entry.now) }
    ensures name { IfOk result (λ base. base.name ≡ name.now) }
{
    let both = base_and_path(alloc, said, file, entry)?;
    match Text::of(alloc, name.as_str()) {
        Ok(name) => Ok(AttachmentBase {
            access: both.access,
            file: both.file,
            entry: both.path,
            name,
        }),
        Err(fail) => {
            drop(both);
            Err(fail)
        }
    }
}

// The command `attachment-export` of this attachment, into a new file where one is named.
fn export_of(alloc: Global, base: AttachmentBase, to: Option<&str>) -> Result<Command, NoMemory>
    ensures { IfOk result (λ command. command
        ≡ ExportAttachment base.access base.file base.entry base.name (text_seen to.entry)) }
{
    match copy_of(alloc, to) {
        Ok(to) => Ok(Command::ExportAttachment {
            access: base.access,
            file: base.file,
            entry: base.entry,
            name: base.name,
            to,
        }),
        Err(fail) => {
            drop(base);
            Err(fail)
        }
    }
}

/// The command `attachment-export` at these positions.
pub(crate) fn export_attachment_at(
    alloc: Global,
    said: &SaidWords<'_, '_>,
) -> Result<Command, WordsFail>
    ensures { Gives (λ command. command) result
        (spec.export_attachment_at (said_seen said.now) said.now.positions.now) }
{
    let is_printed = is_given(said, CommandOption::Stdout);
    match said.positions {
        [file, entry, name] if is_printed => {
            let base = attachment_base(alloc, said, file, entry, name)?;
            Ok(export_of(alloc, base, None)?)
        }
        [file, entry, name, to] if !is_printed => {
            let base = attachment_base(alloc, said, file, entry, name)?;
            Ok(export_of(alloc, base, Some(to.as_str()))?)
        }
        _ => Err(WordsFail::Wrong),
    }
}

/// The command `attachment-import` at these positions.
pub(crate) fn import_attachment_at(
    alloc: Global,
    said: &SaidWords<'_, '_>,
) -> Result<Command, WordsFail>
    ensures { Gives (λ command. command) result
        (spec.import_attachment_at (said_seen said.now) said.now.positions.now) }
{
    let [file, entry, name, source] = said.positions else {
        return Err(WordsFail::Wrong);
    };
    if name.as_str().is_empty() {
        return Err(WordsFail::Wrong);
    }
    let base = attachment_base(alloc, said, file, entry, name)?;
    match Text::of(alloc, source.as_str()) {
        Ok(source) => Ok(Command::ImportAttachment {
            access: base.access,
            file: base.file,
            entry: base.entry,
            name: base.name,
            source,
            replaces: is_given(said, CommandOption::Force),
        }),
        Err(fail) => {
            drop(base);
            Err(WordsFail::from(fail))
        }
    }
}

/// The command `attachment-rm` at these positions.
pub(crate) fn remove_attachment_at(
    alloc: Global,
    said: &SaidWords<'_, '_>,
) -> Result<Command, WordsFail>
    ensures { Gives (λ command. command) result
        (spec.remove_attachment_at (said_seen said.now) said.now.positions.now) }
{
    let [file, entry, name] = said.positions else {
        return Err(WordsFail::Wrong);
    };
    let base = attachment_base(alloc, said, file, entry, name)?;
    Ok(Command::RemoveAttachment {
        access: base.access,
        file: base.file,
        entry: base.entry,
        name: base.name,
    })
}
