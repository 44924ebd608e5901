//! The commands on the file of a database: `db-create` and `db-edit`.
ghost use Rattle.std.specs.Prelude.{◌≡◌, IfOk, Some, false};
ghost use Rattle.cli_options.specs.SaidWords.{Gives, said_seen};
ghost use Rattle.cli_parse.specs.Words as spec;

use crate::bases::{access_new, base_of, base_with};
use crate::settings::{change_in, cipher_in, has_file_change, kdf_in};
use cli_needs::kdbx_frame::Cipher;
use cli_needs::{Access, Command, KdfAsked};
use cli_options::{
    CommandOption, SaidWords, WordsFail, copy_of, is_fit_change, is_fit_new, is_given, text_of,
};
use outside_core::{NoMemory, Text};
use std::alloc::Global;

// Reports whether what a new database is to be fits together.
fn is_fit_create(said: &SaidWords<'_, '_>) -> bool
    ensures { result ≡ spec.is_fit_create (said_seen said.now) }
{
    is_fit_new(said)
        && !(is_given(said, CommandOption::Plain)
            && (is_given(said, CommandOption::Cipher) || is_given(said, CommandOption::Kdf)))
}

// The command `db-create` of a file, with these settings.
fn create_with(
    alloc: Global,
    said: &SaidWords<'_, '_>,
    file: &Text,
    cipher: Option<Cipher>,
    kdf: Option<KdfAsked>,
) -> Result<Command, NoMemory>
    ensures { IfOk result (λ command. Some command
        ≡ spec.create_with (said_seen said.now) file.now (Some cipher) (Some kdf)) }
{
    let access = access_new(alloc, said)?;
    let base = base_with(alloc, access, file)?;
    match copy_of(alloc, text_of(said, CommandOption::DatabaseName)) {
        Ok(name) => Ok(Command::Create {
            access: base.access,
            file: base.file,
            name,
            cipher,
            kdf,
        }),
        Err(fail) => {
            drop(base);
            Err(fail)
        }
    }
}

/// The command `db-create` at these positions.
pub(crate) fn create_at(alloc: Global, said: &SaidWords<'_, '_>) -> Result<Command, WordsFail>
    ensures { Gives (λ command. command) result
        (spec.create_at (said_seen said.now) said.now.positions.now) }
{
    match said.positions {
        [file] if is_fit_create(said) => {
            let cipher = cipher_in(said)?;
            let kdf = kdf_in(said)?;
            Ok(create_with(alloc, said, file, cipher, kdf)?)
        }
        _ => Err(WordsFail::Wrong),
    }
}

// Reports whether what changes a file fits it, and there is a change.
fn is_fit_edit(said: &SaidWords<'_, '_>) -> bool
    ensures { result ≡ spec.is_fit_edit (said_seen said.now) }
{
    has_file_change(said) && is_fit_change(said)
}

// How a database is opened whose file is changed: it is no plain document.
fn sealed(mut access: Access) -> Access
    ensures { result ≡ record access { plain = false } }
{
    access.plain = false;
    access
}

// The command `db-edit` of a file.
fn edit_file_with(
    alloc: Global,
    said: &SaidWords<'_, '_>,
    file: &Text,
) -> Result<Command, WordsFail>
    ensures { Gives (λ command. command) result
        (spec.edit_file_with (said_seen said.now) file.now) }
{
    let change = change_in(alloc, said)?;
    match base_of(alloc, said, file) {
        Ok(base) => Ok(Command::EditFile {
            access: sealed(base.access),
            file: base.file,
            change,
        }),
        Err(fail) => {
            drop(change);
            Err(WordsFail::from(fail))
        }
    }
}

/// The command `db-edit` at these positions.
pub(crate) fn edit_file_at(alloc: Global, said: &SaidWords<'_, '_>) -> Result<Command, WordsFail>
    ensures { Gives (λ command. command) result
        (spec.edit_file_at (said_seen said.now) said.now.positions.now) }
{
    match said.positions {
        [file] if is_fit_edit(said) => edit_file_with(alloc, said, file),
        _ => Err(WordsFail::Wrong),
    }
}
