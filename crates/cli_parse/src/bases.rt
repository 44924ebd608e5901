//! How databases are opened that words name, and their files.
ghost use Rattle.std.specs.Prelude.{◌≡◌, IfOk};
ghost use Rattle.cli_options.specs.SaidWords.{said_seen};
ghost use Rattle.cli_parse.specs.Words as spec;

use cli_needs::{Access, ImportFormat};
use cli_options::{CommandOption, SaidWords, copy_of, is_given, text_of};
use outside_core::{NoMemory, Text};
use std::alloc::Global;

/// How a database is opened.
pub fn access_of(alloc: Global, said: &SaidWords<'_, '_>) -> Result<Access, NoMemory>
    ensures { IfOk result (λ access. access ≡ spec.access_of (said_seen said.now)) }
{
    Ok(Access {
        plain: is_given(said, CommandOption::Plain),
        quiet: is_given(said, CommandOption::Quiet),
        key_file: copy_of(alloc, text_of(said, CommandOption::KeyFile))?,
        no_password: is_given(said, CommandOption::NoPassword),
    })
}

// How each source of a merge is opened.
pub(crate) fn access_from(alloc: Global, said: &SaidWords<'_, '_>) -> Result<Access, NoMemory>
    ensures { IfOk result (λ access. access ≡ spec.access_from (said_seen said.now)) }
{
    if is_given(said, CommandOption::SameCredentials) {
        return access_of(alloc, said);
    }
    Ok(Access {
        plain: is_given(said, CommandOption::Plain),
        quiet: is_given(said, CommandOption::Quiet),
        key_file: copy_of(alloc, text_of(said, CommandOption::KeyFileFrom))?,
        no_password: is_given(said, CommandOption::NoPasswordFrom),
    })
}

// How a new database is opened.
pub(crate) fn access_new(alloc: Global, said: &SaidWords<'_, '_>) -> Result<Access, NoMemory>
    ensures { IfOk result (λ access. access ≡ spec.access_new (said_seen said.now)) }
{
    let plain = is_given(said, CommandOption::Plain);
    Ok(Access {
        plain,
        quiet: is_given(said, CommandOption::Quiet),
        key_file: copy_of(alloc, text_of(said, CommandOption::SetKeyFile))?,
        no_password: !(plain || is_given(said, CommandOption::SetPassword)),
    })
}

// How the source of an import is opened.
pub(crate) fn access_source(said: &SaidWords<'_, '_>, format: ImportFormat) -> Access
    ensures { result ≡ spec.access_source (said_seen said.now) format }
{
    Access {
        plain: !matches!(&format, ImportFormat::Psafe),
        quiet: is_given(said, CommandOption::Quiet),
        key_file: None,
        no_password: false,
    }
}

// How a database is opened, and its file.
#[derive(Drop)]
pub(crate) struct Base {
    pub access: Access,
    pub file: Text,
}

// A database that is opened so, with its file.
pub(crate) fn base_with(alloc: Global, access: Access, file: &Text) -> Result<Base, NoMemory>
    ensures access { IfOk result (λ base. base.access ≡ access) }
    ensures file { IfOk result (λ base. base.file ≡ file.now) }
{
    match Text::of(alloc, file.as_str()) {
        Ok(file) => Ok(Base { access, file }),
        Err(fail) => {
            drop(access);
            Err(fail)
        }
    }
}

// How a database is opened, and its file.
pub(crate) fn base_of(
    alloc: Global,
    said: &SaidWords<'_, '_>,
    file: &Text,
) -> Result<Base, NoMemory>
    ensures access { IfOk result (λ base. base.access ≡ spec.access_of (said_seen said.now)) }
    ensures file { IfOk result (λ base. base.file ≡ file.now) }
{
    match access_of(alloc, said) {
        Ok(access) => base_with(alloc, access, file),
        Err(fail) => Err(fail),
    }
}

// The same, and what a command names in the database.
#[derive(Drop)]
pub(crate) struct BaseAndPath {
    pub access: Access,
    pub file: Text,
    pub path: Text,
}

// The same, and what a command names in the database.
pub(crate) fn base_and_path(
    alloc: Global,
    said: &SaidWords<'_, '_>,
    file: &Text,
    path: &Text,
) -> Result<BaseAndPath, NoMemory>
    ensures access { IfOk result (λ both. both.access ≡ spec.access_of (said_seen said.now)) }
    ensures file { IfOk result (λ both. both.file ≡ file.now) }
    ensures path { IfOk result (λ both. both.path ≡ path.now) }
{
    let base = base_of(alloc, said, file)?;
    match Text::of(alloc, path.as_str()) {
        Ok(path) => Ok(BaseAndPath {
            access: base.access,
            file: base.file,
            path,
        }),
        Err(fail) => {
            drop(base);
            Err(fail)
        }
    }
}
