//! Which words of a call open a session, and over which database.
ghost use Rattle.std.specs.Prelude.{◌≡◌, IfOk, IfSome, map, string_bytes};
ghost use Rattle.cli_parse.specs.CliNeeds.Needs.{HasKey};
ghost use Rattle.cli_options.specs.SaidWords.{Gives, said_seen};
ghost use Rattle.cli_parse.specs.Words as words_spec;
ghost use Rattle.cli_sessions.specs.Openings as spec;

use cli_options::{
    CommandName, SaidWords, WordsFail, command_named, is_whole, lend_said, read_after_name,
};
use cli_parse::access_of;
use cli_parse::cli_needs::Access;
use outside_core::{NoMemory, Text};
use std::alloc::Global;

/// How the database of a session is opened, and its file.
#[derive(Drop)]
pub struct SessionDatabase {
    /// How it is opened.
    pub access: Access,
    /// The name of its file.
    pub file: Text,
}

// The database of a session over this file, opened as words say.
fn database_of(
    alloc: Global,
    said: &SaidWords<'_, '_>,
    file: &Text,
) -> Result<SessionDatabase, NoMemory>
    ensures access { IfOk result (λ database. database.access
        ≡ words_spec.access_of (said_seen said.now)) }
    ensures file { IfOk result (λ database. database.file ≡ file.now) }
{
    let access = access_of(alloc, said)?;
    match Text::of(alloc, file.as_str()) {
        Ok(file) => Ok(SessionDatabase { access, file }),
        Err(fail) => {
            drop(access);
            Err(fail)
        }
    }
}

// The session that `open` opens at this position.
fn opening_at(alloc: Global, said: &SaidWords<'_, '_>) -> Result<SessionDatabase, WordsFail>
    ensures { Gives (λ database. database) result
        (spec.opening_at (said_seen said.now) said.now.positions.now) }
{
    let [file] = said.positions else {
        return Err(WordsFail::Wrong);
    };
    Ok(database_of(alloc, said, file)?)
}

// The session that the command of this name opens, whose other words say this.
fn opening_saying(
    alloc: Global,
    command: CommandName,
    said: &SaidWords<'_, '_>,
) -> Result<SessionDatabase, WordsFail>
    ensures { Gives (λ database. database) result
        (spec.opening_saying command (said_seen said.now)) }
{
    match command {
        CommandName::Open if is_whole(said) => opening_at(alloc, said),
        _ => Err(WordsFail::Wrong),
    }
}

// The session that the command of this name opens, with these words after it.
fn opening_by(
    alloc: Global,
    words: &[String],
    command: CommandName,
) -> Result<SessionDatabase, WordsFail>
    ensures { Gives (λ database. database) result
        (spec.opening_by (map string_bytes words.now) command) }
{
    match read_after_name(alloc, command, words) {
        Ok(read) => {
            let opening = opening_saying(alloc, command, &lend_said(&read));
            drop(read);
            opening
        }
        Err(fail) => Err(fail),
    }
}

// The session that the words open.
fn opening_of(alloc: Global, words: &[String]) -> Result<SessionDatabase, WordsFail>
    ensures { Gives (λ database. database) result (spec.opening_of (map string_bytes words.now)) }
{
    let [name, words @ ..] = words else {
        return Err(WordsFail::Wrong);
    };
    match command_named(name.as_str()) {
        Some(command) => opening_by(alloc, words, command),
        None => Err(WordsFail::Wrong),
    }
}

/// The database of the session that the words open, if they open one: `open`, and then its options
/// and the file in any order. It has a password or a key file, or is a plain document. It fails where
/// memory runs out.
pub fn read_opening(alloc: Global, words: &[String]) -> Result<Option<SessionDatabase>, NoMemory>
    ensures told { IfOk result (λ database. database
        ≡ spec.opening_of (map string_bytes words.now)) }
    ensures has_key { IfOk result (λ database. IfSome database (λ database.
        HasKey database.access)) }
{
    match opening_of(alloc, words) {
        Ok(database) => Ok(Some(database)),
        Err(WordsFail::Wrong) => Ok(None),
        Err(WordsFail::NoMemory) => Err(NoMemory),
    }
}
