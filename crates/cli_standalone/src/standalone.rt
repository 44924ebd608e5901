//! Which command that needs no database the words of a call are.
ghost use Rattle.std.specs.Prelude.{◌≡◌, IfOk, IfSome, List, map, string_bytes};
ghost use Rattle.cli_options.specs.SaidWords.{Gives, said_seen};
ghost use Rattle.cli_standalone.specs.Standalone as spec;

use crate::counts::test_count;
use cli_options::{
    CommandName, SaidWords, WordsFail, command_named, is_whole, lend_said, read_after_name,
};
use cli_profiles::{PasswordProfile, profile_in};
use outside_core::{NoMemory, Text};
use std::alloc::Global;

/// A command that needs no database.
#[derive(Drop)]
pub enum Standalone {
    /// `generate`: a password by this profile.
    Password(PasswordProfile),
    /// `selftest N`: two copies of a database of so many entries, merged both ways.
    SelfTest(u32),
}

// The test of the program itself at these positions.
fn self_test_at(positions: &[Text]) -> Result<Standalone, WordsFail>
    ensures { Gives (λ standalone. standalone) result (spec.self_test_at positions.now) }
{
    let [text] = positions else {
        return Err(WordsFail::Wrong);
    };
    match test_count(text.as_str()) {
        Some(count) => Ok(Standalone::SelfTest(count)),
        None => Err(WordsFail::Wrong),
    }
}

// The password that is asked for at these positions.
fn password_at(alloc: Global, said: &SaidWords<'_, '_>) -> Result<Standalone, WordsFail>
    ensures { Gives (λ standalone. standalone) result
        (spec.password_at (said_seen said.now) said.now.positions.now) }
{
    if said.positions.is_empty() {
        Ok(Standalone::Password(profile_in(alloc, said)?))
    } else {
        Err(WordsFail::Wrong)
    }
}

// What the command of this name is at these positions.
fn standalone_at(
    alloc: Global,
    command: CommandName,
    said: &SaidWords<'_, '_>,
) -> Result<Standalone, WordsFail>
    ensures { Gives (λ standalone. standalone) result
        (spec.standalone_at command (said_seen said.now) said.now.positions.now) }
{
    match command {
        CommandName::Generate => password_at(alloc, said),
        CommandName::SelfTest => self_test_at(said.positions),
        _ => Err(WordsFail::Wrong),
    }
}

// What the command of this name is whose other words say this.
fn standalone_saying(
    alloc: Global,
    command: CommandName,
    said: &SaidWords<'_, '_>,
) -> Result<Standalone, WordsFail>
    ensures { Gives (λ standalone. standalone) result
        (spec.standalone_saying command (said_seen said.now)) }
{
    if is_whole(said) {
        standalone_at(alloc, command, said)
    } else {
        Err(WordsFail::Wrong)
    }
}

// What the command of this name is with these words after it.
fn standalone_by(
    alloc: Global,
    words: &[String],
    command: CommandName,
) -> Result<Standalone, WordsFail>
    ensures { Gives (λ standalone. standalone) result
        (spec.standalone_by (map string_bytes words.now) command) }
{
    match read_after_name(alloc, command, words) {
        Ok(read) => {
            let standalone = standalone_saying(alloc, command, &lend_said(&read));
            drop(read);
            standalone
        }
        Err(fail) => Err(fail),
    }
}

// The command without a database that the words are.
fn standalone_of(alloc: Global, words: &[String]) -> Result<Standalone, WordsFail>
    ensures { Gives (λ standalone. standalone) result
        (spec.standalone_of (map string_bytes words.now)) }
{
    let [name, words @ ..] = words else {
        return Err(WordsFail::Wrong);
    };
    match command_named(name.as_str()) {
        Some(command) => standalone_by(alloc, words, command),
        None => Err(WordsFail::Wrong),
    }
}

/// The command that the words are, if they are one that needs no database: its name, and then its
/// options and its positions in any order. It fails where memory runs out, as the texts of the
/// words are gathered.
pub fn read_standalone(alloc: Global, words: &[String]) -> Result<Option<Standalone>, NoMemory>
    ensures told { IfOk result (λ standalone. standalone
        ≡ spec.standalone_of (map string_bytes words.now)) }
    ensures in_order { IfOk result (λ standalone. IfSome standalone spec.IsStandalone) }
{
    match standalone_of(alloc, words) {
        Ok(standalone) => Ok(Some(standalone)),
        Err(WordsFail::Wrong) => Ok(None),
        Err(WordsFail::NoMemory) => Err(NoMemory),
    }
}
