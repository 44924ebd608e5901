//! Which file a call or a session may write. The host asks before the call is made, because of the file
//! of a call it lets only one call at a time go on, and that of a session it locks while it is written.
ghost use Rattle.std.specs.Prelude.{◌≡◌, IfOk, map, option_map, string_bytes};
ghost use Rattle.cli_parse.specs.Words.{command_of};
ghost use Rattle.cli_sessions.specs.Openings.{opening_of};
ghost use Rattle.keepass_call.specs.Outcome.{written_by, written_with};

use cli_messages::Stop;
use cli_needs::{Command, file_written};
use cli_parse::read_words;
use cli_sessions::{SessionDatabase, read_opening};
use outside_core::{NoMemory, Text};
use session_run::cli_commands::may_store;
use std::alloc::Global;

// The name of the file that a command may write, if it may write one.
fn name_with(alloc: Global, command: &Command) -> Result<Option<Text>, NoMemory>
    ensures { IfOk result (λ name. name ≡ written_with command.now) }
{
    if may_store(command) {
        match Text::of(alloc, file_written(command).as_str()) {
            Ok(name) => Ok(Some(name)),
            Err(fail) => Err(fail),
        }
    } else {
        Ok(None)
    }
}

/// The name of the file that words may write: none where they are no command that may write one.
pub fn file_to_write(alloc: Global, words: &[String]) -> Result<Option<Text>, NoMemory>
    ensures { IfOk result (λ name. name ≡ written_by (command_of (map string_bytes words.now))) }
{
    match read_words(alloc, words) {
        Ok(command) => {
            let name = name_with(alloc, &command);
            drop(command);
            name
        }
        Err(Stop::Refused(refusal)) => {
            drop(refusal);
            Ok(None)
        }
        Err(stop) => {
            drop(stop);
            Err(NoMemory)
        }
    }
}

// The name of the file of a session.
fn name_of(database: SessionDatabase) -> Text
    ensures { result ≡ database.file }
{
    let SessionDatabase { access, file } = database;
    drop(access);
    file
}

/// The name of the file of the session that words open, if they open one. Its lines may write it, each
/// of them once.
pub fn session_file(alloc: Global, words: &[String]) -> Result<Option<Text>, NoMemory>
    ensures { IfOk result (λ name. name
        ≡ option_map (λ database. database.file) (opening_of (map string_bytes words.now))) }
{
    match read_opening(alloc, words) {
        Ok(Some(database)) => Ok(Some(name_of(database))),
        Ok(None) => Ok(None),
        Err(fail) => Err(fail),
    }
}
