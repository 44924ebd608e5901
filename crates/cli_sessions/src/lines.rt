//! The command of a line of a session.
ghost use Rattle.std.specs.Prelude.{◌≡◌, IfErr, IfOk, IfSome, map};
ghost use Rattle.cli_messages.specs.Phases.{IsWordsStop, Returns};
ghost use Rattle.cli_parse.specs.CliNeeds.Needs.{generated_by};
ghost use Rattle.cli_options.specs.Said.{with_position, with_words};
ghost use Rattle.cli_options.specs.SaidWords.{Gives, reading_seen, said_seen, text_seen};
ghost use Rattle.cli_profiles.specs.Profiles.{IsProfile};
ghost use Rattle.cli_sessions.specs.SessionLines as spec;
ghost use Rattle.cli_sessions.specs.SessionLines.{IsOfSession, line_command};

use cli_messages::{Reason, Stop, refused};
use cli_options::{
    CommandName, CommandOption, GivenTexts, OPTIONS, ReadingState, SaidWords, WordsFail,
    add_position, add_word, command_named, empty_state, is_given, no_texts, with_text,
};
use cli_parse::cli_needs::{Access, Command};
use cli_parse::command_saying;
use outside_core::Text;
use std::alloc::Global;

// Reports whether a line may be the command of this name.
fn is_line_name(command: CommandName) -> bool
    ensures { result ≡ spec.is_line_name command }
{
    matches!(
        command,
        CommandName::Ls
            | CommandName::Show
            | CommandName::Search
            | CommandName::Add
            | CommandName::Edit
            | CommandName::Move
            | CommandName::Remove
            | CommandName::MakeGroup
            | CommandName::RemoveGroup
            | CommandName::Info
    )
}

// Reports whether words say how a database is opened.
fn names_access(said: &SaidWords<'_, '_>) -> bool
    ensures { result ≡ spec.names_access (said_seen said.now) }
{
    is_given(said, CommandOption::Plain)
        || is_given(said, CommandOption::NoPassword)
        || is_given(said, CommandOption::KeyFile)
}

// The text of a flag, where it is given.
fn flag_text<'a>(is_given: bool) -> Option<&'a str>
    ensures { text_seen result ≡ spec.flag_text is_given }
{
    if is_given { Some("") } else { None }
}

// The name of a key file, where there is one.
fn name_in(key_file: &Option<Text>) -> Option<&str>
    ensures { text_seen result ≡ key_file.now }
{
    match key_file {
        Some(name) => Some(name.as_str()),
        None => None,
    }
}

// The texts of options with that of this option, where there is one.
fn with_text_if<'a>(
    option: CommandOption,
    text: Option<&'a str>,
    given: [Option<&'a str>; OPTIONS],
) -> [Option<&'a str>; OPTIONS]
    ensures { map text_seen result
        ≡ spec.with_text_if option (text_seen text.entry) (map text_seen given.entry) }
{
    match text {
        Some(text) => with_text(given, option, text),
        None => given,
    }
}

// What a line says, and how its session opened the database.
fn with_access<'a, 'b>(access: &'a Access, said: &SaidWords<'a, 'b>) -> SaidWords<'a, 'b>
    ensures { said_seen result ≡ spec.with_access access.now (said_seen said.now) }
{
    let given = with_text_if(CommandOption::Plain, flag_text(access.plain), said.given);
    let given = with_text_if(
        CommandOption::NoPassword,
        flag_text(access.no_password),
        given,
    );
    let given = with_text_if(CommandOption::KeyFile, name_in(&access.key_file), given);
    SaidWords {
        given: with_text_if(CommandOption::Quiet, flag_text(access.quiet), given),
        repeated: said.repeated,
        due: said.due,
        ended: said.ended,
        positions: said.positions,
    }
}

// The command of this name whose other words say this, in a session.
fn line_saying(
    alloc: Global,
    access: &Access,
    command: CommandName,
    said: &SaidWords<'_, '_>,
) -> Result<Command, WordsFail>
    ensures { Gives (λ command. command) result
        (spec.line_saying access.now command (said_seen said.now)) }
{
    if is_line_name(command) && !names_access(said) {
        command_saying(alloc, command, &with_access(access, said))
    } else {
        Err(WordsFail::Wrong)
    }
}

// Reads the words of a line after its database.
fn add_words<'a>(
    command: CommandName,
    given: &mut GivenTexts<'a>,
    state: &mut ReadingState,
    words: &'a [Text],
) -> Result<(), WordsFail>
    ensures { Gives (λ done. reading_seen given.new state.new) result
        (with_words command words.now (reading_seen given.old state.old)) }
{
    for word in words {
        add_word(command, given, state, word.as_str())?;
    }
    Ok(())
}

// Reads the database of a line, and its words.
fn add_line<'a>(
    command: CommandName,
    given: &mut GivenTexts<'a>,
    state: &mut ReadingState,
    file: &Text,
    words: &'a [Text],
) -> Result<(), WordsFail>
    ensures { Gives (λ done. reading_seen given.new state.new) result
        (with_words command words.now
        (with_position (reading_seen given.old state.old) file.now)) }
{
    add_position(*given, state, file.as_str())?;
    add_words(command, given, state, words)
}

// The command of this name with these words after it, in a session on this file.
fn line_by(
    alloc: Global,
    access: &Access,
    file: &Text,
    words: &[Text],
    command: CommandName,
) -> Result<Command, WordsFail>
    ensures { Gives (λ command. command) result
        (spec.line_by access.now file.now words.now command) }
{
    let mut given = no_texts();
    let mut state = empty_state(alloc);
    if let Err(fail) = add_line(command, &mut given, &mut state, file, words) {
        drop(state);
        return Err(fail);
    }
    let said = SaidWords {
        given: given.texts,
        repeated: state.repeated.as_slice(),
        due: state.due,
        ended: state.ended,
        positions: state.positions.as_slice(),
    };
    let made = line_saying(alloc, access, command, &said);
    drop(state);
    made
}

// The command that the words of a line are, if they are one.
fn line_in(
    alloc: Global,
    access: &Access,
    file: &Text,
    words: &[Text],
) -> Result<Command, WordsFail>
    ensures { Gives (λ command. command) result (spec.line_in access.now file.now words.now) }
{
    let [name, words @ ..] = words else {
        return Err(WordsFail::Wrong);
    };
    match command_named(name.as_str()) {
        Some(command) => line_by(alloc, access, file, words, command),
        None => Err(WordsFail::Wrong),
    }
}

/// The command of a line of a session, whose database is open: `access` says how it was opened, and
/// `file` is its name; `words` are those of the line. It is refused where the words are wrong, and
/// fails where memory runs out.
pub fn read_command(
    alloc: Global,
    access: &Access,
    file: &Text,
    words: &[Text],
) -> Result<Command, Stop>
    ensures told { Returns (λ command. command) result
        (line_command access.now file.now words.now) }
    ensures of_session { IfOk result (IsOfSession access.now file.now words.now) }
    ensures has_profile { IfOk result (λ command. IfSome (generated_by command) IsProfile) }
    ensures cause { IfErr result IsWordsStop }
{
    match line_in(alloc, access, file, words) {
        Ok(command) => Ok(command),
        Err(WordsFail::Wrong) => Err(refused(alloc, Reason::WrongWords, "words")),
        Err(WordsFail::NoMemory) => Err(Stop::NoMemory),
    }
}
