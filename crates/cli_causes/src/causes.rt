//! Finding why words are no command.
ghost use Rattle.std.specs.Prelude.{◌≡◌, codes, drop, IfOk, None, is_some, map, string_bytes};
ghost use Rattle.cli_causes.specs.Causes as spec;
ghost use Rattle.cli_causes.specs.declared.cause.Cause.TheVariants as cause;
ghost use Rattle.cli_options.specs.Laws.{is_flag_letter};
ghost use Rattle.cli_options.specs.Prefixes as prefixes;
ghost use Rattle.cli_options.specs.Prefixes.{after_sign, before_sign};
ghost use Rattle.cli_options.specs.SaidWords.{Gives, reading_seen, said_seen, text_seen};
ghost use Rattle.cli_options.specs.Said as said_spec;

use crate::cause::Cause;
use crate::whole::said_cause;
use cli_options::{
    CommandName, CommandOption, GivenTexts, ReadingState, SaidWords, WordsFail, add_words,
    command_named, empty_state, has_value, letter_option, name_option, no_texts,
};
use outside_core::{NoMemory, Text};
use std::alloc::Global;
use std::slice::from_ref;

// Reports whether a letter is a flag of a command.
fn is_flag(command: CommandName, letter: u8) -> bool
    ensures { result ≡ is_flag_letter command letter }
{
    match letter_option(command, letter) {
        Some(option) => !has_value(option),
        None => false,
    }
}

// The flag before a letter that is `=`.
fn flag_before(previous: Option<u8>, letter: u8) -> Option<u8>
    ensures { result ≡ spec.flag_before previous letter }
{
    if letter == b'=' { previous } else { None }
}

// A letter that no option of a command has.
fn unknown_letter(
    alloc: Global,
    command: CommandName,
    word: &str,
    letter: u8,
) -> Result<Cause, NoMemory>
    ensures { IfOk result (λ cause. cause ≡ spec.unknown_letter command word.now letter) }
{
    if letter < 128 {
        Ok(Cause::UnknownLetter(command, letter))
    } else {
        Ok(Cause::UnknownWord(command, Text::of(alloc, word)?))
    }
}

// A letter that is no flag of a command, after the one before it.
fn letter_cause(
    alloc: Global,
    command: CommandName,
    word: &str,
    previous: Option<u8>,
    letter: u8,
) -> Result<Cause, NoMemory>
    ensures { IfOk result (λ cause. cause ≡ spec.letter_cause command word.now previous letter) }
{
    if letter_option(command, letter).is_some() {
        return Ok(Cause::JoinedValue(letter));
    }
    match flag_before(previous, letter) {
        Some(flag) => Ok(Cause::LetterTakesNoValue(flag)),
        None => unknown_letter(alloc, command, word, letter),
    }
}

// The first letter of a word that is no flag of a command.
fn wrong_letter(
    alloc: Global,
    command: CommandName,
    word: &str,
    letters: &[u8],
) -> Result<Option<Cause>, NoMemory>
    ensures { IfOk result (λ cause. cause ≡ spec.wrong_letter command word.now None letters.now) }
{
    let mut previous = None;
    for letter in letters {
        if !is_flag(command, *letter) {
            return Ok(Some(letter_cause(alloc, command, word, previous, *letter)?));
        }
        previous = Some(*letter);
    }
    Ok(None)
}

// A word of flags of which one was given before.
fn flags_twice(alloc: Global, word: &str) -> Result<Cause, NoMemory>
    ensures { IfOk result (λ made. made ≡ cause.FlagsTwice word.now) }
{
    Ok(Cause::FlagsTwice(Text::of(alloc, word)?))
}

// Letters of which each is a flag, and one was given before.
fn twice_cause(
    alloc: Global,
    command: CommandName,
    word: &str,
    letters: &[u8],
) -> Result<Cause, NoMemory>
    ensures { IfOk result (λ cause. cause ≡ spec.twice_cause command word.now letters.now) }
{
    let [letter] = letters else {
        return flags_twice(alloc, word);
    };
    match letter_option(command, *letter) {
        Some(option) => Ok(Cause::OptionTwice(option)),
        None => flags_twice(alloc, word),
    }
}

// Letters joined in a word.
#[tactic(auto, unfolding(crate::specs::Causes::letters_cause))]
fn letters_cause(
    alloc: Global,
    command: CommandName,
    word: &str,
    letters: &[u8],
) -> Result<Cause, NoMemory>
    ensures { IfOk result (λ cause. cause ≡ spec.letters_cause command word.now letters.now) }
{
    match wrong_letter(alloc, command, word, letters)? {
        Some(cause) => Ok(cause),
        None => twice_cause(alloc, command, word, letters),
    }
}

// An option that has a value, where there is one.
fn valued(option: Option<CommandOption>) -> Option<CommandOption>
    ensures { result ≡ spec.valued option }
{
    match option {
        Some(option) if has_value(option) => Some(option),
        _ => None,
    }
}

// An option that was given before, or else joined letters.
fn option_or_letters(
    alloc: Global,
    command: CommandName,
    word: &str,
    letters: &[u8],
    option: Option<CommandOption>,
) -> Result<Cause, NoMemory>
    ensures { IfOk result (λ cause. cause
        ≡ spec.option_or_letters command word.now letters.now option) }
{
    match option {
        Some(option) => Ok(Cause::OptionTwice(option)),
        None => letters_cause(alloc, command, word, letters),
    }
}

// A word of one `-` with these letters after it.
fn short_cause(
    alloc: Global,
    command: CommandName,
    word: &str,
    letters: &[u8],
) -> Result<Cause, NoMemory>
    ensures { IfOk result (λ cause. cause ≡ spec.short_cause command word.now letters.now) }
{
    match letters {
        [] => flags_twice(alloc, word),
        [letter, ..] => {
            let option = valued(letter_option(command, *letter));
            option_or_letters(alloc, command, word, letters, option)
        }
    }
}

// A text before its first `=`, and whether it has one.
fn split_at_sign<'a>(text: &'a str) -> (&'a str, bool)
    ensures before { result.0.now ≡ before_sign text.now }
    ensures after { result.1 ≡ is_some (after_sign text.now) }
{
    match text.split_once('=') {
        Some((name, _value)) => (name, true),
        None => (text, false),
    }
}

// A word of two `-` with this after them.
fn long_cause(alloc: Global, command: CommandName, text: &str) -> Result<Cause, NoMemory>
    ensures { IfOk result (λ cause. cause ≡ spec.long_cause command text.now) }
{
    let (name, has_sign) = split_at_sign(text);
    match name_option(command, name) {
        Some(option) if !has_value(option) && has_sign => Ok(Cause::TakesNoValue(option)),
        Some(option) => Ok(Cause::OptionTwice(option)),
        None => Ok(Cause::UnknownOption(command, Text::of(alloc, name)?)),
    }
}

// A word after `--`, where it begins so.
fn after_hyphens<'a>(word: &'a str) -> Option<&'a str>
    ensures { text_seen result ≡ prefixes.strip_prefix (codes "--") word.now }
{
    word.strip_prefix("--")
}

// The bytes of a word after the first one.
fn letters_of<'a>(word: &'a str) -> &'a [u8]
    ensures { result.now ≡ drop 1 word.now }
{
    match word.as_bytes() {
        [_, letters @ ..] => letters,
        [] => &[],
    }
}

// A word that is an option.
fn option_cause(alloc: Global, command: CommandName, word: &str) -> Result<Cause, NoMemory>
    ensures { IfOk result (λ cause. cause ≡ spec.option_cause command word.now) }
{
    match after_hyphens(word) {
        Some(text) => long_cause(alloc, command, text),
        None => short_cause(alloc, command, word, letters_of(word)),
    }
}

// A word that is wrong, after another one.
fn word_cause(
    alloc: Global,
    command: CommandName,
    previous: &str,
    word: &str,
    due: Option<CommandOption>,
) -> Result<Cause, NoMemory>
    ensures { IfOk result (λ cause. cause
        ≡ spec.word_cause command previous.now word.now due) }
{
    match due {
        Some(_) => Ok(Cause::OptionAsValue(Text::of(alloc, previous)?)),
        None => option_cause(alloc, command, word),
    }
}

// A word more.
#[tactic(auto, using(crate::proofs::Steps::one_word))]
fn add_word<'a>(
    command: CommandName,
    given: &mut GivenTexts<'a>,
    state: &mut ReadingState,
    word: &'a String,
) -> Result<(), WordsFail>
    ensures { Gives (λ done. reading_seen given.new state.new) result
        (said_spec.with_word command (reading_seen given.old state.old) (string_bytes word.now)) }
{
    add_words(command, given, state, from_ref(word))
}

// What is wrong in words after this one, where those before them say this.
fn cause_from<'a>(
    alloc: Global,
    command: CommandName,
    previous: &'a str,
    words: &'a [String],
    given: &mut GivenTexts<'a>,
    state: &mut ReadingState,
) -> Result<Option<Cause>, NoMemory>
    ensures { IfOk result (λ cause. cause ≡ spec.cause_from command previous.now
        (map string_bytes words.now) (reading_seen given.old state.old)) }
{
    let mut last = previous;
    for word in words {
        let due = state.due;
        match add_word(command, given, state, word) {
            Ok(()) => last = word.as_str(),
            Err(WordsFail::Wrong) => {
                return Ok(Some(word_cause(alloc, command, last, word.as_str(), due)?));
            }
            Err(WordsFail::NoMemory) => return Err(NoMemory),
        }
    }
    let said = SaidWords {
        given: given.texts,
        repeated: state.repeated.as_slice(),
        due: state.due,
        ended: state.ended,
        positions: state.positions.as_slice(),
    };
    said_cause(alloc, command, last, &said)
}

// Why the words after a command's name are not those of the command.
fn command_cause(
    alloc: Global,
    command: CommandName,
    name: &str,
    words: &[String],
) -> Result<Option<Cause>, NoMemory>
    ensures { IfOk result (λ cause. cause ≡ spec.cause_from command name.now
        (map string_bytes words.now) said_spec.nothing_said) }
{
    let mut given = no_texts();
    let mut state = empty_state(alloc);
    let cause = cause_from(alloc, command, name, words, &mut given, &mut state);
    drop(state);
    cause
}

// Reports whether a word is an option.
fn is_option(word: &str) -> bool
    ensures { result ≡ said_spec.is_option word.now }
{
    let bytes = word.as_bytes();
    bytes.len() >= 2 && bytes[0] == b'-'
}

// A word that is no command's name.
fn name_cause(alloc: Global, word: &str) -> Result<Cause, NoMemory>
    ensures { IfOk result (λ cause. cause ≡ spec.name_cause word.now) }
{
    let text = Text::of(alloc, word)?;
    if is_option(word) {
        Ok(Cause::OptionFirst(text))
    } else {
        Ok(Cause::UnknownCommand(text))
    }
}

/// Why words are no command, with a database or without one, and open no session, if they do neither:
/// the first word from the left that is wrong, and else the first of what all of them lack or what
/// does not go together.
pub fn cause_of(alloc: Global, words: &[String]) -> Result<Option<Cause>, NoMemory>
    ensures { IfOk result (λ cause. cause ≡ spec.cause_of (map string_bytes words.now)) }
{
    let [word, rest @ ..] = words else {
        return Ok(Some(Cause::NoCommand));
    };
    match command_named(word.as_str()) {
        Some(command) => command_cause(alloc, command, word.as_str(), rest),
        None => Ok(Some(name_cause(alloc, word.as_str())?)),
    }
}
