//! Reading what the words of a call say.
ghost use Rattle.std.specs.Prelude.{◌≡◌, codes, map, string_bytes};
ghost use Rattle.cli_options.specs.Prefixes as prefixes;
ghost use Rattle.cli_options.specs.Prefixes.{after_sign, before_sign};
ghost use Rattle.cli_options.specs.SaidWords.{Gives, reading_seen, text_seen};
ghost use Rattle.cli_options.specs.Said as spec;
ghost use Rattle.cli_options.specs.Said.{with_words};

use crate::said::{GivenTexts, ReadingState, WordsFail, add_due, add_given, add_position};
use crate::{CommandName, CommandOption, has_value, letter_option, name_option};

// Reports whether a word is an option: two or more bytes, of which the first is `-`.
fn is_option(word: &str) -> bool
    ensures { result ≡ spec.is_option word.now }
{
    let bytes = word.as_bytes();
    bytes.len() >= 2 && bytes[0] == b'-'
}

// A word after a prefix of it, where it begins so.
fn strip_prefix<'a>(prefix: &str, word: &'a str) -> Option<&'a str>
    ensures { text_seen result ≡ prefixes.strip_prefix prefix.now word.now }
{
    word.strip_prefix(prefix)
}

// A text before its first `=`, and after it, where there is one.
fn split_at_sign<'a>(text: &'a str) -> (&'a str, Option<&'a str>)
    ensures before { result.0.now ≡ before_sign text.now }
    ensures after { text_seen result.1 ≡ after_sign text.now }
{
    match text.split_once('=') {
        Some((name, value)) => (name, Some(value)),
        None => (text, None),
    }
}

// A flag more; an option that has a value is none.
fn add_flag(
    given: &mut GivenTexts<'_>,
    state: &mut ReadingState,
    option: Option<CommandOption>,
) -> Result<(), WordsFail>
    ensures { Gives (λ done. reading_seen given.new state.new) result
        (spec.with_flag (reading_seen given.old state.old) option) }
{
    match option {
        Some(option) if has_value(option) => Err(WordsFail::Wrong),
        Some(option) => add_given(given, state, option, ""),
        None => Err(WordsFail::Wrong),
    }
}

// Flags joined in one word.
fn add_letters(
    command: CommandName,
    given: &mut GivenTexts<'_>,
    state: &mut ReadingState,
    letters: &[u8],
) -> Result<(), WordsFail>
    ensures { Gives (λ done. reading_seen given.new state.new) result
        (spec.with_letters command letters.now (reading_seen given.old state.old)) }
{
    for letter in letters {
        add_flag(given, state, letter_option(command, *letter))?;
    }
    Ok(())
}

// A value after the letter of its option, from which `=` may part it.
fn without_sign<'a>(joined: &'a str) -> &'a str
    ensures { result.now ≡ spec.without_sign joined.now }
{
    match strip_prefix("=", joined) {
        Some(value) => value,
        None => joined,
    }
}

// An option with its value after it in the same word, or else in the next one.
fn add_joined<'a>(
    given: &mut GivenTexts<'a>,
    state: &mut ReadingState,
    option: CommandOption,
    joined: &'a str,
) -> Result<(), WordsFail>
    ensures { Gives (λ done. reading_seen given.new state.new) result
        (spec.with_joined (reading_seen given.old state.old) option joined.now) }
{
    if joined.is_empty() {
        add_due(*given, state, option)
    } else {
        add_given(given, state, option, without_sign(joined))
    }
}

// An option of one `-`: of a letter with its value after it, or of joined letters.
fn add_short<'a>(
    command: CommandName,
    given: &mut GivenTexts<'a>,
    state: &mut ReadingState,
    letters: &'a str,
) -> Result<(), WordsFail>
    ensures { Gives (λ done. reading_seen given.new state.new) result
        (spec.with_short command (reading_seen given.old state.old) letters.now) }
{
    let [letter, ..] = letters.as_bytes() else {
        return Ok(());
    };
    match letter_option(command, *letter) {
        Some(option) if has_value(option) => add_joined(given, state, option, &letters[1..]),
        _ => add_letters(command, given, state, letters.as_bytes()),
    }
}

// An option by its long name: with its value after `=`, or in the next word; or a flag.
fn add_long<'a>(
    given: &mut GivenTexts<'a>,
    state: &mut ReadingState,
    option: Option<CommandOption>,
    value: Option<&'a str>,
) -> Result<(), WordsFail>
    ensures { Gives (λ done. reading_seen given.new state.new) result
        (spec.with_long (reading_seen given.old state.old) option (text_seen value.entry)) }
{
    let Some(option) = option else {
        return Err(WordsFail::Wrong);
    };
    match (has_value(option), value) {
        (true, Some(value)) => add_given(given, state, option, value),
        (true, None) => add_due(*given, state, option),
        (false, Some(_)) => Err(WordsFail::Wrong),
        (false, None) => add_given(given, state, option, ""),
    }
}

// The word `--`, or an option of two `-` and what comes after them.
fn add_name<'a>(
    command: CommandName,
    given: &mut GivenTexts<'a>,
    state: &mut ReadingState,
    name: &'a str,
) -> Result<(), WordsFail>
    ensures { Gives (λ done. reading_seen given.new state.new) result
        (spec.with_name command (reading_seen given.old state.old) name.now) }
{
    if name.is_empty() {
        state.ended = true;
        return Ok(());
    }
    let (name, value) = split_at_sign(name);
    add_long(given, state, name_option(command, name), value)
}

// An option more.
fn add_option<'a>(
    command: CommandName,
    given: &mut GivenTexts<'a>,
    state: &mut ReadingState,
    word: &'a str,
) -> Result<(), WordsFail>
    ensures { Gives (λ done. reading_seen given.new state.new) result
        (spec.with_option command (reading_seen given.old state.old)
        (prefixes.strip_prefix (codes "--") word.now)
        (prefixes.strip_prefix (codes "-") word.now)) }
{
    if let Some(name) = strip_prefix("--", word) {
        return add_name(command, given, state, name);
    }
    match strip_prefix("-", word) {
        Some(letters) => add_short(command, given, state, letters),
        None => Err(WordsFail::Wrong),
    }
}

/// Reads one word more after a command's name.
pub fn add_word<'a>(
    command: CommandName,
    given: &mut GivenTexts<'a>,
    state: &mut ReadingState,
    word: &'a str,
) -> Result<(), WordsFail>
    ensures { Gives (λ done. reading_seen given.new state.new) result
        (spec.with_word command (reading_seen given.old state.old) word.now) }
{
    match state.due {
        Some(_) if is_option(word) => Err(WordsFail::Wrong),
        Some(option) => {
            state.due = None;
            add_given(given, state, option, word)
        }
        None if is_option(word) && !state.ended => add_option(command, given, state, word),
        None => add_position(*given, state, word),
    }
}

/// Reads all words after a command's name.
pub fn add_words<'a>(
    command: CommandName,
    given: &mut GivenTexts<'a>,
    state: &mut ReadingState,
    words: &'a [String],
) -> Result<(), WordsFail>
    ensures { Gives (λ done. reading_seen given.new state.new) result
        (with_words command (map string_bytes words.now) (reading_seen given.old state.old)) }
{
    for word in words {
        add_word(command, given, state, word.as_str())?;
    }
    Ok(())
}
