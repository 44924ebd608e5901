//! What the words of a call say.
ghost use Rattle.std.specs.Prelude.{◌≡◌, [], ◌∷◌, ◌++◌, false, IfOk, None, Some, map};
ghost use Rattle.cli_options.specs.SaidWords.{Gives, reading_seen, said_seen, text_seen, texts_among};
ghost use Rattle.cli_options.specs.Said as spec;
ghost use Rattle.cli_options.specs.declared.said.WordsFail.TheVariants as fail;

use crate::{CommandOption, OPTIONS, is_repeatable, place_of};
use outside_core::{List, NoMemory, Text};
use std::alloc::Global;

/// Why words are not taken.
#[derive(Clone, Copy)]
pub enum WordsFail {
    /// They are no command.
    Wrong,
    /// Memory ran out.
    NoMemory,
}

impl From<NoMemory> for WordsFail {
    ghost from_gives = { λ _ e. e ≡ fail.NoMemory };

    fn from(_none: NoMemory) -> WordsFail {
        WordsFail::NoMemory
    }
}

/// A text of an option that may occur more than once.
#[derive(Drop)]
pub struct RepeatedText {
    /// The option.
    pub option: CommandOption,
    /// The text.
    pub text: Text,
}

/// What the words after a command's name say.
#[derive(Clone, Copy)]
pub struct SaidWords<'a, 'b> {
    /// The last text of each option that was given, by its place; a flag's text is empty.
    pub given: [Option<&'a str>; OPTIONS],
    /// All texts of options that may occur more than once, in their order.
    pub repeated: &'b [RepeatedText],
    /// The option whose value is due in the next word.
    pub due: Option<CommandOption>,
    /// Whether `--` was there, after which no word is an option.
    pub ended: bool,
    /// The positions.
    pub positions: &'b [Text],
}

/// The texts of options that were given, while words are read.
#[derive(Clone, Copy)]
pub struct GivenTexts<'a> {
    /// The last text of each option, by its place; a flag's text is empty.
    pub texts: [Option<&'a str>; OPTIONS],
}

/// What else words say, while they are read.
#[derive(Drop)]
pub struct ReadingState {
    /// All texts of options that may occur more than once, in their order.
    pub repeated: List<RepeatedText>,
    /// The option whose value is due in the next word.
    pub due: Option<CommandOption>,
    /// Whether `--` was there, after which no word is an option.
    pub ended: bool,
    /// The positions.
    pub positions: List<Text>,
    // The memory in which the lists grow.
    alloc: Global,
}

/// What no words say of options.
pub fn no_texts<'a>() -> GivenTexts<'a>
    ensures { map text_seen result.texts ≡ spec.nothing_said.given }
{
    GivenTexts {
        texts: [None; OPTIONS],
    }
}

/// What no words say beside options.
pub fn empty_state(alloc: Global) -> ReadingState
    ensures repeated { result.repeated ≡ [] }
    ensures due { result.due ≡ None }
    ensures ended { result.ended ≡ false }
    ensures positions { result.positions ≡ [] }
{
    ReadingState {
        repeated: List::new(alloc),
        due: None,
        ended: false,
        positions: List::new(alloc),
        alloc,
    }
}

// The text of an option among these.
fn text_in<'a>(texts: [Option<&'a str>; OPTIONS], option: CommandOption) -> Option<&'a str>
    ensures { text_seen result ≡ spec.text_in option (map text_seen texts.entry) }
{
    texts[place_of(option)]
}

/// The text of an option, the last one where it was given more than once.
pub fn text_of<'a>(said: &SaidWords<'a, '_>, option: CommandOption) -> Option<&'a str>
    ensures { text_seen result ≡ spec.text_of option (said_seen said.now) }
{
    text_in(said.given, option)
}

/// Reports whether an option was given.
pub fn is_given(said: &SaidWords<'_, '_>, option: CommandOption) -> bool
    ensures { result ≡ spec.is_given option (said_seen said.now) }
{
    text_of(said, option).is_some()
}

// Reports whether an option is among these and must not be given once more.
fn is_used(texts: [Option<&str>; OPTIONS], option: CommandOption) -> bool
    ensures { result ≡ spec.is_used option (map text_seen texts.entry) }
{
    !is_repeatable(option) && text_in(texts, option).is_some()
}

/// The texts of options with one more, or another.
pub fn with_text<'a>(
    given: [Option<&'a str>; OPTIONS],
    option: CommandOption,
    text: &'a str,
) -> [Option<&'a str>; OPTIONS]
    ensures { map text_seen result
        ≡ spec.with_text (map text_seen given.entry) option text.now }
{
    let mut given = given;
    given[place_of(option)] = Some(text);
    given
}

// A text more in a list.
fn add_text(alloc: Global, texts: &mut List<Text>, text: &str) -> Result<(), WordsFail>
    ensures { Gives (λ done. texts.new) result (Some (texts.old ++ text.now ∷ [])) }
{
    match texts.push(Text::of(alloc, text)?) {
        Ok(()) => Ok(()),
        Err(_text) => Err(WordsFail::NoMemory),
    }
}

// A text more of an option that may occur more than once.
fn add_repeated(
    alloc: Global,
    repeated: &mut List<RepeatedText>,
    option: CommandOption,
    text: &str,
) -> Result<(), WordsFail>
    ensures { Gives (λ done. texts_among repeated.new) result
        (Some (spec.with_repeated (texts_among repeated.old) option text.now)) }
{
    let text = Text::of(alloc, text)?;
    match repeated.push(RepeatedText { option, text }) {
        Ok(()) => Ok(()),
        Err(_text) => Err(WordsFail::NoMemory),
    }
}

/// An option with its text, unless it must not be given once more.
pub fn add_given<'a>(
    given: &mut GivenTexts<'a>,
    state: &mut ReadingState,
    option: CommandOption,
    text: &'a str,
) -> Result<(), WordsFail>
    ensures { Gives (λ done. reading_seen given.new state.new) result
        (spec.with_given (reading_seen given.old state.old) option text.now) }
{
    let texts = given.texts;
    if is_used(texts, option) {
        return Err(WordsFail::Wrong);
    }
    if is_repeatable(option) {
        add_repeated(state.alloc, &mut state.repeated, option, text)?;
    }
    given.texts = with_text(texts, option, text);
    Ok(())
}

/// An option whose value is the next word, unless it must not be given once more.
pub fn add_due(
    given: GivenTexts<'_>,
    state: &mut ReadingState,
    option: CommandOption,
) -> Result<(), WordsFail>
    ensures { Gives (λ done. reading_seen given.entry state.new) result
        (spec.with_due (reading_seen given.entry state.old) option) }
{
    if is_used(given.texts, option) {
        return Err(WordsFail::Wrong);
    }
    state.due = Some(option);
    Ok(())
}

/// A position more.
pub fn add_position(
    given: GivenTexts<'_>,
    state: &mut ReadingState,
    word: &str,
) -> Result<(), WordsFail>
    ensures { Gives (λ done. reading_seen given.entry state.new) result
        (Some (spec.with_position (reading_seen given.entry state.old) word.now)) }
{
    add_text(state.alloc, &mut state.positions, word)
}

/// A copy of a text, where there is one.
pub fn copy_of(alloc: Global, text: Option<&str>) -> Result<Option<Text>, NoMemory>
    ensures { IfOk result (λ copy. copy ≡ text_seen text.entry) }
{
    match text {
        Some(text) => Ok(Some(Text::of(alloc, text)?)),
        None => Ok(None),
    }
}

/// Copies of all texts of an option that may occur more than once, in their order.
pub fn texts_of(
    alloc: Global,
    said: &SaidWords<'_, '_>,
    option: CommandOption,
) -> Result<List<Text>, NoMemory>
    ensures { IfOk result (λ texts. texts ≡ spec.texts_of option (said_seen said.now)) }
{
    let mut texts = List::new(alloc);
    for repeated in said.repeated {
        if place_of(repeated.option) != place_of(option) {
            continue;
        }
        let Ok(()) = texts.push(Text::of(alloc, repeated.text.as_str())?) else {
            return Err(NoMemory);
        };
    }
    Ok(texts)
}

/// Copies of texts.
pub fn copies_of(alloc: Global, texts: &[Text]) -> Result<List<Text>, NoMemory>
    ensures { IfOk result (λ copies. copies ≡ texts.now) }
{
    let mut copies = List::new(alloc);
    for text in texts {
        let Ok(()) = copies.push(Text::of(alloc, text.as_str())?) else {
            return Err(NoMemory);
        };
    }
    Ok(copies)
}
