//! Of which characters a generated password is made, and of how many.
ghost use Rattle.std.specs.Prelude.{◌≡◌, IfOk};
ghost use Rattle.cli_options.specs.SaidWords.{Gives, said_seen, text_seen};
ghost use Rattle.cli_profiles.specs.Profiles as spec;

use cli_options::outside_core::{NoMemory, Text};
use cli_options::{CommandOption, SaidWords, WordsFail, is_given, number_of, text_of};
use std::alloc::Global;

/// How a password is generated: of so many characters, each one of this alphabet.
#[derive(Drop)]
pub struct PasswordProfile {
    /// How many characters it has.
    pub length: u32,
    /// The characters that it can have.
    pub alphabet: Text,
}

// Classes of characters: small letters, large letters, digits and signs.
#[derive(Clone, Copy)]
struct Classes {
    lower: bool,
    upper: bool,
    numeric: bool,
    special: bool,
}

// All characters, by classes.
const CHARACTERS: &str =
    "abcdefghijklmnopqrstuvwxyzABCDEFGHIJKLMNOPQRSTUVWXYZ0123456789!\"#$%&'()*+,-./:;<=>?@[\\]^_`{|}~";

/// Reports whether a class of characters is asked for.
pub(crate) fn has_class(said: &SaidWords<'_, '_>) -> bool
    ensures { result ≡ spec.has_class (said_seen said.now) }
{
    is_given(said, CommandOption::Lower)
        || is_given(said, CommandOption::Upper)
        || is_given(said, CommandOption::Numeric)
        || is_given(said, CommandOption::Special)
}

// The classes that are asked for, or else letters and digits.
fn classes_of(said: &SaidWords<'_, '_>) -> Classes
    ensures { result ≡ spec.classes_of (said_seen said.now) }
{
    if has_class(said) {
        Classes {
            lower: is_given(said, CommandOption::Lower),
            upper: is_given(said, CommandOption::Upper),
            numeric: is_given(said, CommandOption::Numeric),
            special: is_given(said, CommandOption::Special),
        }
    } else {
        Classes {
            lower: true,
            upper: true,
            numeric: true,
            special: false,
        }
    }
}

// Reports whether a character is of one of these classes.
fn has_character(classes: Classes, c: u8) -> bool
    ensures { result ≡ spec.has_character classes c }
{
    match c {
        b'a'..=b'z' => classes.lower,
        b'A'..=b'Z' => classes.upper,
        b'0'..=b'9' => classes.numeric,
        _ => classes.special,
    }
}

// Reports whether a text has this byte.
fn text_has(text: &[u8], c: u8) -> bool
    ensures { result ≡ spec.text_has text.now c }
{
    for b in text {
        if *b == c {
            return true;
        }
    }
    false
}

// Reports whether a text, where there is one, has this byte.
fn has_byte(text: Option<&str>, c: u8) -> bool
    ensures { result ≡ spec.has_byte (text_seen text.entry) c }
{
    match text {
        Some(text) => text_has(text.as_bytes(), c),
        None => false,
    }
}

// Reports whether a character is of a class that is asked for, and is not excluded.
fn is_wanted(said: &SaidWords<'_, '_>, c: u8) -> bool
    ensures { result ≡ spec.is_wanted (said_seen said.now) c }
{
    has_character(classes_of(said), c) && !has_byte(text_of(said, CommandOption::Exclude), c)
}

/// The characters that the password can have.
pub fn alphabet_of(alloc: Global, said: &SaidWords<'_, '_>) -> Result<Text, NoMemory>
    ensures { IfOk result (λ alphabet. alphabet ≡ spec.alphabet_of (said_seen said.now)) }
{
    let mut alphabet = Text::new(alloc);
    for c in CHARACTERS.as_bytes() {
        if is_wanted(said, *c) {
            let Ok(()) = alphabet.push(char::from(*c)) else {
                return Err(NoMemory);
            };
        }
    }
    Ok(alphabet)
}

// The number, if a password can be so long.
fn as_length(number: u64) -> Option<u32>
    ensures { result ≡ spec.as_length number }
{
    if number >= 1 && number <= 4096 {
        Some(number as u32)
    } else {
        None
    }
}

/// The length that a text of one to four digits is.
pub fn length_named(text: &str) -> Option<u32>
    ensures { result ≡ spec.length_named text.now }
{
    match number_of(4, text) {
        Some(number) => as_length(number),
        None => None,
    }
}

// The length that is asked for: 32 where none is named.
fn length_asked(text: Option<&str>) -> Option<u32>
    ensures { result ≡ spec.length_asked (text_seen text.entry) }
{
    match text {
        Some(text) => length_named(text),
        None => Some(32),
    }
}

/// The profile that is asked for, if its length is one and it has any character.
pub fn profile_in(alloc: Global, said: &SaidWords<'_, '_>) -> Result<PasswordProfile, WordsFail>
    ensures { Gives (λ profile. profile) result (spec.profile_in (said_seen said.now)) }
{
    let Some(length) = length_asked(text_of(said, CommandOption::Length)) else {
        return Err(WordsFail::Wrong);
    };
    let alphabet = alphabet_of(alloc, said)?;
    if alphabet.len() == 0 {
        drop(alphabet);
        return Err(WordsFail::Wrong);
    }
    Ok(PasswordProfile { length, alphabet })
}
