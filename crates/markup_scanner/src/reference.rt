//! References: `&amp;` and its like, and characters by their numbers.

ghost use Rattle.std.specs.Prelude.{◌≡◌, ◌≤◌, ◌<◌, ◌+◌, ◌&&◌, ◌==◌, true, length};
ghost use Rattle.markup_grammar.specs.Bytes as bytes_of;
ghost use Rattle.markup_grammar.specs.Machine.{begun, hash, after_a};
ghost use Rattle.markup_scanner.specs.Scans.{Leads, EndsWithin, Host, host_begin, host_state, host_reference};
ghost use Rattle.markup_scanner.specs.Numbers.{IsBaseGiven, first_of, is_digit_of, radix_of, is_character};

use crate::run::{literal_end, past};

/// The base of a character's number.
#[derive(Clone, Copy)]
pub(crate) enum Base {
    Decimal,
    Hexadecimal,
}

/// The greatest number of a character.
const LAST_CHARACTER: u32 = 0x10_FFFF;

/// The end of the reference whose `&` is before a place, or the first place at which it is none.
pub(crate) fn reference_end(text: &[u8], at: usize) -> Result<usize, usize>
    requires { at ≤ length text.now }
    ensures reference { (h : Host) → host_begin h ≤ at
        → Leads text.now (host_reference text.now h begun at) at (host_state text.now h) result }
    ensures within { EndsWithin text.now at result }
{
    if let Ok(number) = past(text, at, b'#') {
        character_end(text, number)
    } else if let Ok(rest) = past(text, at, b'a') {
        amp_or_apos_end(text, rest)
    } else if let Ok(rest) = past(text, at, b'q') {
        literal_end(text, rest, b"uot;")
    } else if let Ok(rest) = past(text, at, b'l') {
        literal_end(text, rest, b"t;")
    } else {
        literal_end(text, past(text, at, b'g')?, b"t;")
    }
}

/// The end of the reference whose `&a` is before a place, or the first place at which it is none.
fn amp_or_apos_end(text: &[u8], at: usize) -> Result<usize, usize>
    requires { at ≤ length text.now }
    ensures reference { (h : Host) → host_begin h ≤ at
        → Leads text.now (host_reference text.now h after_a at) at (host_state text.now h) result }
    ensures within { EndsWithin text.now at result }
{
    if let Ok(rest) = past(text, at, b'm') {
        literal_end(text, rest, b"p;")
    } else {
        literal_end(text, past(text, at, b'p')?, b"os;")
    }
}

/// The end of a character's number whose `&#` is before a place, or the first place at which it is
/// none.
fn character_end(text: &[u8], at: usize) -> Result<usize, usize>
    requires { at ≤ length text.now }
    ensures number { (h : Host) → host_begin h ≤ at
        → Leads text.now (host_reference text.now h hash at) at (host_state text.now h) result }
    ensures within { EndsWithin text.now at result }
{
    match past(text, at, b'x') {
        Ok(digits) => number_end(text, digits, Base::Hexadecimal),
        Err(_) => number_end(text, at, Base::Decimal),
    }
}

/// The end of the digits that begin at a place, after their `;`, or the first place at which they
/// are not those of a character's number.
fn number_end(text: &[u8], at: usize, base: Base) -> Result<usize, usize>
    requires place { at ≤ length text.now }
    requires no_base { IsBaseGiven base text.now at }
    ensures number { (h : Host) → host_begin h ≤ at
        → Leads text.now (host_reference text.now h (first_of base) at) at (host_state text.now h)
        result }
    ensures within { EndsWithin text.now at result }
{
    let mut value = 0;
    for place in at..text.len() {
        let byte = text[place];
        if is_digit(byte, base) {
            value = value * radix(base) + digit_value(byte);
            if LAST_CHARACTER < value {
                return Err(place);
            }
        } else if ends_number(byte, at < place, value) {
            return Ok(place + 1);
        } else {
            return Err(place);
        }
    }
    Err(text.len())
}

/// Whether the byte ends a number of this value, which has digits or not.
fn ends_number(byte: u8, has_digits: bool, value: u32) -> bool
    ensures { result ≡ (byte == 59 && (has_digits && is_character value)) }
{
    byte == b';' && has_digits && is_character(value)
}

/// Whether this is the number of a character: the numbers between D800 and DFFF are not.
fn is_character(value: u32) -> bool
    ensures { result ≡ is_character value }
{
    value < 0xD800 || (0xE000 <= value && value <= LAST_CHARACTER)
}

/// How many digits there are.
fn radix(base: Base) -> u32
    ensures value { result ≡ radix_of base }
    ensures small { result ≤ 16 }
{
    match base {
        Base::Decimal => 10,
        Base::Hexadecimal => 16,
    }
}

/// Whether the byte is a digit.
#[tactic(auto, unfolding(markup_grammar::specs::Bytes::is_digit, markup_grammar::specs::Bytes::is_hex_digit))]
fn is_digit(byte: u8, base: Base) -> bool
    ensures { result ≡ is_digit_of base byte }
{
    let is_decimal = b'0' <= byte && byte <= b'9';
    match base {
        Base::Decimal => is_decimal,
        Base::Hexadecimal => {
            is_decimal || (b'A' <= byte && byte <= b'F') || (b'a' <= byte && byte <= b'f')
        }
    }
}

/// What a digit is worth.
#[tactic(auto, using(std::proofs::lemmas::Bool::Decides::nat_tests), unfolding(markup_grammar::specs::Bytes::is_digit, markup_grammar::specs::Bytes::is_hex_digit, markup_grammar::specs::Bytes::digit_value))]
fn digit_value(byte: u8) -> u32
    requires { bytes_of.is_hex_digit byte ≡ true }
    ensures value { result ≡ bytes_of.digit_value byte }
    ensures small { result < 16 }
{
    if byte <= b'9' {
        u32::from(byte - b'0')
    } else if byte <= b'F' {
        u32::from(byte - b'A') + 10
    } else {
        u32::from(byte - b'a') + 10
    }
}
