//! How much of a text begins one in UTF-8.

ghost use Rattle.std.specs.Prelude.{◌≡◌};
ghost use Rattle.markup_grammar.specs.Utf8 as utf8;
ghost use Rattle.markup_grammar.specs.Utf8.{utf8_front};

use std::str;

/// The length of the longest prefix of the bytes that begins a text in UTF-8: it may end inside a
/// character.
pub(crate) fn front_len(text: &[u8]) -> usize
    ensures { result ≡ utf8_front text.now }
{
    match str::from_utf8(text) {
        Ok(_) => text.len(),
        Err(fault) => {
            let valid = fault.valid_up_to();
            match fault.error_len() {
                None => text.len(),
                Some(len) if begins_character(text[valid]) => valid + len,
                Some(_) => valid,
            }
        }
    }
}

/// The first byte of a character of two bytes or more.
fn begins_character(byte: u8) -> bool
    ensures { result ≡ utf8.lies_in 0xC2 0xF4 byte }
{
    0xC2 <= byte && byte <= 0xF4
}
