//! Base 32 decoded into secret memory.

ghost use Rattle.std.specs.Prelude.{◌≡◌, ◌<◌, ◌&&◌, not, nat_eq, IfOk, IfSome, option_map, filter};
ghost use Rattle.std.specs.List.{list_all};
ghost use Rattle.otp_core.specs.Reading as spec;

use crate::marks::prefix_before;
use secret_core::{NoMemory, Secret};
use std::alloc::Global;

// The value of a digit.
fn digit32(b: u8) -> Option<u8>
    ensures value { result ≡ spec.digit32 b }
    ensures limit { IfSome result (λ d. d < 32) }
{
    match b {
        b'A'..=b'Z' => Some(b - b'A'),
        b'a'..=b'z' => Some(b - b'a'),
        b'2'..=b'7' => Some(b - 24),
        _ => None,
    }
}

// The bytes of digits.
fn bytes32(alloc: Global, text: &[u8]) -> Result<Option<Secret>, NoMemory>
    ensures { IfOk result (λ decoded. option_map (λ secret. secret.bytes) decoded
        ≡ spec.bytes32 0 0 text.now) }
{
    let mut bytes = Secret::with_room(alloc, text.len())?;
    let mut bits: u32 = 0;
    let mut held: u32 = 0;
    for b in text {
        match digit32(*b) {
            None => {
                drop(bytes);
                return Ok(None);
            }
            Some(digit) => {
                let more = held * 32 + u32::from(digit);
                if bits < 3 {
                    bits += 5;
                    held = more;
                    continue;
                }
                bits -= 3;
                let unit = 2u32.pow(bits);
                bytes.push((more / unit) as u8);
                held = more % unit;
            }
        }
    }
    Ok(Some(bytes))
}

// The text without its spaces.
fn without_spaces(alloc: Global, text: &[u8]) -> Result<Secret, NoMemory>
    ensures { IfOk result (λ kept. kept.bytes ≡ filter (λ b. not (nat_eq b 32)) text.now) }
{
    let mut kept = Secret::with_room(alloc, text.len())?;
    for b in text {
        if *b != b' ' {
            kept.push(*b);
        }
    }
    Ok(kept)
}

// Whether each byte is `=`.
fn is_padding(text: &[u8]) -> bool
    ensures { result ≡ list_all (λ b. nat_eq b 61) text.now }
{
    text.iter().all(|b| *b == b'=')
}

// The bytes of a text without spaces.
fn digits32(alloc: Global, text: &[u8]) -> Result<Option<Secret>, NoMemory>
    ensures { IfOk result (λ decoded. option_map (λ secret. secret.bytes) decoded
        ≡ spec.digits32 text.now) }
{
    let digits = prefix_before(text, b'=');
    if !digits.is_empty() && is_padding(&text[digits.len()..]) {
        bytes32(alloc, digits)
    } else {
        Ok(None)
    }
}

/// The bytes that a text spells in base 32 (RFC 4648, section 6), in either case, where it does.
/// Spaces, `=` at the end and bits that are no whole byte are dropped.
#[tactic(auto, unfolding(crate::specs::Reading::base32))]
pub(crate) fn base32(alloc: Global, text: &[u8]) -> Result<Option<Secret>, NoMemory>
    ensures { IfOk result (λ decoded. option_map (λ secret. secret.bytes) decoded
        ≡ spec.base32 text.now) }
{
    let kept = without_spaces(alloc, text)?;
    let decoded = digits32(alloc, kept.lend(0, kept.len()));
    drop(kept);
    decoded
}

// Whether the text begins with `%3D`.
fn is_escape(text: &[u8]) -> bool
    ensures { result ≡ spec.is_escape text.now }
{
    let front = if text.len() < 3 { text } else { &text[..3] };
    front.eq_ignore_ascii_case(b"%3D")
}

/// The text with `=` for every `%3D`, in either case of its letter.
pub(crate) fn with_equals(alloc: Global, text: &[u8]) -> Result<Secret, NoMemory>
    ensures { IfOk result (λ kept. kept.bytes ≡ spec.with_equals text.now) }
{
    let mut kept = Secret::with_room(alloc, text.len())?;
    let mut skip: usize = 0;
    for i in 0..text.len() {
        if skip > 0 {
            skip -= 1;
            continue;
        }
        if is_escape(&text[i..]) {
            kept.push(b'=');
            skip = 2;
            continue;
        }
        kept.push(text[i]);
    }
    Ok(kept)
}
