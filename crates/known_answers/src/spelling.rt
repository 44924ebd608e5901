//! Texts as they are spelled in a question and its answer.

use crate::question::{Fault, NOT_SPELLED};
use std::alloc::{AllocError, Global};

/// The bytes that a text spells: `-` alone is none, `\n`, `\r` and `\t` are a line feed, a carriage
/// return and a tab, `\x` and two hexadecimal digits are a byte, and all else is itself.
pub fn spelled(alloc: Global, text: &str) -> Result<Vec<u8>, Fault> {
    let mut bytes = Vec::new(alloc);
    if text == "-" {
        return Ok(bytes);
    }
    for (index, part) in text.split('\\').enumerate() {
        if index == 0 {
            bytes.extend_from_slice(part.as_bytes())?;
        } else {
            put_escaped(&mut bytes, part)?;
        }
    }
    Ok(bytes)
}

// Adds the byte that is escaped at the start of this part, and what comes after it.
fn put_escaped(bytes: &mut Vec<u8>, part: &str) -> Result<(), Fault> {
    match escaped_byte(part) {
        Some((byte, rest)) => {
            bytes.extend_from_slice(&[byte])?;
            bytes.extend_from_slice(rest.as_bytes())?;
            Ok(())
        }
        None => Err(NOT_SPELLED),
    }
}

// The byte that is escaped at the start of this part, and what comes after it.
fn escaped_byte(part: &str) -> Option<(u8, &str)> {
    let mut letters = part.chars();
    let byte = match letters.next()? {
        'n' => b'\n',
        'r' => b'\r',
        't' => b'\t',
        'x' => byte_of(letters.next()?, letters.next()?)?,
        _ => return None,
    };
    Some((byte, letters.as_str()))
}

// The byte of two hexadecimal digits.
fn byte_of(high: char, low: char) -> Option<u8> {
    let high = high.to_digit(16)?;
    let low = low.to_digit(16)?;
    u8::try_from(16 * high + low).ok()
}

/// A number in decimal digits.
pub fn decimal(alloc: Global, number: u64) -> Result<String, Fault> {
    Ok(number.to_string(alloc)?)
}

/// Adds a space and a number.
pub fn put_number(out: &mut String, number: u64) -> Result<(), AllocError> {
    write!(out, " {number}")
}

/// Adds a space and the hexadecimal digits of bytes, `-` where there are none.
pub fn put_digits(alloc: Global, out: &mut String, bytes: &[u8]) -> Result<(), AllocError> {
    if bytes.is_empty() {
        return out.push_str(" -");
    }
    let digits = hex::encode(alloc, bytes)?;
    out.push_str(" ")?;
    out.push_str(digits.as_str())
}

/// Adds a space and a text in quotes.
pub fn put_quoted(out: &mut String, text: &str) -> Result<(), AllocError> {
    out.push_str(" \"")?;
    out.push_str(text)?;
    out.push_str("\"")
}
