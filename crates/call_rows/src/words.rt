//! What the words of a line stand for.

use crate::fault::Fault;
use std::alloc::Global;

/// The first word of a line, and what comes after the space that ends it.
pub fn first_word(line: &str) -> (&str, &str) {
    match line.split_once(' ') {
        Some(parts) => parts,
        None => (line, ""),
    }
}

/// The number of a word.
pub fn number_of(word: &str) -> Result<u64, Fault> {
    match word.parse::<u64>() {
        Ok(number) => Ok(number),
        Err(_) => Err(Fault::BadWord),
    }
}

/// The bytes of hexadecimal digits.
pub fn bytes_of_digits(alloc: Global, digits: &str) -> Result<Vec<u8>, Fault> {
    match hex::decode(alloc, digits) {
        Ok(bytes) => Ok(bytes),
        Err(_) => Err(Fault::BadWord),
    }
}

/// The byte of two hexadecimal digits.
pub fn byte_of_digits(digits: &[u8]) -> Result<u8, Fault> {
    let mut byte = [0; 1];
    match hex::decode_to_slice(digits, &mut byte) {
        Ok(()) => Ok(byte[0]),
        Err(_) => Err(Fault::BadWord),
    }
}

// Puts a byte, and others after it, at the end.
fn put(bytes: &mut Vec<u8>, first: u8, rest: &[u8]) -> Result<(), Fault> {
    bytes.push(first)?;
    bytes.extend_from_slice(rest)?;
    Ok(())
}

// Puts what a piece stands for at the end, which had a backslash before it.
fn put_escaped(bytes: &mut Vec<u8>, piece: &[u8]) -> Result<(), Fault> {
    match piece {
        [b'e', rest @ ..] => Ok(bytes.extend_from_slice(rest)?),
        [b'n', rest @ ..] => put(bytes, b'\n', rest),
        [b'r', rest @ ..] => put(bytes, b'\r', rest),
        [b's', rest @ ..] => put(bytes, b' ', rest),
        [b't', rest @ ..] => put(bytes, b'\t', rest),
        [b'x', high, low, rest @ ..] => put(bytes, byte_of_digits(&[*high, *low])?, rest),
        _ => Err(Fault::BadWord),
    }
}

/// The bytes that a text stands for: its own, but for `\n`, `\r`, `\t`, `\s`, which is a space, `\e`,
/// which is nothing, and `\x` with the two digits of a byte.
pub fn bytes_of(alloc: Global, text: &str) -> Result<Vec<u8>, Fault> {
    let mut bytes = Vec::new(alloc);
    for (index, piece) in text.split('\\').enumerate() {
        if index == 0 {
            bytes.extend_from_slice(piece.as_bytes())?;
        } else {
            put_escaped(&mut bytes, piece.as_bytes())?;
        }
    }
    Ok(bytes)
}

// The text that a word stands for.
fn text_of(alloc: Global, word: &str) -> Result<String, Fault> {
    let bytes = bytes_of(alloc, word)?;
    match std::str::from_utf8(bytes.as_slice()) {
        Ok(text) => Ok(String::from_str(alloc, text)?),
        Err(_) => Err(Fault::BadWord),
    }
}

/// The texts that words stand for, white space between them.
pub fn texts_of(alloc: Global, words: &str) -> Result<Vec<String>, Fault> {
    let mut texts = Vec::new(alloc);
    for word in words.split_whitespace() {
        texts.push(text_of(alloc, word)?)?;
    }
    Ok(texts)
}
