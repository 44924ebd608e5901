//! The texts of documents.

use crate::fault::Fault;
use std::alloc::{AllocError, Global};

// Puts the base64 of as many letters A at the end.
fn put_letters(out: &mut Vec<u8>, count: u32) -> Result<(), AllocError> {
    for _ in 0..count / 3 {
        out.extend_from_slice(b"QUFB")?;
    }
    match count % 3 {
        1 => out.extend_from_slice(b"QQ==")?,
        2 => out.extend_from_slice(b"QUE=")?,
        _ => {}
    }
    Ok(())
}

// Puts two parts at the end, between which there is the base64 of as many letters A.
fn put_parts(out: &mut Vec<u8>, before: &str, count: u32, after: &str) -> Result<(), AllocError> {
    out.extend_from_slice(before.as_bytes())?;
    put_letters(out, count)?;
    out.extend_from_slice(after.as_bytes())?;
    Ok(())
}

// The text of two parts, between which there is the base64 of as many letters A.
fn with_letters(alloc: Global, before: &str, count: u32, after: &str) -> Result<Vec<u8>, Fault> {
    let mut out = Vec::new(alloc);
    match put_parts(&mut out, before, count, after) {
        Ok(()) => Ok(out),
        Err(_) => Err(Fault::NoMemory),
    }
}

/// The text of a file, in which a number in double brackets, if there is one, stands for the base64
/// of as many letters A.
pub fn expanded(alloc: Global, text: &str) -> Result<Vec<u8>, Fault> {
    let Some((before, rest)) = text.split_once("[[") else {
        return with_letters(alloc, text, 0, "");
    };
    let Some((number, after)) = rest.split_once("]]") else {
        return Err(Fault::BadWord);
    };
    match number.parse::<u32>() {
        Ok(count) => with_letters(alloc, before, count, after),
        Err(_) => Err(Fault::BadWord),
    }
}
