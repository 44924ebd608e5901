//! Texts and the raw markup that stands for them, and attributes by their names.

ghost use Rattle.std.specs.Prelude.{◌≡◌, IfOk};

use crate::question::{Fault, NO_MEMORY, NOT_SPELLED};
use crate::spelling::{put_quoted, spelled};
use markup_core::Attrs;
use secret_core::Secret;
use std::alloc::Global;
use std::str;
use text_core::{escape, escaped_len, unescape, unescaped_len};

/// The text that raw markup stands for.
pub fn unescaped(alloc: Global, text: &str) -> Result<String, Fault> {
    let bytes = spelled(alloc, text)?;
    let raw = text_of(&bytes)?;
    let mut out = room(alloc, unescaped_len(raw))?;
    unescape(raw, &mut out);
    filled(alloc, &out)
}

/// The raw markup that is written for a text.
pub fn escaped(alloc: Global, text: &str) -> Result<String, Fault> {
    let bytes = spelled(alloc, text)?;
    let text = text_of(&bytes)?;
    let len = escaped_len(text);
    if len == usize::MAX {
        return Err(NO_MEMORY);
    }
    let mut out = room(alloc, len)?;
    escape(text, &mut out);
    filled(alloc, &out)
}

/// The raw value of an attribute, or `none`: the attribute's name, the attributes.
pub fn attribute(alloc: Global, question: &str) -> Result<String, Fault> {
    let Some((name, raw)) = question.split_once(' ') else {
        return Err(NOT_SPELLED);
    };
    let name = spelled(alloc, name)?;
    let raw = spelled(alloc, raw)?;
    value(alloc, text_of(&name)?, text_of(&raw)?)
}

// The value of the attribute of this name, or `none`.
fn value(alloc: Global, name: &str, raw: &str) -> Result<String, Fault> {
    match (Attrs { raw }).get(name) {
        Some(value) => {
            let mut out = String::from_str(alloc, "value")?;
            put_quoted(&mut out, value)?;
            Ok(out)
        }
        None => Ok(String::from_str(alloc, "none")?),
    }
}

// The text that these bytes are.
fn text_of(bytes: &[u8]) -> Result<&str, Fault> {
    match str::from_utf8(bytes) {
        Ok(text) => Ok(text),
        Err(_) => Err(NOT_SPELLED),
    }
}

// Room for so many bytes.
fn room(alloc: Global, len: usize) -> Result<Secret, Fault>
    ensures { IfOk result (λ room. room.spare ≡ len) }
{
    match Secret::with_room(alloc, len) {
        Ok(room) => Ok(room),
        Err(_) => Err(NO_MEMORY),
    }
}

// The text that is in this room, which it must fill.
fn filled(alloc: Global, room: &Secret) -> Result<String, Fault> {
    if room.spare() != 0 {
        return Err(Fault::Because("not of the length that was reported"));
    }
    let text = text_of(room.lend(0, room.len()))?;
    Ok(String::from_str(alloc, text)?)
}
