//! Texts with full case folding.

ghost use Rattle.std.specs.Prelude.{◌≡◌, ◌≤◌, ◌++◌, [], OnOk, chars, encode_utf8_all};
ghost use Rattle.caseless.specs.Caseless.{default_case_fold};
ghost use Rattle.find_core.specs.Folding.{begins_with};
ghost use Rattle.find_core.specs.Folding as spec;

use caseless::Caseless;
use outside_core::NoMemory;
use secret_core::Secret;
use std::alloc::Global;

// Puts bytes after a text, in larger memory where there is no room.
fn add(alloc: Global, text: &mut Secret, bytes: &[u8]) -> Result<(), NoMemory>
    ensures { OnOk result (text.new.bytes ≡ text.old.bytes ++ bytes.now) }
{
    if text.spare() < bytes.len() {
        let Some(room) = text.len().checked_add(bytes.len()) else {
            return Err(NoMemory);
        };
        let mut larger = Secret::with_room(alloc, room.saturating_add(text.len()))?;
        larger.extend(text.lend(0, text.len()));
        *text = larger;
    }
    text.extend(bytes);
    Ok(())
}

// Puts a folded text alone, in memory that is used again.
fn fold_text(alloc: Global, folded: &mut Secret, text: &str) -> Result<(), NoMemory>
    ensures { OnOk result (folded.new.bytes
        ≡ encode_utf8_all (default_case_fold (chars text.now))) }
{
    folded.cut(0);
    let mut buffer = [0; 4];
    for letter in text.chars().default_case_fold() {
        add(alloc, folded, letter.encode_utf8(&mut buffer).as_bytes())?;
    }
    Ok(())
}

/// Folds a value into memory that is used again, and is wiped.
#[tactic(auto, unfolding(crate::specs::Folding::case_folded))]
pub(crate) fn fold(alloc: Global, folded: &mut Secret, value: &[u8]) -> Result<(), NoMemory>
    ensures { OnOk result (folded.new.bytes ≡ spec.case_folded value.now) }
{
    match str::from_utf8(value) {
        Ok(text) => fold_text(alloc, folded, text),
        Err(_) => {
            folded.cut(0);
            add(alloc, folded, value)
        }
    }
}

// Reports whether a text begins with another.
fn begins_with(text: &[u8], part: &[u8]) -> bool
    ensures { result ≡ begins_with text.now part.now }
{
    text.starts_with(part)
}

// Reports whether a text contains another.
fn contains(text: &[u8], part: &[u8]) -> bool
    ensures { result ≡ spec.contains text.now part.now }
{
    for at in 0..text.len() {
        if begins_with(&text[at..], part) {
            return true;
        }
    }
    part.is_empty()
}

/// Reports whether a folded value is a folded text, or contains it.
pub(crate) fn fits(whole: bool, value: &[u8], text: &[u8]) -> bool
    ensures { result ≡ spec.fits whole value.now text.now }
{
    if whole {
        value == text
    } else {
        contains(value, text)
    }
}
