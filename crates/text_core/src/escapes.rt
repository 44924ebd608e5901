//! Raw markup, with its escapes resolved into secret memory.

ghost use Rattle.markup_grammar.specs.Escapes as escapes;
ghost use Rattle.std.specs.List.{list_all};
ghost use Rattle.std.specs.Prelude.{◌≡◌, ◌≤◌, ◌++◌, IfOk, OnErr, OnOk};
ghost use Rattle.std.specs.Str.{str_eq_ignore_ascii_case};
ghost use Rattle.text_forms.specs.Texts as texts;

use crate::spaces::is_word;
use crate::{unescape, unescaped_len};
use secret_core::Secret;
use secret_core::outside_core::NoMemory;
use std::alloc::Global;

/// The text that raw markup stands for. Raw markup without escapes is copied as it is.
#[tactic(auto, using(crate::proofs::Literals::literal_text))]
pub fn unescaped(alloc: Global, raw: &str) -> Result<Secret, NoMemory>
    ensures { IfOk result (λ text. text.bytes ≡ escapes.unescaped raw.now) }
{
    if is_literal(raw.as_bytes()) {
        let mut text = Secret::with_room(alloc, raw.len())?;
        text.extend(raw.as_bytes());
        return Ok(text);
    }
    let mut text = Secret::with_room(alloc, unescaped_len(raw))?;
    unescape(raw, &mut text);
    Ok(text)
}

/// Makes room for so many bytes after a text, and for as many as it has.
fn reserve(alloc: Global, text: &mut Secret, more: usize) -> Result<(), NoMemory>
    ensures bytes { text.new.bytes ≡ text.old.bytes }
    ensures spare { OnOk result (more ≤ text.new.spare) }
{
    if more <= text.spare() {
        return Ok(());
    }
    let Some(room) = text.len().checked_add(more) else {
        return Err(NoMemory);
    };
    let mut larger = Secret::with_room(alloc, room.saturating_add(text.len()))?;
    larger.extend(text.lend(0, text.len()));
    *text = larger;
    Ok(())
}

/// Appends these bytes. A refusal leaves the text as it was.
fn append(alloc: Global, text: &mut Secret, bytes: &[u8]) -> Result<(), NoMemory>
    ensures bytes { OnOk result (text.new.bytes ≡ text.old.bytes ++ bytes.now) }
    ensures same { OnErr result (text.new.bytes ≡ text.old.bytes) }
{
    reserve(alloc, text, bytes.len())?;
    text.extend(bytes);
    Ok(())
}

/// Appends the text that raw markup stands for. A refusal leaves the text as it was.
#[tactic(auto, using(crate::proofs::Literals::literal_text))]
pub fn append_unescaped(alloc: Global, text: &mut Secret, raw: &str) -> Result<(), NoMemory>
    ensures bytes { OnOk result (text.new.bytes ≡ text.old.bytes ++ escapes.unescaped raw.now) }
    ensures same { OnErr result (text.new.bytes ≡ text.old.bytes) }
{
    if is_literal(raw.as_bytes()) {
        return append(alloc, text, raw.as_bytes());
    }
    reserve(alloc, text, unescaped_len(raw))?;
    unescape(raw, text);
    Ok(())
}

/// Whether raw markup has no escapes, and so stands for itself.
fn is_literal(raw: &[u8]) -> bool
    ensures { result ≡ list_all texts.is_literal raw.now }
{
    !raw.contains(&b'&') && !raw.contains(&b'\r')
}

/// Whether raw markup stands for this word, in any case of its letters. Memory is taken only for
/// escapes.
#[tactic(auto, using(crate::proofs::Literals::literal_text))]
pub fn spells_word(alloc: Global, raw: &str, word: &[u8]) -> Result<bool, NoMemory>
    ensures { IfOk result (λ is_word. is_word
        ≡ str_eq_ignore_ascii_case (escapes.unescaped raw.now) word.now) }
{
    if is_literal(raw.as_bytes()) {
        return Ok(is_word(raw.as_bytes(), word));
    }
    let text = unescaped(alloc, raw)?;
    let is_word = is_word(text.lend(0, text.len()), word);
    drop(text);
    Ok(is_word)
}
