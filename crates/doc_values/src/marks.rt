//! Texts of markup in memory, with their escapes resolved, and what attributes mark.

ghost use Rattle.std.specs.Prelude.{◌≡◌, ◌++◌, [], Ok, option_map};
ghost use Rattle.doc_forms.specs.MarkupGrammar.Escapes as escapes;
ghost use Rattle.doc_forms.specs.TextForms.Texts as texts;
ghost use Rattle.doc_forms.specs.ElementTexts as spec;
ghost use Rattle.doc_forms.specs.Refusals.{Returns};

use doc_forms::DocFail;
use markup_core::Attrs;
use secret_core::Secret;
use std::alloc::Global;
use text_core::{append_unescaped, decode_base64, spells_word, unescaped};

/// All bytes of a text in memory.
pub fn bytes_of(text: &Secret) -> &[u8]
    ensures { result.now ≡ text.now.bytes }
{
    text.lend(0, text.len())
}

/// A text, and after it the text that raw markup stands for.
pub fn appended(alloc: Global, text: Secret, raw: &str) -> Result<Secret, DocFail>
    ensures { Returns (λ t. t.bytes) result (Ok (text.bytes ++ escapes.unescaped raw.now)) }
{
    let mut text = text;
    match append_unescaped(alloc, &mut text, raw) {
        Ok(()) => Ok(text),
        Err(_) => Err(DocFail::NoMemory),
    }
}

/// Memory that holds nothing yet.
pub fn no_text(alloc: Global) -> Result<Secret, DocFail>
    ensures { Returns (λ t. t.bytes) result (Ok []) }
{
    match Secret::with_room(alloc, 0) {
        Ok(text) => Ok(text),
        Err(_) => Err(DocFail::NoMemory),
    }
}

/// The text that raw markup stands for.
pub fn resolved(alloc: Global, raw: &str) -> Result<Secret, DocFail>
    ensures { Returns (λ t. t.bytes) result (Ok (escapes.unescaped raw.now)) }
{
    match unescaped(alloc, raw) {
        Ok(text) => Ok(text),
        Err(_) => Err(DocFail::NoMemory),
    }
}

/// The bytes that a text spells in base64, where it does.
pub fn base64_bytes(alloc: Global, text: &[u8]) -> Result<Option<Secret>, DocFail>
    ensures { Returns (λ o. option_map (λ b. b.bytes) o) result (Ok (texts.base64_bytes text.now)) }
{
    match decode_base64(alloc, text) {
        Ok(bytes) => Ok(bytes),
        Err(_) => Err(DocFail::NoMemory),
    }
}

/// Whether the tag's attribute of this name is `True`, in any case of its letters.
pub fn is_marked(alloc: Global, attrs: &Attrs<'_>, name: &str) -> Result<bool, DocFail>
    ensures { Returns (λ b. b) result (Ok (spec.is_marked name.now attrs.now.raw.now)) }
{
    let Some(raw) = attrs.get(name) else {
        return Ok(false);
    };
    match spells_word(alloc, raw, b"True") {
        Ok(is_true) => Ok(is_true),
        Err(_) => Err(DocFail::NoMemory),
    }
}

/// Whether a tag says that its value is not to be shown.
pub fn is_hidden(alloc: Global, attrs: &Attrs<'_>) -> Result<bool, DocFail>
    ensures { Returns (λ b. b) result (Ok (spec.is_hidden attrs.now.raw.now)) }
{
    if is_marked(alloc, attrs, "Protected")? {
        return Ok(true);
    }
    is_marked(alloc, attrs, "ProtectInMemory")
}
