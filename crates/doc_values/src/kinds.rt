//! The kinds of values: how the text of an element is read.

ghost use Rattle.std.specs.Prelude.{◌≡◌, ◌==◌, if◌then◌else◌, ℕ, ℤ, ◌<◌, List, [], length, Bool, true, false, Ok, Option, Some, None, IfOk, OnOk, MatchOption, option_map};
ghost use Rattle.std.specs.Str.{is_utf8};
ghost use Rattle.vault_model.specs.Db.{NodeId, nil_id};
ghost use Rattle.vault_model.specs.declared.contents.Tri.TheVariants.{Inherit};
ghost use Rattle.doc_forms.specs.ElementTexts.{ElementText, text_bytes};
ghost use Rattle.doc_forms.specs.Values as spec;
ghost use Rattle.doc_forms.specs.TextForms.Texts as texts;
ghost use Rattle.doc_forms.specs.Entries.{id_or_none};
ghost use Rattle.doc_forms.specs.Refusals.{Returns};
ghost use Rattle.doc_forms.specs.SeenTexts.{text_seen};

use crate::marks::{base64_bytes, bytes_of};
use crate::values;
use doc_forms::{DocFail, ElementText};
use outside_core::{Bytes, Text};
use secret_core::Secret;
use std::alloc::Global;
use std::str;
use text_core::{decode_base64_array, trim};
use uuid_core::Uuid;
use vault_model::{Stamp, Tri};

/// A kind of value.
pub trait Kind {
    /// The value in memory.
    type Value: Drop;

    /// The value without memory.
    ghost Bare: { Type 0 };

    ghost seen: { Self.Value → Bare };

    /// The value that a text of this kind writes, or none where it writes none.
    ghost rule: { ElementText → Option Bare };

    /// Reads the text of an element.
    fn from_text(alloc: Global, text: ElementText) -> Result<Option<Self::Value>, DocFail>
        ensures { Returns (λ o. option_map seen o) result (Ok (rule (text_seen text))) };
}

/// The bytes of an element's text, without white space at their ends.
fn trimmed_text(text: &ElementText) -> &[u8]
    ensures { result.now ≡ texts.trim (text_bytes (text_seen text.now)) }
{
    trim(bytes_of(&text.bytes))
}

/// The value that a text writes, or this one where the text is empty.
fn unless_empty<T: Copy>(text: &[u8], empty: T, value: Option<T>) -> Option<T>
    ensures { result ≡ if length text.now == 0 then Some empty else value }
{
    if text.is_empty() { Some(empty) } else { value }
}

/// A value that was read, as one that might have been left out.
fn in_option<T: Copy>(value: Option<T>) -> Option<Option<T>>
    ensures { result ≡ option_map Some value }
{
    match value {
        Some(value) => Some(Some(value)),
        None => None,
    }
}

/// The text that bytes spell in UTF-8.
fn text_of(bytes: &[u8]) -> Option<&str>
    ensures { MatchOption result (is_utf8 bytes.now ≡ false) (λ text. (is_utf8 bytes.now ≡ true)
        × (text.now ≡ bytes.now)) }
{
    match str::from_utf8(bytes) {
        Ok(text) => Some(text),
        Err(_) => None,
    }
}

/// A text of its own with these bytes.
fn own_text(alloc: Global, text: &str) -> Result<Text, DocFail>
    ensures { Returns (λ t. t) result (Ok text.now) }
{
    match Text::of(alloc, text) {
        Ok(text) => Ok(text),
        Err(_) => Err(DocFail::NoMemory),
    }
}

/// A text, with its white space.
pub struct TextValue;

impl Kind for TextValue {
    type Value = Text;

    ghost Bare = { List ℕ };

    ghost seen = { λ t. t };

    ghost rule = { spec.text_in };

    fn from_text(alloc: Global, text: ElementText) -> Result<Option<Text>, DocFail> {
        match text_of(bytes_of(&text.bytes)) {
            Some(text) => Ok(Some(own_text(alloc, text)?)),
            None => Ok(None),
        }
    }
}

/// A text that stays in the memory in which it was read.
pub struct SecretText;

impl Kind for SecretText {
    type Value = Secret;

    ghost Bare = { List ℕ };

    ghost seen = { λ t. t.bytes };

    ghost rule = { spec.text_in };

    fn from_text(_alloc: Global, text: ElementText) -> Result<Option<Secret>, DocFail> {
        if text_of(bytes_of(&text.bytes)).is_none() {
            return Ok(None);
        }
        Ok(Some(text.bytes))
    }
}

/// `True` or `False`; an empty one is `True`.
pub struct TrueUnlessFalse;

impl Kind for TrueUnlessFalse {
    type Value = bool;

    ghost Bare = { Bool };

    ghost seen = { λ b. b };

    ghost rule = { spec.value_or true spec.boolean };

    fn from_text(_alloc: Global, text: ElementText) -> Result<Option<bool>, DocFail> {
        let text = trimmed_text(&text);
        Ok(unless_empty(text, true, values::boolean(text)))
    }
}

/// `True` or `False`; an empty one is `False`.
pub struct FalseUnlessTrue;

impl Kind for FalseUnlessTrue {
    type Value = bool;

    ghost Bare = { Bool };

    ghost seen = { λ b. b };

    ghost rule = { spec.value_or false spec.boolean };

    fn from_text(_alloc: Global, text: ElementText) -> Result<Option<bool>, DocFail> {
        let text = trimmed_text(&text);
        Ok(unless_empty(text, false, values::boolean(text)))
    }
}

/// A whole number of 32 bits; an empty one is this one.
pub struct Number32<const EMPTY: u32>;

impl<const EMPTY: u32> Kind for Number32<EMPTY> {
    type Value = u32;

    ghost Bare = { ℕ };

    ghost seen = { λ n. n };

    ghost rule = { spec.value_or EMPTY spec.number32 };

    fn from_text(_alloc: Global, text: ElementText) -> Result<Option<u32>, DocFail> {
        let text = trimmed_text(&text);
        Ok(unless_empty(text, EMPTY, values::number32(text)))
    }
}

/// A whole number of 64 bits; an empty one is 0.
pub struct Number64;

impl Kind for Number64 {
    type Value = u64;

    ghost Bare = { ℕ };

    ghost seen = { λ n. n };

    ghost rule = { spec.value_or 0 spec.number64 };

    fn from_text(_alloc: Global, text: ElementText) -> Result<Option<u64>, DocFail> {
        let text = trimmed_text(&text);
        Ok(unless_empty(text, 0, values::number64(text)))
    }
}

/// A whole number of 32 bits with a sign; an empty one is this one.
pub struct Signed32<const EMPTY: i32>;

impl<const EMPTY: i32> Kind for Signed32<EMPTY> {
    type Value = i32;

    ghost Bare = { ℤ };

    ghost seen = { λ n. n };

    ghost rule = { spec.value_or EMPTY spec.signed32 };

    fn from_text(_alloc: Global, text: ElementText) -> Result<Option<i32>, DocFail> {
        let text = trimmed_text(&text);
        Ok(unless_empty(text, EMPTY, values::signed32(text)))
    }
}

/// A whole number of 64 bits with a sign; an empty one is this one.
pub struct Signed64<const EMPTY: i64>;

impl<const EMPTY: i64> Kind for Signed64<EMPTY> {
    type Value = i64;

    ghost Bare = { ℤ };

    ghost seen = { λ n. n };

    ghost rule = { spec.value_or EMPTY spec.signed64 };

    fn from_text(_alloc: Global, text: ElementText) -> Result<Option<i64>, DocFail> {
        let text = trimmed_text(&text);
        Ok(unless_empty(text, EMPTY, values::signed64(text)))
    }
}

/// An id; an empty one is the nil id.
pub struct IdValue;

impl Kind for IdValue {
    type Value = Uuid;

    ghost Bare = { NodeId };

    ghost seen = { λ u. u };

    ghost rule = { spec.value_or nil_id spec.id };

    fn from_text(_alloc: Global, text: ElementText) -> Result<Option<Uuid>, DocFail> {
        let text = trimmed_text(&text);
        Ok(unless_empty(text, Uuid::nil(), values::id(text)))
    }
}

/// An id, or none where it is empty.
pub struct IdOrNone;

impl Kind for IdOrNone {
    type Value = Option<Uuid>;

    ghost Bare = { Option NodeId };

    ghost seen = { λ o. o };

    ghost rule = { id_or_none };

    fn from_text(_alloc: Global, text: ElementText) -> Result<Option<Option<Uuid>>, DocFail> {
        let text = trimmed_text(&text);
        Ok(unless_empty(text, None, in_option(values::id(text))))
    }
}

/// An id that must not be left empty.
pub struct OwnId;

impl Kind for OwnId {
    type Value = Uuid;

    ghost Bare = { NodeId };

    ghost seen = { λ u. u };

    ghost rule = { λ x. spec.id (texts.trim (text_bytes x)) };

    fn from_text(_alloc: Global, text: ElementText) -> Result<Option<Uuid>, DocFail> {
        Ok(values::id(trimmed_text(&text)))
    }
}

/// `True`, `False` or `null`; an empty one is `null`.
pub struct ChoiceValue;

impl Kind for ChoiceValue {
    type Value = Tri;

    ghost use Rattle.vault_model.specs.declared.contents.Tri.{Tri};

    ghost Bare = { Tri };

    ghost seen = { λ t. t };

    ghost rule = { spec.value_or Inherit spec.choice };

    fn from_text(_alloc: Global, text: ElementText) -> Result<Option<Tri>, DocFail> {
        let text = trimmed_text(&text);
        Ok(unless_empty(text, Tri::Inherit, values::choice(text)))
    }
}

/// A time; an empty one is the first second of the year 1.
pub struct TimeValue;

impl Kind for TimeValue {
    type Value = Stamp;

    ghost Bare = { ℕ };

    ghost seen = { λ t. t };

    ghost rule = { spec.value_or 0 spec.time };

    fn from_text(_alloc: Global, text: ElementText) -> Result<Option<Stamp>, DocFail> {
        let text = trimmed_text(&text);
        if text.is_empty() {
            return Ok(Stamp::of(0));
        }
        Ok(values::time(text))
    }
}

/// The 32 bytes of a hash, or none where it is empty.
pub struct HashOrNone;

impl Kind for HashOrNone {
    type Value = Option<[u8; 32]>;

    ghost Bare = { Option (List ℕ) };

    ghost seen = { λ o. o };

    ghost rule = { spec.value_or None (λ text. option_map Some (texts.bytes_of_length 32 text)) };

    fn from_text(_alloc: Global, text: ElementText) -> Result<Option<Option<[u8; 32]>>, DocFail> {
        let text = trimmed_text(&text);
        Ok(unless_empty(text, None, in_option(decode_base64_array::<32>(text))))
    }
}

/// Bytes by base64, or those that were hidden, in secret memory.
pub struct SecretBytes;

impl Kind for SecretBytes {
    type Value = Secret;

    ghost Bare = { List ℕ };

    ghost seen = { λ b. b.bytes };

    ghost rule = { spec.bytes_in };

    fn from_text(alloc: Global, text: ElementText) -> Result<Option<Secret>, DocFail> {
        if text.is_hidden {
            return Ok(Some(text.bytes));
        }
        base64_bytes(alloc, trimmed_text(&text))
    }
}

/// Bytes that others may see.
fn open_bytes(alloc: Global, piece: &[u8]) -> Result<Bytes, DocFail>
    ensures { Returns (λ b. b) result (Ok piece.now) }
{
    let mut bytes = Bytes::new(alloc);
    match bytes.add(piece) {
        Ok(()) => Ok(bytes),
        Err(_) => Err(DocFail::NoMemory),
    }
}

/// A copy of bytes that others may see.
fn open_copy(alloc: Global, bytes: &Secret) -> Result<Option<Bytes>, DocFail>
    ensures { Returns (λ o. option_map (λ b. b) o) result (Ok (Some bytes.now.bytes)) }
{
    match open_bytes(alloc, bytes_of(bytes)) {
        Ok(bytes) => Ok(Some(bytes)),
        Err(refusal) => Err(refusal),
    }
}

/// The same bytes, which are no secret.
pub struct OpenBytes;

impl Kind for OpenBytes {
    type Value = Bytes;

    ghost Bare = { List ℕ };

    ghost seen = { λ b. b };

    ghost rule = { spec.bytes_in };

    fn from_text(alloc: Global, text: ElementText) -> Result<Option<Bytes>, DocFail> {
        if text.is_hidden {
            return open_copy(alloc, &text.bytes);
        }
        match base64_bytes(alloc, trimmed_text(&text))? {
            Some(bytes) => open_copy(alloc, &bytes),
            None => Ok(None),
        }
    }
}
