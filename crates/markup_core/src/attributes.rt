//! The attributes of a start tag.

ghost use Rattle.std.specs.Prelude.{◌≡◌, ℕ, ◌+◌, ◌<◌, ◌≤◌, [], ◌∷◌, length, take, drop, IsUtf8, MatchOption, IfSome, option_copied};
ghost use Rattle.std.specs.List.{prefix_len};
ghost use Rattle.markup_grammar.specs.Attributes.{attribute, attributes};
ghost use Rattle.markup_grammar.specs.Bytes as bytes_of;
ghost use Rattle.markup_core.specs.AttributeRuns as runs;
ghost use Rattle.markup_core.specs.AttributeRuns.{IsCut, IsFirst};

use markup_scanner::after;
use std::str;

/// The attributes of a start tag.
#[derive(Clone, Copy, PartialEq, Eq)]
pub struct Attrs<'a> {
    /// The attributes as they are written: all between the tag's name and its `>` or `/>`.
    pub raw: &'a str,
}

impl<'a> Attrs<'a> {
    /// The raw value of the last attribute of this name, as it is between its quotes:
    /// `unescape` gives the text for which it stands.
    pub fn get(&self, name: &str) -> Option<&'a str>
        ensures { option_copied result ≡ attribute self.now.raw.now name.now }
    {
        if self.raw.is_empty() {
            return None;
        }
        let mut found = None;
        let mut rest = self.raw.as_bytes();
        while let Some(first) = first_attribute(rest) {
            if first.name == name.as_bytes() {
                found = Some(first.value);
            }
            rest = first.rest;
        }
        found
    }
}

/// An attribute, and what comes after it.
#[derive(Drop)]
struct Attribute<'a> {
    name: &'a [u8],
    value: &'a str,
    rest: &'a [u8],
}

/// The first attribute.
fn first_attribute(bytes: &[u8]) -> Option<Attribute<'_>>
    requires { IsUtf8 bytes.now }
    ensures first { IsFirst bytes.now result }
    ensures shorter { IfSome result (λ first. length first.rest.now < length bytes.now) }
    ensures utf8 { IfSome result (λ first. IsUtf8 first.rest.now) }
{
    let space_len = run_len(bytes, Run::Space);
    let tag = after(bytes, space_len);
    let name_len = run_len(tag, Run::Name);
    let name = cut_at(tag, name_len)?;
    let equals_len = run_len(name.rest, Run::BeforeQuote);
    let equals = cut_at(name.rest, equals_len)?;
    let value_len = run_len(equals.rest, Run::Quoted(equals.byte));
    let value = cut_at(equals.rest, value_len)?;
    Some(Attribute {
        name: name.front,
        value: text_of(value.front),
        rest: value.rest,
    })
}

/// A prefix of some bytes, the byte after it, and the rest.
#[derive(Clone, Copy)]
struct Cut<'a> {
    front: &'a [u8],
    byte: u8,
    rest: &'a [u8],
}

/// Cuts the bytes after this many of them, where there are more.
fn cut_at(bytes: &[u8], len: usize) -> Option<Cut<'_>>
    requires { len ≤ length bytes.now }
    ensures { IsCut bytes.now len result }
{
    if len == bytes.len() {
        return None;
    }
    Some(Cut {
        front: &bytes[..len],
        byte: bytes[len],
        rest: after(bytes, len + 1),
    })
}

/// White space: tab, line feed, carriage return and space.
#[inline(always)]
#[tactic(auto, unfolding(markup_grammar::specs::Bytes::is_space))]
fn is_space(byte: u8) -> bool
    ensures { result ≡ bytes_of.is_space byte }
{
    byte == b'\t' || byte == b'\n' || byte == b'\r' || byte == b' '
}

/// What a run of bytes in a tag is made of.
#[derive(Clone, Copy)]
enum Run {
    /// White space.
    Space,
    /// The bytes of a name: neither white space nor `=`.
    Name,
    /// The bytes before the quotes.
    BeforeQuote,
    /// The bytes of a value in this quote.
    Quoted(u8),
}

/// Whether the byte may be in a run.
#[inline(always)]
#[tactic(auto, unfolding(crate::specs::AttributeRuns::is_in_name, crate::specs::AttributeRuns::is_before_quote, crate::specs::AttributeRuns::is_quoted))]
fn is_in_run(run: Run, byte: u8) -> bool
    ensures { result ≡ runs.is_in_run run byte }
{
    match run {
        Run::Space => is_space(byte),
        Run::Name => !is_space(byte) && byte != b'=',
        Run::BeforeQuote => byte != b'"' && byte != b'\'',
        Run::Quoted(quote) => byte != quote,
    }
}

/// How many bytes of a run are here.
#[inline(always)]
fn run_len(bytes: &[u8], run: Run) -> usize
    ensures len { result ≡ prefix_len (runs.is_in_run run) bytes.now }
    ensures within { result ≤ length bytes.now }
{
    let mut len = 0;
    while len < bytes.len() && is_in_run(run, bytes[len]) {
        len += 1;
    }
    len
}

/// The text that spells these bytes.
fn text_of(bytes: &[u8]) -> &str
    requires { IsUtf8 bytes.now }
    ensures { result.now ≡ bytes.now }
{
    match str::from_utf8(bytes) {
        Ok(text) => text,
        Err(_) => unreachable!(),
    }
}
