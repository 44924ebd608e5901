//! Tags and their attributes, and runs of text between tags.

ghost use Rattle.std.specs.Prelude.{◌≡◌, ◌≤◌, ◌<◌, ◌+◌, ℕ, List, length, drop, slice_range, IfOk, MatchBool};
ghost use Rattle.markup_grammar.specs.Bytes as bytes_of;
ghost use Rattle.markup_grammar.specs.Machine.{State, Names, between, within, in_words, in_tag, spaced, valued, valuing};
ghost use Rattle.markup_scanner.specs.Asides.{EndsTag};
ghost use Rattle.markup_scanner.specs.Left.{StandsAt, BeginsWithout, FailsFirst};
ghost use Rattle.markup_scanner.specs.Scans.{Leads, EndsWithin};
ghost use Rattle.markup_scanner.specs.Tags.{EndsStartTag, EndsNoTag, IsOpened, GivesTag, TagStands, ClosesTag};

use crate::reference::reference_end;
use crate::run::{literal_end, name_end, past, plain_end, quoted_end, space_end, stands};

/// Where the parts of a start tag end.
#[derive(Clone, Copy)]
pub struct StartTag {
    /// The end of its name.
    pub name_end: usize,
    /// The end of its attributes, with white space before and after them. There is `>` or `/>`.
    pub attrs_end: usize,
    /// Whether it ends in `/>`.
    pub is_empty: bool,
}

/// The start tag whose `<` is before a place, or the first place at which it is none.
pub(crate) fn start_tag(text: &[u8], at: usize) -> Result<StartTag, usize>
    requires { at ≤ length text.now }
    ensures tag { (s : State) (place : ℕ) (names : Names) → IsOpened text.now s place names at
        → GivesTag text.now s place names at result }
    ensures stands { IfOk result (λ tag. TagStands text.now at tag) }
{
    let name_end = name_end(text, at)?;
    let attrs_end = attributes_end(text, name_end)?;
    if stands(text, attrs_end, b'>') {
        return Ok(StartTag {
            name_end,
            attrs_end,
            is_empty: false,
        });
    }
    past(text, attrs_end + 1, b'>')?;
    Ok(StartTag {
        name_end,
        attrs_end,
        is_empty: true,
    })
}

/// The end of the end tag of this name whose `</` is before a place, or the first place at which it
/// is none.
pub(crate) fn end_tag_end(text: &[u8], at: usize, name: &[u8]) -> Result<usize, usize>
    requires { at ≤ length text.now }
    ensures tag { (place : ℕ) (names : Names) → ClosesTag text.now place name.now names at result }
    ensures within { EndsWithin text.now at result }
    ensures closes { IfOk result (λ end. EndsTag text.now end) }
{
    let name_end = literal_end(text, at, name)?;
    past(text, space_end(text, name_end), b'>')
}

/// Whether a `>` or a `/` is at a place.
fn ends_start_tag(text: &[u8], at: usize) -> bool
    requires { at ≤ length text.now }
    ensures { MatchBool result (EndsStartTag text.now at) (EndsNoTag text.now at) }
{
    stands(text, at, b'>') || stands(text, at, b'/')
}

/// The place of the `>` or `/` after the attributes that begin at a place, or the first place at
/// which they are none.
fn attributes_end(text: &[u8], at: usize) -> Result<usize, usize>
    requires { at ≤ length text.now }
    ensures attributes { (place : ℕ) (name : List ℕ) (names : Names)
        → Leads text.now (in_tag valued place name (slice_range text.now at at) names) at
        (λ end. in_tag spaced place name (slice_range text.now at end) names) result }
    ensures within { EndsWithin text.now at result }
    ensures ends { IfOk result (λ end. EndsStartTag text.now end) }
{
    let mut place = at;
    'attributes: loop {
        let name = space_end(text, place);
        if ends_start_tag(text, name) {
            return Ok(name);
        }
        if name == place {
            return Err(name);
        }
        place = attribute_end(text, name)?;
    }
}

/// The end of the attribute that begins at a place, or the first place at which it is none.
fn attribute_end(text: &[u8], at: usize) -> Result<usize, usize>
    requires place { at ≤ length text.now }
    requires no_space { FailsFirst bytes_of.is_space (drop at text.now) }
    requires no_end { EndsNoTag text.now at }
    ensures attribute { (place : ℕ) (name : List ℕ) (from : ℕ) (names : Names) → from ≤ at
        → Leads text.now (in_tag spaced place name (slice_range text.now from at) names) at
        (λ end. in_tag valued place name (slice_range text.now from end) names) result }
    ensures within { EndsWithin text.now at result }
    ensures more { IfOk result (λ end. at < end) }
{
    let named = name_end(text, at)?;
    let sign = space_end(text, named);
    let equalled = past(text, sign, b'=')?;
    let opening = space_end(text, equalled);
    if let Ok(value) = past(text, opening, b'"') {
        value_end(text, value, b'"')
    } else {
        value_end(text, past(text, opening, b'\'')?, b'\'')
    }
}

/// The end of the value that begins at a place, after its closing quote, or the first place at
/// which it is none.
fn value_end(text: &[u8], at: usize, quote: u8) -> Result<usize, usize>
    requires { at ≤ length text.now }
    ensures value { (place : ℕ) (name : List ℕ) (from : ℕ) (names : Names) → from ≤ at
        → Leads text.now (in_tag (valuing quote) place name (slice_range text.now from at) names) at
        (λ end. in_tag valued place name (slice_range text.now from end) names) result }
    ensures within { EndsWithin text.now at result }
{
    let mut place = quoted_end(text, at, quote);
    'value: loop {
        if let Ok(end) = past(text, place, quote) {
            return Ok(end);
        }
        let reference = past(text, place, b'&')?;
        let more = reference_end(text, reference)?;
        place = quoted_end(text, more, quote);
    }
}

/// The place of the `<` after the text that begins at a place, or the first place at which it is no
/// text.
pub(crate) fn words_end(text: &[u8], at: usize) -> Result<usize, usize>
    requires place { at ≤ length text.now }
    requires no_tag { BeginsWithout 60 (drop at text.now) }
    ensures words { (name : List ℕ) (names : Names)
        → Leads text.now (between (within name names)) at
        (λ end. in_words at (slice_range text.now at end) name names) result }
    ensures within { EndsWithin text.now at result }
    ensures ends { IfOk result (λ end. StandsAt text.now end 60) }
{
    let mut place = plain_end(text, at);
    'words: loop {
        if stands(text, place, b'<') {
            return Ok(place);
        }
        let reference = past(text, place, b'&')?;
        let more = reference_end(text, reference)?;
        place = plain_end(text, more);
    }
}
