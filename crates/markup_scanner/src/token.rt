//! The token that is at a place of a text: a tag, a run of text, or the end.

ghost use Rattle.std.specs.Prelude.{◌≤◌, ◌≡◌, ◌<◌, [], ◌∷◌, length};
ghost use Rattle.markup_grammar.specs.Machine.{Names, fresh, before, behind, between, within};
ghost use Rattle.markup_scanner.specs.Scans.{Leads, EndsWithin};
ghost use Rattle.markup_scanner.specs.Spans.{SpansFit, open_names};
ghost use Rattle.markup_scanner.specs.Tokens.{Tells, TokenStands, state_at};

use crate::aside::{asides_end, outside_end};
use crate::run::past;
use crate::tag::{StartTag, end_tag_end, start_tag, words_end};

/// A whole tag, a whole run of text, or the end of the text.
pub enum Token {
    /// A start tag, whose `<` is at the place.
    Start { place: usize, tag: StartTag },
    /// A run of text from the place up to the `<` at its end.
    Words { place: usize, end: usize },
    /// The end tag of the innermost element, from the place to its end.
    Stop { place: usize, end: usize },
    /// The end of the text, past the outermost element.
    End,
}

/// The token that follows at a place, or the first place at which none does. So many elements are
/// open there, whose names these are; at place 0 the outermost one has not begun.
pub fn token_at(
    text: &[u8],
    at: usize,
    spans: &[(usize, usize); 256],
    depth: usize,
) -> Result<Token, usize>
    requires place { at ≤ length text.now }
    requires depth { depth ≤ 256 }
    requires fits { SpansFit text.now spans.now depth }
    requires begun { 0 < depth → 0 < at }
    ensures token { Tells text.now (open_names text.now spans.now depth)
        (state_at at (open_names text.now spans.now depth)) at result }
    ensures stands { TokenStands text.now at result }
{
    if at == 0 {
        return first_token(text);
    }
    if depth == 0 {
        return last_token(text, at);
    }
    let (start, end) = spans[depth - 1];
    inner_token(text, at, &text[start..end])
}

/// The outermost element's start tag, after a byte order mark, white space, comments and
/// instructions.
fn first_token(text: &[u8]) -> Result<Token, usize>
    ensures token { Tells text.now [] fresh 0 result }
    ensures stands { TokenStands text.now 0 result }
{
    let begin = mark_end(text)?;
    let place = outside_end(text, begin)?;
    let name = past(text, place, b'<')?;
    let tag = start_tag(text, name)?;
    Ok(Token::Start { place, tag })
}

/// The end of a byte order mark at the text's start, or the start where none begins, or the first
/// place at which it is none.
fn mark_end(text: &[u8]) -> Result<usize, usize>
    ensures mark { Leads text.now fresh 0 (λ end. between before) result }
    ensures within { EndsWithin text.now 0 result }
{
    let Ok(second) = past(text, 0, 0xEF) else {
        return Ok(0);
    };
    let third = past(text, second, 0xBB)?;
    past(text, third, 0xBF)
}

/// What is at a place in the element of this name, after comments and instructions.
fn inner_token(text: &[u8], at: usize, name: &[u8]) -> Result<Token, usize>
    requires { at ≤ length text.now }
    ensures token { (names : Names) → Tells text.now (name.now ∷ names)
        (between (within name.now names)) at result }
    ensures stands { TokenStands text.now at result }
{
    let place = asides_end(text, at)?;
    let Ok(opened) = past(text, place, b'<') else {
        let end = words_end(text, place)?;
        return Ok(Token::Words { place, end });
    };
    if let Ok(closing) = past(text, opened, b'/') {
        let end = end_tag_end(text, closing, name)?;
        return Ok(Token::Stop { place, end });
    }
    let tag = start_tag(text, opened)?;
    Ok(Token::Start { place, tag })
}

/// The end, where only white space, comments and instructions come from a place on.
fn last_token(text: &[u8], at: usize) -> Result<Token, usize>
    requires { at ≤ length text.now }
    ensures token { Tells text.now [] (between behind) at result }
    ensures stands { TokenStands text.now at result }
{
    let place = outside_end(text, at)?;
    if place == text.len() {
        return Ok(Token::End);
    }
    match past(text, place, b'<') {
        Ok(opened) => Err(opened),
        Err(place) => Err(place),
    }
}
