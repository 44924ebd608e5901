//! The reader: a place in a text, and the stack of the elements that are open there.

use crate::attributes::Attrs;
use crate::front::front_len;
use crate::piece::{MarkupFail, Piece};
use markup_scanner::{Token, token_at};
use std::marker::Model;
use std::str;

/// The most elements that may be open at once.
const OPEN_LIMIT: usize = 256;

/// Gives the pieces of a text, one a call, and keeps no more than where it is and which
/// elements are open.
#[derive(Drop)]
pub struct Reader<'a> {
    /// The longest prefix of the text that begins a text in UTF-8.
    text: &'a [u8],
    /// Whether it is the whole text.
    is_whole: bool,
    /// Where the next token begins. At 0 the outermost element has not begun.
    at: usize,
    /// Whether the `/` of an empty element is there.
    is_empty: bool,
    /// Where the name of each open element begins and ends, the outermost first.
    spans: [(usize, usize); 256],
    depth: usize,
}

impl<'a> Model for Reader<'a> {
    ghost use Rattle.std.specs.Prelude.{List};
    ghost use Rattle.markup_grammar.specs.Answers.{Answer};

    ghost Value = { List Answer };

    ghost use Rattle.markup_core.specs.Reader.{answers_left, IsSound};

    ghost view = { answers_left };

    ghost invariant = { IsSound };
}

impl<'a> Reader<'a> {
    ghost use Rattle.std.specs.Prelude.{◌≡◌};
    ghost use Rattle.markup_grammar.specs.Reading.{answers};
    ghost use Rattle.markup_core.specs.Next.{Answers};

    /// A reader at the start of a text. Its value is the list of all answers that it will give.
    pub fn new(text: &'a [u8]) -> Reader<'a>
        ensures { result ≡ answers text.now }
    {
        let len = front_len(text);
        Reader {
            text: &text[..len],
            is_whole: len == text.len(),
            at: 0,
            is_empty: false,
            spans: [(0, 0); 256],
            depth: 0,
        }
    }

    /// The next piece, or the refusal at the text's first fault. Past the end or a refusal each
    /// call answers the same again.
    pub fn next(&mut self) -> Result<Piece<'a>, MarkupFail>
        ensures { Answers self.old result self.new }
    {
        let text = self.text;
        if self.is_empty {
            let place = self.at;
            self.is_empty = false;
            self.at = place + 2;
            return Ok(Piece::Stop { place });
        }
        match token_at(text, self.at, &self.spans, self.depth) {
            Ok(Token::Start { place, tag }) => {
                if self.depth == OPEN_LIMIT {
                    return Err(MarkupFail::Depth(place));
                }
                let name = piece(text, place + 1, tag.name_end);
                let attrs = Attrs {
                    raw: piece(text, tag.name_end, tag.attrs_end),
                };
                if tag.is_empty {
                    self.at = tag.attrs_end;
                    self.is_empty = true;
                    return Ok(Piece::Start { name, attrs, place });
                }
                self.spans[self.depth] = (place + 1, tag.name_end);
                self.depth += 1;
                self.at = tag.attrs_end + 1;
                Ok(Piece::Start { name, attrs, place })
            }
            Ok(Token::Words { place, end }) => {
                let raw = piece(text, place, end);
                self.at = end;
                Ok(Piece::Words { raw, place })
            }
            Ok(Token::Stop { place, end }) => {
                self.depth -= 1;
                self.at = end;
                Ok(Piece::Stop { place })
            }
            Ok(Token::End) => {
                if self.is_whole {
                    Ok(Piece::Finish)
                } else {
                    Err(MarkupFail::Form(text.len()))
                }
            }
            Err(place) => Err(MarkupFail::Form(place)),
        }
    }
}

ghost use Rattle.std.specs.Prelude.{◌≡◌, ◌≤◌, length, IsUtf8, slice_range};

/// The text between two places. That it is text was tested in `new`, so it is not tested again.
#[inline(always)]
fn piece(text: &[u8], start: usize, end: usize) -> &str
    requires order { start ≤ end }
    requires within { end ≤ length text.now }
    requires utf8 { IsUtf8 (slice_range text.now start end) }
    ensures { result.now ≡ slice_range text.now start end }
{
    unsafe { str::from_utf8_unchecked(&text[start..end]) }
}
