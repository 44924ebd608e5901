//! Texts of markup.

use crate::question::{Fault, NOT_SPELLED};
use crate::spelling::{decimal, put_number, put_quoted, spelled};
use markup_core::{MarkupFail, Piece, Reader};
use std::alloc::{AllocError, Global};

/// More pieces than any text here has.
const PIECES: usize = 10_000;

/// A reader answers otherwise after its last answer.
const ANSWERED_AGAIN: Fault = Fault::Because("another answer after the last one");

/// A reader gives more pieces than any text here has.
const NOT_ENDED: Fault = Fault::Because("too many pieces");

/// What a reader answers: a piece, the end of the text, or its refusal.
type Answer<'a> = Result<Piece<'a>, MarkupFail>;

/// The pieces of a text, and then its end or its refusal.
pub fn pieces(alloc: Global, text: &str) -> Result<String, Fault> {
    let text = spelled(alloc, text)?;
    let mut out = String::new(alloc);
    match put_answers(&mut out, &text) {
        Ok(()) => Ok(out),
        Err(fault) => Err(fault),
    }
}

/// The end of a text, or its refusal.
pub fn outcome(alloc: Global, text: &str) -> Result<String, Fault> {
    let text = spelled(alloc, text)?;
    last_answer(alloc, &text)
}

/// The end or the refusal of so many start tags and a text after them: their number, text.
pub fn open(alloc: Global, question: &str) -> Result<String, Fault> {
    let (depth, inner) = numbered(question)?;
    let text = opened(alloc, depth, inner)?;
    last_answer(alloc, &text)
}

/// How many pieces there are in so many elements in one another and a text in the innermost, and
/// then the end or the refusal: their number, text.
pub fn nested(alloc: Global, question: &str) -> Result<String, Fault> {
    let (depth, inner) = numbered(question)?;
    let mut text = opened(alloc, depth, inner)?;
    put_often(&mut text, depth, b"</a>")?;
    let (count, last) = read_through(&text)?;
    let mut out = decimal(alloc, count as u64)?;
    out.push_str(" pieces, ")?;
    put_answer(&mut out, last)?;
    Ok(out)
}

// The number at the start of a question, and the text after it.
fn numbered(question: &str) -> Result<(u16, &str), Fault> {
    let Some((number, text)) = question.split_once(' ') else {
        return Err(NOT_SPELLED);
    };
    match number.parse::<u16>() {
        Ok(number) => Ok((number, text)),
        Err(_) => Err(NOT_SPELLED),
    }
}

// So many start tags, and the text that is spelled here.
fn opened(alloc: Global, depth: u16, inner: &str) -> Result<Vec<u8>, Fault> {
    let inner = spelled(alloc, inner)?;
    let mut text = Vec::new(alloc);
    put_often(&mut text, depth, b"<a>")?;
    text.extend_from_slice(&inner)?;
    Ok(text)
}

// Adds a tag so many times.
fn put_often(text: &mut Vec<u8>, count: u16, tag: &[u8]) -> Result<(), AllocError> {
    for _ in 0..count {
        text.extend_from_slice(tag)?;
    }
    Ok(())
}

// The last answer on a text.
fn last_answer(alloc: Global, text: &[u8]) -> Result<String, Fault> {
    let (_, last) = read_through(text)?;
    let mut out = String::new(alloc);
    put_answer(&mut out, last)?;
    Ok(out)
}

// How many pieces a text has, and the answer after them, which must be given again.
fn read_through(text: &[u8]) -> Result<(usize, Answer<'_>), Fault> {
    let mut reader = Reader::new(text);
    for count in 0..PIECES {
        let answer = reader.next();
        if is_last(answer) {
            if reader.next() != answer {
                return Err(ANSWERED_AGAIN);
            }
            return Ok((count, answer));
        }
    }
    Err(NOT_ENDED)
}

// Adds all answers on a text, the last of which must be given again.
fn put_answers(out: &mut String, text: &[u8]) -> Result<(), Fault> {
    let mut reader = Reader::new(text);
    for _ in 0..PIECES {
        let answer = reader.next();
        put_answer(out, answer)?;
        if is_last(answer) {
            if reader.next() != answer {
                return Err(ANSWERED_AGAIN);
            }
            return Ok(());
        }
        out.push_str(", ")?;
    }
    Err(NOT_ENDED)
}

// Whether there is no other answer after this one.
fn is_last(answer: Answer<'_>) -> bool {
    matches!(answer, Ok(Piece::Finish) | Err(_))
}

// Adds an answer with its place.
fn put_answer(out: &mut String, answer: Answer<'_>) -> Result<(), AllocError> {
    match answer {
        Ok(piece) => put_piece(out, piece),
        Err(MarkupFail::Form(place)) => put_place(out, "refused at", place),
        Err(MarkupFail::Depth(place)) => put_place(out, "too deep at", place),
    }
}

// Adds a piece with its place.
fn put_piece(out: &mut String, piece: Piece<'_>) -> Result<(), AllocError> {
    match piece {
        Piece::Start { name, attrs, place } => {
            put_place(out, "start", place)?;
            put_quoted(out, name)?;
            put_quoted(out, attrs.raw)
        }
        Piece::Words { raw, place } => {
            put_place(out, "words", place)?;
            put_quoted(out, raw)
        }
        Piece::Stop { place } => put_place(out, "stop", place),
        Piece::Finish => out.push_str("end"),
    }
}

// Adds what is at a place, and the place.
fn put_place(out: &mut String, what: &str, place: usize) -> Result<(), AllocError> {
    out.push_str(what)?;
    put_number(out, place as u64)
}
