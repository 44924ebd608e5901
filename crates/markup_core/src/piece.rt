//! What a reader gives: pieces of the text, or its refusal.

use crate::attributes::Attrs;

/// A piece of a text. Its names and runs of text are slices of the text, and its place counts bytes
/// from the text's start.
#[derive(Clone, Copy, PartialEq, Eq)]
pub enum Piece<'a> {
    /// A start tag, whose `<` is at the place. An empty element's tag gives it too.
    Start {
        name: &'a str,
        attrs: Attrs<'a>,
        place: usize,
    },
    /// A longest run of text inside an element, up to the next `<`, with its references as they
    /// are. It is not empty.
    Words {
        raw: &'a str,
        place: usize,
    },
    /// An end tag, whose `<` is at the place, or the end of an empty element, whose `/` does.
    Stop {
        place: usize,
    },
    /// The end of the text, all of which is in the grammar.
    Finish,
}

/// Why a reader stops before the end of a text.
#[derive(Clone, Copy, PartialEq, Eq)]
pub enum MarkupFail {
    /// The text is none of the grammar. It carries the length of the longest prefix of it that
    /// begins one.
    Form(usize),
    /// More than 256 elements would be open at once. It carries the place of the start tag's `<`.
    Depth(usize),
}
