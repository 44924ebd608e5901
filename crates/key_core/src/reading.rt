//! Reading the elements of a text, one item of the innermost open element at a time.

ghost use Rattle.std.specs.Prelude.{◌≡◌, ◌↔◌, true};
ghost use Rattle.markup_core.specs.MarkupGrammar.Elements.{innermost, open_contents, own_text};
ghost use Rattle.key_core.specs.KeyDocument.{is_whole};
ghost use Rattle.key_core.specs.Reading.{Comes, Reads};

use markup_core::{Attrs, Piece, Reader};
use secret_core::Secret;
use std::alloc::Global;
use text_core::append_unescaped;

/// Why reading stops before the end of an element.
#[derive(Clone, Copy)]
pub(crate) enum Stopped {
    /// The text is no text of the grammar, or has too many open elements.
    Cut,
    /// There was no memory left.
    NoMemory,
}

impl From<outside_core::NoMemory> for Stopped {
    ghost use Rattle.key_core.specs.declared.reading.Stopped.TheVariants as stopped;

    ghost from_gives = { λ _ e. e ≡ stopped.NoMemory };

    fn from(_none: outside_core::NoMemory) -> Stopped {
        Stopped::NoMemory
    }
}

/// What comes next in the innermost open element.
#[derive(Clone, Copy)]
pub(crate) enum Item<'a> {
    /// An element in it, which is the innermost from here on: its name, its attributes, and its
    /// place.
    Child(&'a str, Attrs<'a>, usize),
    /// A run of text, as it is.
    Words(&'a str),
    /// Its end. The one round it is the innermost from here on.
    End,
}

/// The next item.
pub(crate) fn next_item<'a>(reader: &mut Reader<'a>) -> Result<Item<'a>, Stopped>
    ensures { Comes reader.old result reader.new }
{
    match reader.next() {
        Ok(Piece::Start { name, attrs, place }) => Ok(Item::Child(name, attrs, place)),
        Ok(Piece::Words { raw, .. }) => Ok(Item::Words(raw)),
        Ok(Piece::Stop { .. }) => Ok(Item::End),
        Ok(Piece::Finish) => Err(Stopped::Cut),
        Err(_) => Err(Stopped::Cut),
    }
}

/// Passes over what is left of the innermost open element.
pub(crate) fn skip(reader: &mut Reader<'_>) -> Result<(), Stopped>
    ensures { Reads (λ x. x) tt reader.old result reader.new }
{
    'items: loop {
        match next_item(reader)? {
            Item::Child(..) => skip(reader)?,
            Item::Words(_) => {}
            Item::End => return Ok(()),
        }
    }
}

/// The text of the innermost open element's own, joined across the elements in it.
pub(crate) fn read_text(alloc: Global, reader: &mut Reader<'_>) -> Result<Secret, Stopped>
    ensures { Reads (λ s. s.bytes) (own_text (innermost (open_contents reader.old))) reader.old
        result reader.new }
{
    let mut text = Secret::with_room(alloc, 0)?;
    'items: loop {
        match next_item(reader)? {
            Item::Child(..) => skip(reader)?,
            Item::Words(raw) => append_unescaped(alloc, &mut text, raw)?,
            Item::End => return Ok(text),
        }
    }
}
