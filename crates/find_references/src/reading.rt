//! References as they stand in texts.

ghost use Rattle.std.specs.Prelude.{◌≡◌, ◌≤◌, length, option_map, true};
ghost use Rattle.std.specs.List.{position};
ghost use Rattle.find_references.specs.References as spec;
ghost use Rattle.find_references.specs.inside.Seen.{reference_seen};

use crate::fields::is_word;
use crate::parts::{Part, Place};

/// A reference in a text.
#[derive(Clone, Copy)]
pub(crate) struct Reference<'a> {
    /// The part of the entry that takes the reference's place.
    pub(crate) wanted: Part,
    /// Where that entry has the text.
    pub(crate) place: Place,
    pub(crate) text: &'a [u8],
    /// The whole reference.
    pub(crate) written: &'a [u8],
}

// The part of a letter, in either case.
fn part_of(letter: u8) -> Option<Part>
    ensures { result ≡ spec.part_of letter }
{
    match letter {
        b'T' | b't' => Some(Part::Title),
        b'U' | b'u' => Some(Part::UserName),
        b'P' | b'p' => Some(Part::Password),
        b'A' | b'a' => Some(Part::Url),
        b'N' | b'n' => Some(Part::Notes),
        b'I' | b'i' => Some(Part::Id),
        _ => None,
    }
}

// The place of a letter, in either case.
fn place_of(letter: u8) -> Option<Place>
    ensures { result ≡ spec.place_of letter }
{
    match letter {
        b'O' | b'o' => Some(Place::OtherField),
        _ => Some(Place::In(part_of(letter)?)),
    }
}

// Reports whether what is before the text of a reference is there, but for its two letters.
fn is_opened(text: &[u8]) -> bool
    ensures is { result ≡ spec.is_opened text.now }
    ensures len { result ≡ true → 9 ≤ length text.now }
{
    if text.len() < 9 {
        return false;
    }
    if !is_word(&text[..5], b"{REF:") {
        return false;
    }
    if text[6] != b'@' {
        return false;
    }
    text[8] == b':'
}

// The place of the first closing brace.
fn brace_in(text: &[u8]) -> Option<usize>
    ensures { result ≡ position spec.is_close text.now }
{
    text.iter().position(|byte| *byte == b'}')
}

/// The reference with which a text begins.
#[tactic(auto, unfolding(crate::specs::References::reference_at))]
pub(crate) fn reference_at(text: &[u8]) -> Option<Reference<'_>>
    ensures { option_map reference_seen result ≡ spec.reference_at text.now }
{
    if !is_opened(text) {
        return None;
    }
    let wanted = part_of(text[5])?;
    let place = place_of(text[7])?;
    let after = &text[9..];
    let len = brace_in(after)?;
    if len == 0 {
        return None;
    }
    Some(Reference {
        wanted,
        place,
        text: &after[..len],
        written: &text[..10 + len],
    })
}
