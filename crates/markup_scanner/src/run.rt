//! Where runs of bytes end in a text, names and white space among them.

ghost use Rattle.std.specs.Prelude.{◌≡◌, ◌≤◌, ◌<◌, ◌+◌, ℕ, List, [], length, drop, MatchOption, MatchBool, IfSome, IsTrue};
ghost use Rattle.markup_grammar.specs.Bytes as bytes_of;
ghost use Rattle.markup_grammar.specs.Machine.{State};
ghost use Rattle.markup_scanner.specs.Left.{StandsAt, BeginsWithout};
ghost use Rattle.markup_scanner.specs.Scans.{run_end, IsPast, EndsWithin, NameEnds, Await, Leads};

use crate::bytes::{begins_name, is_in_name, is_quoted, is_space};
use crate::lanes::{LANES, name_lanes, quoted_lanes};

/// The byte at a place.
#[inline(always)]
pub(crate) fn byte_at(text: &[u8], at: usize) -> Option<u8>
    requires { at ≤ length text.now }
    ensures byte { MatchOption result (drop at text.now ≡ []) (λ b. StandsAt text.now at b) }
    ensures within { IfSome result (λ b. at < length text.now) }
{
    if at < text.len() {
        Some(text[at])
    } else {
        None
    }
}

/// Whether this byte is at a place.
#[inline(always)]
pub(crate) fn stands(text: &[u8], at: usize, byte: u8) -> bool
    requires { at ≤ length text.now }
    ensures byte { MatchBool result (StandsAt text.now at byte)
        (BeginsWithout byte (drop at text.now)) }
    ensures within { IsTrue result → at < length text.now }
{
    byte_at(text, at) == Some(byte)
}

/// The place after a byte, where it is this one.
#[inline(always)]
pub(crate) fn past(text: &[u8], at: usize, byte: u8) -> Result<usize, usize>
    requires { at ≤ length text.now }
    ensures byte { IsPast text.now at byte result }
    ensures within { EndsWithin text.now at result }
{
    if stands(text, at, byte) {
        Ok(at + 1)
    } else {
        Err(at)
    }
}

/// The end of the white space that is at a place.
#[inline(always)]
pub(crate) fn space_end(text: &[u8], at: usize) -> usize
    requires { at ≤ length text.now }
    ensures run { result ≡ run_end bytes_of.is_space text.now at }
    ensures from { at ≤ result }
    ensures within { result ≤ length text.now }
{
    let mut end = at;
    while end < text.len() && is_space(text[end]) {
        end += 1;
    }
    end
}

/// The end of the bytes at a place that may be in a name.
pub(crate) fn in_name_end(text: &[u8], at: usize) -> usize
    requires { at ≤ length text.now }
    ensures run { result ≡ run_end bytes_of.is_name_byte text.now at }
    ensures from { at ≤ result }
    ensures within { result ≤ length text.now }
{
    let mut end = at;
    while text.len() - end >= LANES {
        let len = name_lanes(text, end);
        if len < LANES {
            return end + len;
        }
        end += LANES;
    }
    in_name_end_by_bytes(text, end)
}

/// The same, byte by byte.
fn in_name_end_by_bytes(text: &[u8], at: usize) -> usize
    requires { at ≤ length text.now }
    ensures run { result ≡ run_end bytes_of.is_name_byte text.now at }
    ensures from { at ≤ result }
    ensures within { result ≤ length text.now }
{
    let mut end = at;
    while end < text.len() && is_in_name(text[end]) {
        end += 1;
    }
    end
}

/// The end of the bytes at a place that stand for themselves in text. `<` is none of them, so that
/// it may be taken for a quote.
pub(crate) fn plain_end(text: &[u8], at: usize) -> usize
    requires { at ≤ length text.now }
    ensures run { result ≡ run_end bytes_of.is_text text.now at }
    ensures from { at ≤ result }
    ensures within { result ≤ length text.now }
{
    quoted_end(text, at, b'<')
}

/// The end of the bytes at a place that stand for themselves in a value between these quotes.
pub(crate) fn quoted_end(text: &[u8], at: usize, quote: u8) -> usize
    requires { at ≤ length text.now }
    ensures run { result ≡ run_end (bytes_of.is_value quote) text.now at }
    ensures from { at ≤ result }
    ensures within { result ≤ length text.now }
{
    let mut end = at;
    while text.len() - end >= LANES {
        let len = quoted_lanes(text, end, quote);
        if len < LANES {
            return end + len;
        }
        end += LANES;
    }
    quoted_end_by_bytes(text, end, quote)
}

/// The same, byte by byte.
fn quoted_end_by_bytes(text: &[u8], at: usize, quote: u8) -> usize
    requires { at ≤ length text.now }
    ensures run { result ≡ run_end (bytes_of.is_value quote) text.now at }
    ensures from { at ≤ result }
    ensures within { result ≤ length text.now }
{
    let mut end = at;
    while end < text.len() && is_quoted(quote, text[end]) {
        end += 1;
    }
    end
}

/// The end of the name that is at a place, or the place where none is.
pub(crate) fn name_end(text: &[u8], at: usize) -> Result<usize, usize>
    requires { at ≤ length text.now }
    ensures name { NameEnds text.now at result }
    ensures within { EndsWithin text.now at result }
{
    match byte_at(text, at) {
        Some(first) if begins_name(first) => Ok(in_name_end(text, at + 1)),
        _ => Err(at),
    }
}

/// The place after these bytes, where they are at a place, or the first place where they do not.
pub(crate) fn literal_end(text: &[u8], at: usize, bytes: &[u8]) -> Result<usize, usize>
    requires { at ≤ length text.now }
    ensures bytes { (s : List ℕ → ℕ → State) → Await text.now s at
        → Leads text.now (s bytes.now at) at (s []) result }
    ensures within { EndsWithin text.now at result }
{
    let mut place = at;
    for byte in bytes {
        place = past(text, place, *byte)?;
    }
    Ok(place)
}
