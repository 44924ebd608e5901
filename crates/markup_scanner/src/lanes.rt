//! How long a run of bytes is within sixteen bytes of a text, which are looked at together.

ghost use Rattle.std.specs.Prelude.{◌≡◌, ◌+◌, ◌≤◌, length};
ghost use Rattle.std.specs.List.{prefix_len};
ghost use Rattle.std.specs.Simd.Lanes.{chunk};
ghost use Rattle.markup_grammar.specs.Bytes as bytes_of;
ghost use Rattle.markup_scanner.specs.Lanes.{first_set};

use std::simd::prelude::*;

/// How many bytes are looked at together.
pub(crate) const LANES: usize = 16;

/// The place of the lowest bit that is set, or the number of lanes.
#[inline(always)]
fn first_set(mask: u64) -> usize
    ensures { result ≡ first_set mask }
{
    if mask == 0 {
        LANES
    } else {
        mask.trailing_zeros() as usize
    }
}

/// How many of the bytes at a place stand for themselves in a value between these quotes.
#[inline(always)]
pub(crate) fn quoted_lanes(text: &[u8], at: usize, quote: u8) -> usize
    requires { at + LANES ≤ length text.now }
    ensures { result ≡ prefix_len (bytes_of.is_value quote) (chunk at LANES text.now) }
{
    let bytes = u8x16::from_slice(&text[at..]);
    let marks = bytes.simd_eq(u8x16::splat(b'&')) | bytes.simd_eq(u8x16::splat(b'<'));
    let controls = bytes.simd_lt(u8x16::splat(b' '))
        & bytes.simd_ne(u8x16::splat(b'\t'))
        & bytes.simd_ne(u8x16::splat(b'\n'))
        & bytes.simd_ne(u8x16::splat(b'\r'));
    let quotes = bytes.simd_eq(u8x16::splat(quote));
    first_set((marks | controls | quotes).to_bitmask())
}

/// How many of the bytes at a place may be in a name.
#[inline(always)]
pub(crate) fn name_lanes(text: &[u8], at: usize) -> usize
    requires { at + LANES ≤ length text.now }
    ensures { result ≡ prefix_len bytes_of.is_name_byte (chunk at LANES text.now) }
{
    let bytes = u8x16::from_slice(&text[at..]);
    // What lies between the bytes of names, in the order of the bytes.
    let before_digits = bytes.simd_lt(u8x16::splat(b'-')) | bytes.simd_eq(u8x16::splat(b'/'));
    let before_capitals = bytes.simd_gt(u8x16::splat(b':')) & bytes.simd_lt(u8x16::splat(b'A'));
    let before_letters = bytes.simd_gt(u8x16::splat(b'Z'))
        & bytes.simd_lt(u8x16::splat(b'a'))
        & bytes.simd_ne(u8x16::splat(b'_'));
    let after_letters = bytes.simd_gt(u8x16::splat(b'z')) & bytes.simd_lt(u8x16::splat(128));
    first_set((before_digits | before_capitals | before_letters | after_letters).to_bitmask())
}
