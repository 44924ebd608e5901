//! Sixteen bytes of a text that are looked at together.

ghost use Rattle.std.specs.Prelude.{◌≡◌, ◌+◌, ◌≤◌, length};
ghost use Rattle.std.specs.List.{prefix_len};
ghost use Rattle.std.specs.Simd.Lanes.{chunk};
ghost use Rattle.text_core.specs.Lanes.{first_set};
ghost use Rattle.text_core.specs.Parts as parts;

use std::simd::prelude::*;

/// How many bytes are looked at together.
pub(crate) const LANES: usize = 16;

/// The place of the lowest bit that is set, or the number of lanes.
#[inline(always)]
fn first_set(mask: u64) -> usize
    ensures { result ≡ first_set mask }
{
    if mask == 0 {
        LANES
    } else {
        mask.trailing_zeros() as usize
    }
}

/// How many of the bytes at a place are written as they are.
#[inline(always)]
pub(crate) fn verbatim_lanes(text: &[u8], at: usize) -> usize
    requires { at + LANES ≤ length text.now }
    ensures { result ≡ prefix_len parts.is_verbatim (chunk at LANES text.now) }
{
    let bytes = u8x16::from_slice(&text[at..]);
    let controls = bytes.simd_lt(u8x16::splat(b' '))
        & bytes.simd_ne(u8x16::splat(b'\t'))
        & bytes.simd_ne(u8x16::splat(b'\n'));
    let quotes = bytes.simd_eq(u8x16::splat(b'"')) | bytes.simd_eq(u8x16::splat(b'&'));
    let brackets = bytes.simd_eq(u8x16::splat(b'<')) | bytes.simd_eq(u8x16::splat(b'>'));
    first_set((controls | quotes | brackets).to_bitmask())
}
