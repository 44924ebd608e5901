//! Two words of eight bytes side by side: the registers of a block (RFC 9106, 3.6), as vectors.

ghost use Rattle.std.specs.Prelude.{◌≡◌, ℕ, ◌+◌, ◌*◌, ◌/◌, ◌%◌, ◌<◌, bit_xor, slice_index};
ghost use Rattle.std.specs.Int.{w64, rotate_right};
ghost use Rattle.argon_core.specs.Compression.{multiply_add};
ghost use Rattle.argon_core.specs.Pairs.{IsTurn, words_of};

use crate::compression::LOW_HALF;
use std::simd::{u8x16, u64x2};

/// Where the bytes of a register come from as its words are rotated right.
#[derive(Clone, Copy)]
pub(crate) struct Turns {
    pub(crate) by_32: u8x16,
    pub(crate) by_24: u8x16,
    pub(crate) by_16: u8x16,
}

impl Turns {
    /// The bytes' places for the three rotations by whole bytes.
    //
    // They are reported by a call, so that LLVM doesn't know them where they are used: it moves a
    // shuffle that it knows over the XOR before it, and so makes two of it.
    #[inline(never)]
    pub(crate) fn new() -> Turns
        ensures by_32 { IsTurn 32 result.by_32 }
        ensures by_24 { IsTurn 24 result.by_24 }
        ensures by_16 { IsTurn 16 result.by_16 }
    {
        Turns {
            by_32: u8x16::from_array([4, 5, 6, 7, 0, 1, 2, 3, 12, 13, 14, 15, 8, 9, 10, 11]),
            by_24: u8x16::from_array([3, 4, 5, 6, 7, 0, 1, 2, 11, 12, 13, 14, 15, 8, 9, 10]),
            by_16: u8x16::from_array([2, 3, 4, 5, 6, 7, 0, 1, 10, 11, 12, 13, 14, 15, 8, 9]),
        }
    }
}

/// The sum of two words and twice the product of their low halves, in each lane.
#[inline(always)]
pub(crate) fn multiply_add(a: u64x2, b: u64x2) -> u64x2
    ensures { (j : ℕ) → j < 2 → slice_index result j
        ≡ multiply_add (slice_index a j) (slice_index b j) }
{
    let low = u64x2::splat(LOW_HALF);
    let product = (a & low) * (b & low);
    a + b + product + product
}

/// The exclusive or of two words, in each lane.
#[inline(always)]
pub(crate) fn xor(a: u64x2, b: u64x2) -> u64x2
    ensures { (j : ℕ) → j < 2 → slice_index result j ≡ bit_xor (slice_index a j) (slice_index b j) }
{
    a ^ b
}

/// Each word rotated right by `k` bits, which are whole bytes.
#[inline(always)]
pub(crate) fn turned(x: u64x2, k: u32, turn: u8x16) -> u64x2
    requires { IsTurn k turn }
    ensures { (j : ℕ) → j < 2 → slice_index result j ≡ rotate_right w64 (slice_index x j) k }
{
    u64x2::from_le_bytes(x.to_le_bytes().swizzle_dyn(turn))
}

/// Each word rotated right by 63 bits.
#[inline(always)]
pub(crate) fn turned_by_63(x: u64x2) -> u64x2
    ensures { (j : ℕ) → j < 2 → slice_index result j ≡ rotate_right w64 (slice_index x j) 63 }
{
    (x >> u64x2::splat(63)) | (x << u64x2::splat(1))
}

/// The high word of one register, and the low word of another.
#[inline(always)]
pub(crate) fn high_and_low(a: u64x2, b: u64x2) -> u64x2
    ensures low { slice_index result 0 ≡ slice_index a 1 }
    ensures high { slice_index result 1 ≡ slice_index b 0 }
{
    a.shuffle(b, [1, 2])
}

/// The sixteen words of eight registers.
#[inline(always)]
pub(crate) fn words_of(v: [u64x2; 8]) -> [u64; 16]
    ensures { result ≡ words_of v }
{
    let [v0, v1, v2, v3, v4, v5, v6, v7] = v;
    let [a0, a1] = v0.to_array();
    let [a2, a3] = v1.to_array();
    let [b0, b1] = v2.to_array();
    let [b2, b3] = v3.to_array();
    let [c0, c1] = v4.to_array();
    let [c2, c3] = v5.to_array();
    let [d0, d1] = v6.to_array();
    let [d2, d3] = v7.to_array();
    [
        a0, a1, a2, a3, b0, b1, b2, b3, c0, c1, c2, c3, d0, d1, d2, d3,
    ]
}
