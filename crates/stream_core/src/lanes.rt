//! Four blocks side by side: word `i` of block `j` is lane `j` of vector `i`.

ghost use Rattle.std.specs.Prelude.{◌≡◌, ℕ, ◌+◌, ◌*◌, ◌/◌, ◌%◌, ◌^◌, ◌<◌, ◌≤◌, [], length, slice_index, slice_index_or, bit_xor};
ghost use Rattle.std.specs.Int.{w32, rotate_left};
ghost use Rattle.stream_core.specs.Words.{add32, word_at};
ghost use Rattle.stream_core.specs.Lanes.{lane_word, IsTurn, AreTurns};

use std::simd::{u8x16, u32x4};

// Word `i` of a key or a nonce, low byte first.
#[inline(always)]
pub(crate) fn word_at(bytes: &[u8], i: usize) -> u32
    requires { 4 * i + 4 ≤ length bytes.now }
    ensures { result ≡ word_at bytes.now i }
{
    u32::from_le_bytes([
        bytes[4 * i],
        bytes[4 * i + 1],
        bytes[4 * i + 2],
        bytes[4 * i + 3],
    ])
}

#[inline(always)]
pub(crate) fn add(a: u32x4, b: u32x4) -> u32x4
    ensures { (j : ℕ) → j < 4 → slice_index result j ≡ add32 (slice_index a j) (slice_index b j) }
{
    a + b
}

#[inline(always)]
pub(crate) fn xor(a: u32x4, b: u32x4) -> u32x4
    ensures { (j : ℕ) → j < 4 → slice_index result j ≡ bit_xor (slice_index a j) (slice_index b j) }
{
    a ^ b
}

// Each lane rotated left by `k` bits.
#[inline(always)]
pub(crate) fn rotate(x: u32x4, k: u32) -> u32x4
    requires { (0 < k) × (k < 32) }
    ensures { (j : ℕ) → j < 4 → slice_index result j ≡ rotate_left w32 (slice_index x j) k }
{
    (x << u32x4::splat(k)) | (x >> u32x4::splat(32 - k))
}

// Where the bytes of a vector come from as its lanes are rotated left by 16 bits, and by 8.
//
// They are reported by a call, so that LLVM doesn't know them where they are used: it moves a
// shuffle that it knows over the XOR before it, and so makes two of it.
#[inline(never)]
#[tactic(auto, unfolding(crate::specs::Lanes::AreTurns))]
pub(crate) fn turns() -> [u8x16; 2]
    ensures { AreTurns (slice_index_or result 0 []) (slice_index_or result 1 []) }
{
    [
        u8x16::from_array([2, 3, 0, 1, 6, 7, 4, 5, 10, 11, 8, 9, 14, 15, 12, 13]),
        u8x16::from_array([3, 0, 1, 2, 7, 4, 5, 6, 11, 8, 9, 10, 15, 12, 13, 14]),
    ]
}

// Each lane rotated left by `k` bits, which are whole bytes.
#[inline(always)]
pub(crate) fn turned(x: u32x4, k: u32, turn: u8x16) -> u32x4
    requires { IsTurn k turn }
    ensures { (j : ℕ) → j < 4 → slice_index result j ≡ rotate_left w32 (slice_index x j) k }
{
    u32x4::from_le_bytes(x.to_le_bytes().swizzle_dyn(turn))
}

// Each word of four states, plus the word that it started from.
#[inline(always)]
pub(crate) fn sums(states: &[u32x4; 16], first: &[u32x4; 16]) -> [u32x4; 16]
    ensures { (j i : ℕ) → j < 4 → i < 16
        → lane_word result j i ≡ add32 (lane_word states.now j i) (lane_word first.now j i) }
{
    let mut out = *first;
    'words: for i in 0..16 {
        out[i] = add(states[i], first[i]);
    }
    out
}
