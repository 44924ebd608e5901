//! Sums, products and moves of the bytes of eight blocks in slices.

ghost use Rattle.std.specs.Prelude.{◌≡◌, ◌<◌, ℕ, ◌+◌, ◌-◌, ◌*◌, ◌/◌, ◌%◌, [], length, slice_index, slice_index_or, bit_xor};
ghost use Rattle.aes_slices.specs.Slices.{cell, times_x, mixed_before, mixed_row, mixed_back};
ghost use Rattle.aes_slices.specs.Circuits.{run_vectors, doubling, first};

use std::simd::u8x16;

/// Eight blocks, as eight vectors: vector b has bit b of each byte, and bit j of its lane l is that
/// of block j at place l. The places are row by row.
pub type Slices = [u8x16; 8];

/// A vector has sixteen lanes.
#[inline(always)]
fn is_whole(x: u8x16)
    ensures { length x ≡ 16 }
{}

/// Each vector has sixteen lanes.
#[inline(always)]
pub(crate) fn are_whole(s: Slices)
    ensures { (b : ℕ) → b < 8 → length (slice_index_or s b []) ≡ 16 }
{
    is_whole(s[0]);
    is_whole(s[1]);
    is_whole(s[2]);
    is_whole(s[3]);
    is_whole(s[4]);
    is_whole(s[5]);
    is_whole(s[6]);
    is_whole(s[7]);
}

/// The lanes of a vector are bytes.
#[inline(always)]
fn has_bytes(x: u8x16)
    ensures { (l : ℕ) → l < 16 → slice_index x l < 256 }
{}

/// The lanes of each vector are bytes, and are sixteen.
#[inline(always)]
pub(crate) fn are_bytes(s: Slices)
    ensures bytes { (b l : ℕ) → b < 8 → l < 16 → slice_index (slice_index_or s b []) l < 256 }
    ensures whole { (b : ℕ) → b < 8 → length (slice_index_or s b []) ≡ 16 }
{
    are_whole(s);
    has_bytes(s[0]);
    has_bytes(s[1]);
    has_bytes(s[2]);
    has_bytes(s[3]);
    has_bytes(s[4]);
    has_bytes(s[5]);
    has_bytes(s[6]);
    has_bytes(s[7]);
}

/// The sums of the bytes of two vectors.
#[inline(always)]
fn xor(x: u8x16, y: u8x16) -> u8x16
    ensures { (l : ℕ) → l < 16
        → slice_index result l ≡ bit_xor (slice_index x l) (slice_index y l) }
{
    x ^ y
}

/// The sums of the bytes of two slices.
#[inline(always)]
pub fn sum(a: Slices, b: Slices) -> Slices
    ensures { (j l : ℕ) → j < 8 → l < 16 → cell result j l ≡ bit_xor (cell a j l) (cell b j l) }
{
    [
        xor(a[0], b[0]),
        xor(a[1], b[1]),
        xor(a[2], b[2]),
        xor(a[3], b[3]),
        xor(a[4], b[4]),
        xor(a[5], b[5]),
        xor(a[6], b[6]),
        xor(a[7], b[7]),
    ]
}

/// Each byte times x, by gates.
#[inline(always)]
fn double(s: Slices) -> Slices
    ensures { result ≡ run_vectors doubling (first 8 s) }
{
    let [s0, s1, s2, s3, s4, s5, s6, s7] = s;
    [s7, s0 ^ s7, s1, s2 ^ s7, s3 ^ s7, s4, s5, s6]
}

/// Each byte times x.
#[inline(always)]
pub fn times_x(s: Slices) -> Slices
    ensures { (j l : ℕ) → j < 8 → l < 16 → cell result j l ≡ times_x (cell s j l) }
{
    are_whole(s);
    double(s)
}

/// A vector with each row at the place of the row before.
#[inline(always)]
fn next_row(x: u8x16) -> u8x16
    ensures { (l : ℕ) → l < 16 → slice_index result l ≡ slice_index x ((l + 4) % 16) }
{
    x.swizzle([4, 5, 6, 7, 8, 9, 10, 11, 12, 13, 14, 15, 0, 1, 2, 3])
}

/// A vector with each row two places before its own.
#[inline(always)]
fn second_row(x: u8x16) -> u8x16
    ensures { (l : ℕ) → l < 16 → slice_index result l ≡ slice_index x ((l + 8) % 16) }
{
    x.swizzle([8, 9, 10, 11, 12, 13, 14, 15, 0, 1, 2, 3, 4, 5, 6, 7])
}

/// A vector with row r turned right by r places.
#[inline(always)]
fn turned_back(x: u8x16) -> u8x16
    ensures { (l : ℕ) → l < 16
        → slice_index result l ≡ slice_index x (4 * (l / 4) + (l % 4 + 4 - l / 4) % 4) }
{
    x.swizzle([0, 1, 2, 3, 7, 4, 5, 6, 10, 11, 8, 9, 13, 14, 15, 12])
}

/// Each row at the place of the row before.
#[inline(always)]
pub fn next_rows(s: Slices) -> Slices
    ensures { (j l : ℕ) → j < 8 → l < 16 → cell result j l ≡ cell s j ((l + 4) % 16) }
{
    let [s0, s1, s2, s3, s4, s5, s6, s7] = s;
    [
        next_row(s0),
        next_row(s1),
        next_row(s2),
        next_row(s3),
        next_row(s4),
        next_row(s5),
        next_row(s6),
        next_row(s7),
    ]
}

/// Each row two places before its own.
#[inline(always)]
pub fn second_rows(s: Slices) -> Slices
    ensures { (j l : ℕ) → j < 8 → l < 16 → cell result j l ≡ cell s j ((l + 8) % 16) }
{
    let [s0, s1, s2, s3, s4, s5, s6, s7] = s;
    [
        second_row(s0),
        second_row(s1),
        second_row(s2),
        second_row(s3),
        second_row(s4),
        second_row(s5),
        second_row(s6),
        second_row(s7),
    ]
}

/// Row r turned right by r places.
#[inline(always)]
pub fn inv_shift_rows(s: Slices) -> Slices
    ensures { (j l : ℕ) → j < 8 → l < 16
        → cell result j l ≡ cell s j (4 * (l / 4) + (l % 4 + 4 - l / 4) % 4) }
{
    let [s0, s1, s2, s3, s4, s5, s6, s7] = s;
    [
        turned_back(s0),
        turned_back(s1),
        turned_back(s2),
        turned_back(s3),
        turned_back(s4),
        turned_back(s5),
        turned_back(s6),
        turned_back(s7),
    ]
}

/// Each byte mixed with the byte two rows on.
#[inline(always)]
fn mix_before(s: Slices) -> Slices
    ensures { (j l : ℕ) → j < 8 → l < 16
        → cell result j l ≡ mixed_before (cell s j l) (cell s j ((l + 8) % 16)) }
{
    sum(s, times_x(times_x(sum(s, second_rows(s)))))
}

/// Each byte mixed with those of the next three rows.
#[inline(always)]
fn mix(s: Slices) -> Slices
    ensures { (j l : ℕ) → j < 8 → l < 16
        → cell result j l ≡ mixed_row (cell s j l) (cell s j ((l + 4) % 16))
        (cell s j ((l + 8) % 16)) (cell s j ((l + 12) % 16)) }
{
    let next = next_rows(s);
    let sums = sum(s, next);
    sum(sum(next, second_rows(sums)), times_x(sums))
}

/// Each column mixed back.
#[inline(always)]
pub fn inv_mix_columns(s: Slices) -> Slices
    ensures { (j l : ℕ) → j < 8 → l < 16
        → cell result j l ≡ mixed_back (cell s j l) (cell s j ((l + 4) % 16))
        (cell s j ((l + 8) % 16)) (cell s j ((l + 12) % 16)) }
{
    mix(mix_before(s))
}
