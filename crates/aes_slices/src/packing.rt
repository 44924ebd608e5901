//! Blocks packed into slices and back.

ghost use Rattle.std.specs.Prelude.{◌≡◌, ◌<◌, ℕ, ◌+◌, ◌*◌, ◌/◌, ◌%◌, [], slice_index, slice_index_or};
ghost use Rattle.aes_slices.specs.Slices.{cell_bit, block};
ghost use Rattle.aes_slices.specs.Packing.{swapped_low, swapped_high, crossed_place, by_rows};

use crate::slices::{Slices, are_bytes};
use std::simd::u8x16;

/// Two vectors in which the bits at odd places of the first and the bits at even places of the second
/// change places.
#[inline(always)]
fn swap_bits(x: u8x16, y: u8x16) -> (u8x16, u8x16)
    ensures low { (l : ℕ) → l < 16
        → slice_index result.0 l ≡ swapped_low 1 0x55 (slice_index x l) (slice_index y l) }
    ensures high { (l : ℕ) → l < 16
        → slice_index result.1 l ≡ swapped_high 1 0x55 (slice_index x l) (slice_index y l) }
{
    let low = u8x16::splat(0x55);
    let high = u8x16::splat(0xaa);
    let one = u8x16::splat(1);
    (
        (x & low) | ((y & low) << one),
        ((x >> one) & low) | (y & high),
    )
}

/// Two vectors in which the upper pairs of bits of the first and the lower pairs of the second change
/// places.
#[inline(always)]
fn swap_pairs(x: u8x16, y: u8x16) -> (u8x16, u8x16)
    ensures low { (l : ℕ) → l < 16
        → slice_index result.0 l ≡ swapped_low 2 0x33 (slice_index x l) (slice_index y l) }
    ensures high { (l : ℕ) → l < 16
        → slice_index result.1 l ≡ swapped_high 2 0x33 (slice_index x l) (slice_index y l) }
{
    let low = u8x16::splat(0x33);
    let high = u8x16::splat(0xcc);
    let two = u8x16::splat(2);
    (
        (x & low) | ((y & low) << two),
        ((x >> two) & low) | (y & high),
    )
}

/// Two vectors in which the upper halves of the bytes of the first and the lower halves of the second
/// change places.
#[inline(always)]
fn swap_halves(x: u8x16, y: u8x16) -> (u8x16, u8x16)
    ensures low { (l : ℕ) → l < 16
        → slice_index result.0 l ≡ swapped_low 4 0x0f (slice_index x l) (slice_index y l) }
    ensures high { (l : ℕ) → l < 16
        → slice_index result.1 l ≡ swapped_high 4 0x0f (slice_index x l) (slice_index y l) }
{
    let low = u8x16::splat(0x0f);
    let high = u8x16::splat(0xf0);
    let four = u8x16::splat(4);
    (
        (x & low) | ((y & low) << four),
        ((x >> four) & low) | (y & high),
    )
}

/// Bits swapped between each two neighbouring vectors.
#[inline(always)]
fn cross_bits(s: Slices) -> Slices
    ensures { (j l b : ℕ) → j < 8 → l < 16 → b < 8
        → cell_bit result j l b ≡ cell_bit s (crossed_place 1 j b) l (crossed_place 1 b j) }
{
    let [s0, s1, s2, s3, s4, s5, s6, s7] = s;
    are_bytes(s);
    let (r0, r1) = swap_bits(s0, s1);
    let (r2, r3) = swap_bits(s2, s3);
    let (r4, r5) = swap_bits(s4, s5);
    let (r6, r7) = swap_bits(s6, s7);
    [r0, r1, r2, r3, r4, r5, r6, r7]
}

/// Pairs of bits swapped between vectors two places apart.
#[inline(always)]
fn cross_pairs(s: Slices) -> Slices
    ensures { (j l b : ℕ) → j < 8 → l < 16 → b < 8
        → cell_bit result j l b ≡ cell_bit s (crossed_place 2 j b) l (crossed_place 2 b j) }
{
    let [s0, s1, s2, s3, s4, s5, s6, s7] = s;
    are_bytes(s);
    let (r0, r2) = swap_pairs(s0, s2);
    let (r1, r3) = swap_pairs(s1, s3);
    let (r4, r6) = swap_pairs(s4, s6);
    let (r5, r7) = swap_pairs(s5, s7);
    [r0, r1, r2, r3, r4, r5, r6, r7]
}

/// Halves of bytes swapped between vectors four places apart.
#[inline(always)]
fn cross_halves(s: Slices) -> Slices
    ensures { (j l b : ℕ) → j < 8 → l < 16 → b < 8
        → cell_bit result j l b ≡ cell_bit s (crossed_place 4 j b) l (crossed_place 4 b j) }
{
    let [s0, s1, s2, s3, s4, s5, s6, s7] = s;
    are_bytes(s);
    let (r0, r4) = swap_halves(s0, s4);
    let (r1, r5) = swap_halves(s1, s5);
    let (r2, r6) = swap_halves(s2, s6);
    let (r3, r7) = swap_halves(s3, s7);
    [r0, r1, r2, r3, r4, r5, r6, r7]
}

/// The vectors of slices and the bits of a lane exchanged: vector b then has the byte of block b.
#[inline(always)]
fn exchange(s: Slices) -> Slices
    ensures { (j l b : ℕ) → j < 8 → l < 16 → b < 8 → cell_bit result j l b ≡ cell_bit s b l j }
{
    cross_halves(cross_pairs(cross_bits(s)))
}

/// A block from columns to rows, or from rows to columns.
#[inline(always)]
fn by_rows(x: u8x16) -> u8x16
    ensures { (l : ℕ) → l < 16 → slice_index result l ≡ slice_index x (by_rows l) }
{
    x.swizzle([0, 4, 8, 12, 1, 5, 9, 13, 2, 6, 10, 14, 3, 7, 11, 15])
}

/// Eight blocks, from rows to columns or back.
#[inline(always)]
fn all_by_rows(s: Slices) -> Slices
    ensures { (j l : ℕ) → j < 8 → l < 16
        → slice_index (slice_index_or result j []) l
        ≡ slice_index (slice_index_or s j []) (by_rows l) }
{
    let [s0, s1, s2, s3, s4, s5, s6, s7] = s;
    [
        by_rows(s0),
        by_rows(s1),
        by_rows(s2),
        by_rows(s3),
        by_rows(s4),
        by_rows(s5),
        by_rows(s6),
        by_rows(s7),
    ]
}

/// The vectors of eight blocks.
#[inline(always)]
fn vectors_of(blocks: [[u8; 16]; 8]) -> Slices
    ensures { (j : ℕ) → j < 8 → slice_index_or result j [] ≡ slice_index_or blocks j [] }
{
    [
        u8x16::from_array(blocks[0]),
        u8x16::from_array(blocks[1]),
        u8x16::from_array(blocks[2]),
        u8x16::from_array(blocks[3]),
        u8x16::from_array(blocks[4]),
        u8x16::from_array(blocks[5]),
        u8x16::from_array(blocks[6]),
        u8x16::from_array(blocks[7]),
    ]
}

/// The blocks of eight vectors.
#[inline(always)]
fn blocks_of(vectors: Slices) -> [[u8; 16]; 8]
    ensures { (j : ℕ) → j < 8 → slice_index_or result j [] ≡ slice_index_or vectors j [] }
{
    [
        vectors[0].to_array(),
        vectors[1].to_array(),
        vectors[2].to_array(),
        vectors[3].to_array(),
        vectors[4].to_array(),
        vectors[5].to_array(),
        vectors[6].to_array(),
        vectors[7].to_array(),
    ]
}

/// Eight blocks packed into slices.
#[inline(always)]
pub fn pack(blocks: [[u8; 16]; 8]) -> Slices
    ensures { (j : ℕ) → j < 8 → block result j ≡ slice_index_or blocks j [] }
{
    let vectors = vectors_of(blocks);
    are_bytes(vectors);
    exchange(all_by_rows(vectors))
}

/// The eight blocks of slices.
#[inline(always)]
pub fn unpack(s: Slices) -> [[u8; 16]; 8]
    ensures { (j : ℕ) → j < 8 → slice_index_or result j [] ≡ block s j }
{
    let vectors = all_by_rows(exchange(s));
    are_bytes(vectors);
    blocks_of(vectors)
}
