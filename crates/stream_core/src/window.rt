//! The bytes of four blocks, in the order of the stream.

ghost use Rattle.std.specs.Prelude.{◌≡◌, ◌≢◌, ℕ, ◌+◌, ◌*◌, ◌/◌, ◌%◌, ◌<◌, ◌≤◌, [], ◌∷◌, slice_index, slice_index_or};
ghost use Rattle.std.specs.Int.{w32, to_le_bytes};
ghost use Rattle.stream_core.specs.Lanes.{lane_word};

use std::simd::u32x4;

/// The bytes of four blocks.
pub(crate) const WINDOW: usize = 256;

// Row `j` of the result has lane `j` of each of the four vectors.
#[inline(always)]
fn transposed(a: u32x4, b: u32x4, c: u32x4, d: u32x4) -> (u32x4, u32x4, u32x4, u32x4)
    ensures row0 { result.0 ≡ slice_index a 0 ∷ slice_index b 0 ∷ slice_index c 0 ∷ slice_index d 0
        ∷ [] }
    ensures row1 { result.1 ≡ slice_index a 1 ∷ slice_index b 1 ∷ slice_index c 1 ∷ slice_index d 1
        ∷ [] }
    ensures row2 { result.2 ≡ slice_index a 2 ∷ slice_index b 2 ∷ slice_index c 2 ∷ slice_index d 2
        ∷ [] }
    ensures row3 { result.3 ≡ slice_index a 3 ∷ slice_index b 3 ∷ slice_index c 3 ∷ slice_index d 3
        ∷ [] }
{
    let (ac_low, ac_high) = a.interleave(c);
    let (bd_low, bd_high) = b.interleave(d);
    let (row0, row1) = ac_low.interleave(bd_low);
    let (row2, row3) = ac_high.interleave(bd_high);
    (row0, row1, row2, row3)
}

// Writes four words at a place, low byte first.
#[inline(always)]
fn put_row(window: &mut [u8; 256], at: usize, row: u32x4)
    requires { at + 16 ≤ 256 }
    ensures here { (i : ℕ) → i < 16
        → slice_index window.new (at + i) ≡ slice_index (to_le_bytes w32 (slice_index row (i / 4)))
        (i % 4) }
    ensures before { (i : ℕ) → i < at → slice_index window.new i ≡ slice_index window.old i }
    ensures after { (i : ℕ) → at + 16 ≤ i → slice_index window.new i ≡ slice_index window.old i }
{
    row.to_le_bytes().copy_to_slice(&mut window[at..at + 16]);
}

// Writes the bytes of words `4 * q` to `4 * q + 3` of each of the four blocks.
#[inline(always)]
fn put_rows(window: &mut [u8; 256], q: usize, a: u32x4, b: u32x4, c: u32x4, d: u32x4)
    requires { q < 4 }
    ensures here { (i : ℕ) → i < 256 → i % 64 / 16 ≡ q
        → slice_index window.new i
        ≡ slice_index (to_le_bytes w32 (slice_index
        (slice_index_or (a ∷ b ∷ c ∷ d ∷ []) (i % 16 / 4) []) (i / 64))) (i % 4) }
    ensures elsewhere { (i : ℕ) → i < 256 → i % 64 / 16 ≢ q
        → slice_index window.new i ≡ slice_index window.old i }
{
    let (row0, row1, row2, row3) = transposed(a, b, c, d);
    put_row(window, 16 * q, row0);
    put_row(window, 64 + 16 * q, row1);
    put_row(window, 128 + 16 * q, row2);
    put_row(window, 192 + 16 * q, row3);
}

// Writes the bytes of four blocks, one block after another.
#[inline(always)]
pub(crate) fn put_blocks(window: &mut [u8; 256], words: &[u32x4; 16])
    ensures { (i : ℕ) → i < 256
        → slice_index window.new i ≡ slice_index
        (to_le_bytes w32 (lane_word words.now (i / 64) (i % 64 / 4))) (i % 4) }
{
    'rows: for q in 0..4usize {
        put_rows(
            window,
            q,
            words[4 * q],
            words[4 * q + 1],
            words[4 * q + 2],
            words[4 * q + 3],
        );
    }
}
