//! The words of four blocks of 64 bytes.

ghost use Rattle.std.specs.Prelude.{◌≡◌, ℕ, ◌+◌, ◌*◌, ◌<◌, ◌≤◌, length, slice_index};
ghost use Rattle.sha2.specs.Sha256.{IsWindow, schedule, word_at};
ghost use Rattle.sha_lanes.specs.Lanes.{HaveLength, lane, one_of};

use std::simd::u32x4;

// Word `i` of a block, high byte first.
#[inline(always)]
fn word_of(block: &[u8], i: usize) -> u32
    requires { 4 * i + 4 ≤ length block.now }
    ensures { result ≡ word_at block.now (4 * i) }
{
    u32::from_be_bytes([
        block[4 * i],
        block[4 * i + 1],
        block[4 * i + 2],
        block[4 * i + 3],
    ])
}

// Word `i` of each of four blocks.
#[inline(always)]
fn words_of(a: &[u8], b: &[u8], c: &[u8], d: &[u8], i: usize) -> u32x4
    requires lengths { HaveLength 64 a.now b.now c.now d.now }
    requires place { i < 16 }
    ensures { (j : ℕ) → j < 4
        → slice_index result j ≡ word_at (one_of a.now b.now c.now d.now j) (4 * i) }
{
    u32x4::from_array([word_of(a, i), word_of(b, i), word_of(c, i), word_of(d, i)])
}

// The sixteen words of each of four blocks.
#[inline(always)]
pub(crate) fn load(a: &[u8], b: &[u8], c: &[u8], d: &[u8]) -> [u32x4; 16]
    requires { HaveLength 64 a.now b.now c.now d.now }
    ensures { (j : ℕ) → j < 4
        → IsWindow (lane result j) (schedule (one_of a.now b.now c.now d.now j) 48) 16 }
{
    let mut w = [u32x4::splat(0); 16];
    'words: for i in 0..16usize {
        w[i] = words_of(a, b, c, d, i);
    }
    w
}
