//! The block function of Salsa20/20 (Bernstein, "Salsa20 specification"), on four blocks at a time.

ghost use Rattle.std.specs.Prelude.{◌≡◌, ℕ, ◌+◌, ◌*◌, ◌/◌, ◌%◌, ◌^◌, ◌<◌, ◌≤◌, slice_index};
ghost use Rattle.stream_core.specs.Salsa20.{quarter_round, column_round, row_round, double_rounds, salsa_state, salsa_word};
ghost use Rattle.stream_core.specs.Lanes.{lane, lane_word};

use crate::lanes::{add, rotate, sums, word_at, xor};
use std::simd::u32x4;

#[inline(always)]
fn quarter_round(a: u32x4, b: u32x4, c: u32x4, d: u32x4) -> (u32x4, u32x4, u32x4, u32x4)
    ensures { (j : ℕ) → j < 4
        → (
          slice_index result.0 j,
          slice_index result.1 j,
          slice_index result.2 j,
          slice_index
              result.3 j,
        )
        ≡ quarter_round (slice_index a j) (slice_index b j) (slice_index c j) (slice_index d j) }
{
    let b1 = xor(b, rotate(add(a, d), 7));
    let c1 = xor(c, rotate(add(b1, a), 9));
    let d1 = xor(d, rotate(add(c1, b1), 13));
    let a1 = xor(a, rotate(add(d1, c1), 18));
    (a1, b1, c1, d1)
}

#[inline(always)]
fn column_round(s: [u32x4; 16]) -> [u32x4; 16]
    ensures { (j : ℕ) → j < 4 → lane result j ≡ column_round (lane s j) }
{
    let [
        s0,
        s1,
        s2,
        s3,
        s4,
        s5,
        s6,
        s7,
        s8,
        s9,
        s10,
        s11,
        s12,
        s13,
        s14,
        s15,
    ] = s;
    let (s0, s4, s8, s12) = quarter_round(s0, s4, s8, s12);
    let (s5, s9, s13, s1) = quarter_round(s5, s9, s13, s1);
    let (s10, s14, s2, s6) = quarter_round(s10, s14, s2, s6);
    let (s15, s3, s7, s11) = quarter_round(s15, s3, s7, s11);
    [
        s0, s1, s2, s3, s4, s5, s6, s7, s8, s9, s10, s11, s12, s13, s14, s15,
    ]
}

#[inline(always)]
fn row_round(s: [u32x4; 16]) -> [u32x4; 16]
    ensures { (j : ℕ) → j < 4 → lane result j ≡ row_round (lane s j) }
{
    let [
        s0,
        s1,
        s2,
        s3,
        s4,
        s5,
        s6,
        s7,
        s8,
        s9,
        s10,
        s11,
        s12,
        s13,
        s14,
        s15,
    ] = s;
    let (s0, s1, s2, s3) = quarter_round(s0, s1, s2, s3);
    let (s5, s6, s7, s4) = quarter_round(s5, s6, s7, s4);
    let (s10, s11, s8, s9) = quarter_round(s10, s11, s8, s9);
    let (s15, s12, s13, s14) = quarter_round(s15, s12, s13, s14);
    [
        s0, s1, s2, s3, s4, s5, s6, s7, s8, s9, s10, s11, s12, s13, s14, s15,
    ]
}

#[inline(always)]
fn low(x: u64) -> u32
    ensures { result ≡ x % 2 ^ 32 }
{
    (x & 0xffff_ffff) as u32
}

#[inline(always)]
fn high(x: u64) -> u32
    ensures { result ≡ x / 2 ^ 32 }
{
    (x >> 32) as u32
}

#[inline(always)]
fn initial_states(key: &[u8; 32], nonce: &[u8; 8], counter: u64) -> [u32x4; 16]
    requires { counter + 4 ≤ 2 ^ 64 }
    ensures { (j : ℕ) → j < 4 → lane result j ≡ salsa_state key.now nonce.now (counter + j) }
{
    let c1 = counter + 1;
    let c2 = counter + 2;
    let c3 = counter + 3;
    [
        u32x4::splat(0x6170_7865),
        u32x4::splat(word_at(key, 0)),
        u32x4::splat(word_at(key, 1)),
        u32x4::splat(word_at(key, 2)),
        u32x4::splat(word_at(key, 3)),
        u32x4::splat(0x3320_646e),
        u32x4::splat(word_at(nonce, 0)),
        u32x4::splat(word_at(nonce, 1)),
        u32x4::from_array([low(counter), low(c1), low(c2), low(c3)]),
        u32x4::from_array([high(counter), high(c1), high(c2), high(c3)]),
        u32x4::splat(0x7962_2d32),
        u32x4::splat(word_at(key, 4)),
        u32x4::splat(word_at(key, 5)),
        u32x4::splat(word_at(key, 6)),
        u32x4::splat(word_at(key, 7)),
        u32x4::splat(0x6b20_6574),
    ]
}

// The words of the four blocks from number `counter` on.
pub(crate) fn four_blocks(key: &[u8; 32], nonce: &[u8; 8], counter: u64) -> [u32x4; 16]
    requires { counter + 4 ≤ 2 ^ 64 }
    ensures { (j i : ℕ) → j < 4 → i < 16 → lane_word result j i
        ≡ salsa_word key.now nonce.now (counter + j) i }
{
    let first = initial_states(key, nonce, counter);
    let mut states = first;
    'rounds: for n in 0..10usize {
        states = row_round(column_round(states));
    }
    sums(&states, &first)
}
