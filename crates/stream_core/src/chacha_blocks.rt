//! The block function of ChaCha20 (RFC 8439, 2.3), on four blocks at a time.

ghost use Rattle.std.specs.Prelude.{◌≡◌, ℕ, ◌+◌, ◌*◌, ◌/◌, ◌%◌, ◌^◌, ◌<◌, ◌≤◌, slice_index};
ghost use Rattle.stream_core.specs.ChaCha20.{half_round, column_round, diagonal_round, double_rounds, chacha_state, chacha_word};
ghost use Rattle.stream_core.specs.Lanes.{lane, lane_word, IsTurn, AreTurns};

use crate::lanes::{add, rotate, sums, turned, word_at, xor};
use std::simd::{u8x16, u32x4};

// Four words of each of four blocks.
type Words = (u32x4, u32x4, u32x4, u32x4);

// Halves of two quarter rounds, which rotate by `k` and then by `m`. Their steps are side by
// side, since neither waits for the other.
#[inline(always)]
fn half_rounds(k: u32, m: u32, turn: u8x16, p: Words, q: Words) -> (Words, Words)
    requires first { IsTurn k turn }
    requires second { (0 < m) × (m < 32) }
    ensures one { (j : ℕ) → j < 4
        → (
          slice_index result.0.0 j,
          slice_index result.0.1 j,
          slice_index result.0.2 j,
          slice_index
              result.0.3 j,
        )
        ≡ half_round k m (slice_index p.0 j) (slice_index p.1 j) (slice_index p.2 j)
        (slice_index p.3 j) }
    ensures two { (j : ℕ) → j < 4
        → (
          slice_index result.1.0 j,
          slice_index result.1.1 j,
          slice_index result.1.2 j,
          slice_index
              result.1.3 j,
        )
        ≡ half_round k m (slice_index q.0 j) (slice_index q.1 j) (slice_index q.2 j)
        (slice_index q.3 j) }
{
    let (a, b, c, d) = p;
    let (e, f, g, h) = q;
    let a1 = add(a, b);
    let e1 = add(e, f);
    let d1 = turned(xor(d, a1), k, turn);
    let h1 = turned(xor(h, e1), k, turn);
    let c1 = add(c, d1);
    let g1 = add(g, h1);
    let b1 = rotate(xor(b, c1), m);
    let f1 = rotate(xor(f, g1), m);
    ((a1, b1, c1, d1), (e1, f1, g1, h1))
}

// The four quarter rounds of a round are half beside half.
#[inline(always)]
#[tactic(auto, unfolding(crate::specs::Lanes::AreTurns))]
fn column_round(by_16: u8x16, by_8: u8x16, s: [u32x4; 16]) -> [u32x4; 16]
    requires { AreTurns by_16 by_8 }
    ensures { (j : ℕ) → j < 4 → lane result j ≡ column_round (lane s j) }
{
    let [
        s0,
        s1,
        s2,
        s3,
        s4,
        s5,
        s6,
        s7,
        s8,
        s9,
        s10,
        s11,
        s12,
        s13,
        s14,
        s15,
    ] = s;
    let (p0, p1) = half_rounds(16, 12, by_16, (s0, s4, s8, s12), (s1, s5, s9, s13));
    let (p2, p3) = half_rounds(16, 12, by_16, (s2, s6, s10, s14), (s3, s7, s11, s15));
    let (p0, p1) = half_rounds(8, 7, by_8, p0, p1);
    let (p2, p3) = half_rounds(8, 7, by_8, p2, p3);
    let (s0, s4, s8, s12) = p0;
    let (s1, s5, s9, s13) = p1;
    let (s2, s6, s10, s14) = p2;
    let (s3, s7, s11, s15) = p3;
    [
        s0, s1, s2, s3, s4, s5, s6, s7, s8, s9, s10, s11, s12, s13, s14, s15,
    ]
}

#[inline(always)]
#[tactic(auto, unfolding(crate::specs::Lanes::AreTurns))]
fn diagonal_round(by_16: u8x16, by_8: u8x16, s: [u32x4; 16]) -> [u32x4; 16]
    requires { AreTurns by_16 by_8 }
    ensures { (j : ℕ) → j < 4 → lane result j ≡ diagonal_round (lane s j) }
{
    let [
        s0,
        s1,
        s2,
        s3,
        s4,
        s5,
        s6,
        s7,
        s8,
        s9,
        s10,
        s11,
        s12,
        s13,
        s14,
        s15,
    ] = s;
    let (p0, p1) = half_rounds(16, 12, by_16, (s0, s5, s10, s15), (s1, s6, s11, s12));
    let (p2, p3) = half_rounds(16, 12, by_16, (s2, s7, s8, s13), (s3, s4, s9, s14));
    let (p0, p1) = half_rounds(8, 7, by_8, p0, p1);
    let (p2, p3) = half_rounds(8, 7, by_8, p2, p3);
    let (s0, s5, s10, s15) = p0;
    let (s1, s6, s11, s12) = p1;
    let (s2, s7, s8, s13) = p2;
    let (s3, s4, s9, s14) = p3;
    [
        s0, s1, s2, s3, s4, s5, s6, s7, s8, s9, s10, s11, s12, s13, s14, s15,
    ]
}

#[inline(always)]
fn initial_states(key: &[u8; 32], nonce: &[u8; 12], counter: u32) -> [u32x4; 16]
    requires { counter + 4 ≤ 2 ^ 32 }
    ensures { (j : ℕ) → j < 4 → lane result j ≡ chacha_state key.now nonce.now (counter + j) }
{
    [
        u32x4::splat(0x6170_7865),
        u32x4::splat(0x3320_646e),
        u32x4::splat(0x7962_2d32),
        u32x4::splat(0x6b20_6574),
        u32x4::splat(word_at(key, 0)),
        u32x4::splat(word_at(key, 1)),
        u32x4::splat(word_at(key, 2)),
        u32x4::splat(word_at(key, 3)),
        u32x4::splat(word_at(key, 4)),
        u32x4::splat(word_at(key, 5)),
        u32x4::splat(word_at(key, 6)),
        u32x4::splat(word_at(key, 7)),
        u32x4::from_array([counter, counter + 1, counter + 2, counter + 3]),
        u32x4::splat(word_at(nonce, 0)),
        u32x4::splat(word_at(nonce, 1)),
        u32x4::splat(word_at(nonce, 2)),
    ]
}

// The words of the four blocks from number `counter` on.
pub(crate) fn four_blocks(
    by_16: u8x16,
    by_8: u8x16,
    key: &[u8; 32],
    nonce: &[u8; 12],
    counter: u32,
) -> [u32x4; 16]
    requires turns { AreTurns by_16 by_8 }
    requires limit { counter + 4 ≤ 2 ^ 32 }
    ensures { (j i : ℕ) → j < 4 → i < 16 → lane_word result j i
        ≡ chacha_word key.now nonce.now (counter + j) i }
{
    let first = initial_states(key, nonce, counter);
    let mut states = first;
    'rounds: for n in 0..10usize {
        states = diagonal_round(by_16, by_8, column_round(by_16, by_8, states));
    }
    sums(&states, &first)
}
