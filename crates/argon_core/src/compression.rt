//! The compression function G of Argon2 (RFC 9106, 3.5 and 3.6).

ghost use Rattle.std.specs.Prelude.{◌≡◌, ◌≢◌, ℕ, ◌+◌, ◌*◌, ◌/◌, ◌%◌, ◌<◌, [], ◌∷◌, bit_xor, slice_index};
ghost use Rattle.argon_core.specs.Pairs.{IsTurn, words_of};
ghost use Rattle.argon_core.specs.Compression.{mix_product, mixed_columns, mixed_diagonals, permutation, row, column, permuted_rows, permuted_columns, xor_blocks, compression};

use crate::pairs::{Turns, high_and_low, multiply_add, turned, turned_by_63, words_of, xor};
use std::simd::u64x2;

/// A block of 1,024 bytes, as words.
pub(crate) type Block = [u64; 128];

pub(crate) const LOW_HALF: u64 = 0xffff_ffff;

// Four registers, one of each row of a square.
type Registers = (u64x2, u64x2, u64x2, u64x2);

// The function GB on each of two columns of words.
#[inline(always)]
fn mix_products(turns: &Turns, q: Registers) -> Registers
    requires by_32 { IsTurn 32 turns.now.by_32 }
    requires by_24 { IsTurn 24 turns.now.by_24 }
    requires by_16 { IsTurn 16 turns.now.by_16 }
    ensures { (j : ℕ) → j < 2
        → (slice_index result.0 j, slice_index result.1 j, slice_index result.2 j, slice_index result.3 j)
        ≡ mix_product (slice_index q.0 j) (slice_index q.1 j) (slice_index q.2 j)
        (slice_index q.3 j) }
{
    let (a, b, c, d) = q;
    let a1 = multiply_add(a, b);
    let d1 = turned(xor(d, a1), 32, turns.by_32);
    let c1 = multiply_add(c, d1);
    let b1 = turned(xor(b, c1), 24, turns.by_24);
    let a2 = multiply_add(a1, b1);
    let d2 = turned(xor(d1, a2), 16, turns.by_16);
    let c2 = multiply_add(c1, d2);
    let b2 = turned_by_63(xor(b1, c2));
    (a2, b2, c2, d2)
}

#[inline(always)]
fn mix_columns(turns: &Turns, v: [u64x2; 8]) -> [u64x2; 8]
    requires by_32 { IsTurn 32 turns.now.by_32 }
    requires by_24 { IsTurn 24 turns.now.by_24 }
    requires by_16 { IsTurn 16 turns.now.by_16 }
    ensures { words_of result ≡ mixed_columns (words_of v) }
{
    let [a, e, b, f, c, g, d, h] = v;
    let (a, b, c, d) = mix_products(turns, (a, b, c, d));
    let (e, f, g, h) = mix_products(turns, (e, f, g, h));
    [a, e, b, f, c, g, d, h]
}

// The registers of two diagonals are made of halves of neighbours.
#[inline(always)]
fn mix_diagonals(turns: &Turns, v: [u64x2; 8]) -> [u64x2; 8]
    requires by_32 { IsTurn 32 turns.now.by_32 }
    requires by_24 { IsTurn 24 turns.now.by_24 }
    requires by_16 { IsTurn 16 turns.now.by_16 }
    ensures { words_of result ≡ mixed_diagonals (words_of v) }
{
    let [a, e, b, f, c, g, d, h] = v;
    let (a, p, g, s) = mix_products(turns, (a, high_and_low(b, f), g, high_and_low(h, d)));
    let (e, q, c, t) = mix_products(turns, (e, high_and_low(f, b), c, high_and_low(d, h)));
    [
        a,
        e,
        high_and_low(q, p),
        high_and_low(p, q),
        c,
        g,
        high_and_low(s, t),
        high_and_low(t, s),
    ]
}

// The permutation P.
#[inline(always)]
#[tactic(auto, unfolding(crate::specs::Compression::permutation))]
fn permute(turns: &Turns, v: [u64x2; 8]) -> [u64x2; 8]
    requires by_32 { IsTurn 32 turns.now.by_32 }
    requires by_24 { IsTurn 24 turns.now.by_24 }
    requires by_16 { IsTurn 16 turns.now.by_16 }
    ensures { words_of result ≡ permutation (words_of v) }
{
    mix_diagonals(turns, mix_columns(turns, v))
}

// The register of a block whose words begin at `at`.
#[inline(always)]
fn register(block: &Block, at: usize) -> u64x2
    requires { at + 1 < 128 }
    ensures { result ≡ slice_index block.now at ∷ slice_index block.now (at + 1) ∷ [] }
{
    u64x2::from_array([block[at], block[at + 1]])
}

#[inline(always)]
fn row(block: &Block, r: usize) -> [u64x2; 8]
    requires { r < 8 }
    ensures { words_of result ≡ row block.now r }
{
    let at = 16 * r;
    [
        register(block, at),
        register(block, at + 2),
        register(block, at + 4),
        register(block, at + 6),
        register(block, at + 8),
        register(block, at + 10),
        register(block, at + 12),
        register(block, at + 14),
    ]
}

#[inline(always)]
fn put_row(block: &mut Block, r: usize, words: [u64; 16])
    requires { r < 8 }
    ensures here { (k : ℕ) → k < 16 → slice_index block.new (16 * r + k) ≡ slice_index words k }
    ensures others { (i : ℕ) → i / 16 ≢ r → slice_index block.new i ≡ slice_index block.old i }
{
    'words: for k in 0..16usize {
        block[16 * r + k] = words[k];
    }
}

#[inline(always)]
fn column(block: &Block, j: usize) -> [u64x2; 8]
    requires { j < 8 }
    ensures { words_of result ≡ column block.now j }
{
    let at = 2 * j;
    [
        register(block, at),
        register(block, at + 16),
        register(block, at + 32),
        register(block, at + 48),
        register(block, at + 64),
        register(block, at + 80),
        register(block, at + 96),
        register(block, at + 112),
    ]
}

// Mixes words into those of a column, by the exclusive or.
#[inline(always)]
fn xor_column(block: &mut Block, j: usize, words: [u64; 16])
    requires { j < 8 }
    ensures here { (i : ℕ) → i < 128 → i % 16 / 2 ≡ j → slice_index block.new i
        ≡ bit_xor (slice_index block.old i) (slice_index words (2 * (i / 16) + i % 2)) }
    ensures others { (i : ℕ) → i % 16 / 2 ≢ j → slice_index block.new i ≡ slice_index block.old i }
{
    'words: for k in 0..16usize {
        block[16 * (k / 2) + 2 * j + k % 2] ^= words[k];
    }
}

fn permute_rows(turns: &Turns, block: &mut Block)
    requires by_32 { IsTurn 32 turns.now.by_32 }
    requires by_24 { IsTurn 24 turns.now.by_24 }
    requires by_16 { IsTurn 16 turns.now.by_16 }
    ensures { block.new ≡ permuted_rows block.old }
{
    'rows: for r in 0..8usize {
        let words = words_of(permute(turns, row(block, r)));
        put_row(block, r, words);
    }
}

// Mixes the permuted columns of `block` into another block.
fn xor_columns(turns: &Turns, into: &mut Block, block: &Block)
    requires by_32 { IsTurn 32 turns.now.by_32 }
    requires by_24 { IsTurn 24 turns.now.by_24 }
    requires by_16 { IsTurn 16 turns.now.by_16 }
    ensures { into.new ≡ xor_blocks into.old (permuted_columns block.now) }
{
    'columns: for j in 0..8usize {
        let words = words_of(permute(turns, column(block, j)));
        xor_column(into, j, words);
    }
}

// Puts the exclusive or of two blocks in the place of the first.
pub(crate) fn xor_into(block: &mut Block, other: &Block)
    ensures { block.new ≡ xor_blocks block.old other.now }
{
    'words: for i in 0..128usize {
        block[i] ^= other[i];
    }
}

/// Mixes `fresh` into another block once its rows and columns are permuted.
pub(crate) fn xor_permuted(into: &mut Block, fresh: &mut Block)
    ensures { into.new ≡ xor_blocks into.old (permuted_columns (permuted_rows fresh.old)) }
{
    let turns = Turns::new();
    permute_rows(&turns, fresh);
    xor_columns(&turns, into, fresh);
}

/// The function G of two blocks.
pub(crate) fn compress(x: &Block, y: &Block) -> Block
    ensures { result ≡ compression x.now y.now }
{
    let mut fresh = *x;
    xor_into(&mut fresh, y);
    let mut mixed = fresh;
    xor_permuted(&mut mixed, &mut fresh);
    mixed
}
