//! SHA-256 of four messages that come in whole blocks.

ghost use Rattle.std.specs.Prelude.{◌≡◌, ℕ, ◌%◌, ◌^◌, ◌<◌, [], ◌++◌, List, length, slice_index_or};
ghost use Rattle.sha2.specs.Sha256.{sha256};
ghost use Rattle.sha_lanes.specs.Hashing.{HasTaken};
ghost use Rattle.sha_lanes.specs.Lanes.{HaveLength, one_of};

use crate::blocks::{BLOCK, compress_all};
use crate::digests::digests;
use crate::padding::compress_last;
pub use crate::steps::State as States;
use std::simd::u32x4;

/// The hash values of four empty messages, so far (FIPS 180-4, 5.3.3).
pub fn first_states() -> States
    ensures { (j : ℕ) → j < 4 → HasTaken result j [] }
{
    [
        u32x4::splat(0x6a09_e667),
        u32x4::splat(0xbb67_ae85),
        u32x4::splat(0x3c6e_f372),
        u32x4::splat(0xa54f_f53a),
        u32x4::splat(0x510e_527f),
        u32x4::splat(0x9b05_688c),
        u32x4::splat(0x1f83_d9ab),
        u32x4::splat(0x5be0_cd19),
    ]
}

/// Puts whole blocks at the messages' ends.
pub fn take_blocks(states: &mut States, a: &[u8], b: &[u8], c: &[u8], d: &[u8])
    requires lengths { HaveLength (length a.now) a.now b.now c.now d.now }
    requires whole { length a.now % 64 ≡ 0 }
    ensures { (j : ℕ) (message : List ℕ) → j < 4 → HasTaken states.old j message
        → HasTaken states.new j (message ++ one_of a.now b.now c.now d.now j) }
{
    compress_all(states, a, b, c, d);
}

/// The hashes of the messages with these bytes at their ends; so many bytes of each were taken
/// before.
pub fn finish(
    mut states: States,
    taken: u64,
    a: &[u8],
    b: &[u8],
    c: &[u8],
    d: &[u8],
) -> [[u8; 32]; 4]
    requires { HaveLength (length a.now) a.now b.now c.now d.now }
    ensures { (j : ℕ) (message : List ℕ) → j < 4 → HasTaken states j message
        → taken ≡ length message % 2 ^ 64
        → slice_index_or result j [] ≡ sha256 (message ++ one_of a.now b.now c.now d.now j) }
{
    let bits = taken.wrapping_add(a.len() as u64).wrapping_mul(8);
    compress_all(&mut states, a, b, c, d);
    let whole = a.len() / BLOCK * BLOCK;
    compress_last(
        &mut states,
        &a[whole..],
        &b[whole..],
        &c[whole..],
        &d[whole..],
        bits,
    );
    digests(&states)
}
