//! The MACs of four blocks of a KDBX 4 file whose contents are of one length, side by side.

ghost use Rattle.std.specs.Prelude.{◌≡◌, ℕ, ◌+◌, ◌<◌, ◌≤◌, ◌^◌, List, [], ◌++◌, length, map, bit_xor, slice_index_or};
ghost use Rattle.mac_core.specs.Blocks.{block_key, mac_of};
ghost use Rattle.mac_core.specs.FourMacs.{first_bytes};
ghost use Rattle.sha_lanes.specs.Hashing.{HasTaken};
ghost use Rattle.sha_lanes.specs.Lanes.{HaveLength, one_of};

use crate::block_key;
use crate::hmac::{INNER, OUTER, pad};
use secret_core::Key64;
use sha_lanes::{States, finish, first_states, take_blocks};

/// How many bytes of a content are hashed beside the block's index and size.
pub const FIRST: usize = 52;

// The key of a block with each byte XORed with this one.
fn padded_key(base: &[u8; 64], index: u64, byte: u8) -> Key64
    ensures { result ≡ map (λ b. bit_xor b byte) (block_key base.now index) }
{
    let mut key = block_key(base, index);
    pad(key.bytes_mut(), byte);
    key
}

// Hashes the keys of four blocks, the first of which has this index, with each byte XORed.
fn take_pads(states: &mut States, base: &[u8; 64], index: u64, byte: u8)
    requires { index + 4 ≤ 2 ^ 64 }
    ensures { (j : ℕ) (message : List ℕ) → j < 4 → HasTaken states.old j message
        → HasTaken states.new j
        (message ++ map (λ b. bit_xor b byte) (block_key base.now (index + j))) }
{
    let mut a = padded_key(base, index, byte);
    let mut b = padded_key(base, index + 1, byte);
    let mut c = padded_key(base, index + 2, byte);
    let mut d = padded_key(base, index + 3, byte);
    take_blocks(states, a.bytes(), b.bytes(), c.bytes(), d.bytes());
    a.clear();
    a.release();
    b.clear();
    b.release();
    c.clear();
    c.release();
    d.clear();
    d.release();
}

// The first 64 bytes of what has a block's MAC: its index, its size and the content's first bytes.
fn first_bytes(index: u64, content: &[u8]) -> [u8; 64]
    requires long { 52 ≤ length content.now }
    requires short { length content.now < 2 ^ 32 }
    ensures { result ≡ first_bytes index content.now }
{
    let mut first = [0; 64];
    first[..8].copy_from_slice(&index.to_le_bytes());
    first[8..12].copy_from_slice(&(content.len() as u32).to_le_bytes());
    first[12..].copy_from_slice(&content[..FIRST]);
    first
}

// Hashes the first 64 bytes of what has the MACs of four blocks.
fn take_first(states: &mut States, index: u64, a: &[u8], b: &[u8], c: &[u8], d: &[u8])
    requires index { index + 4 ≤ 2 ^ 64 }
    requires lengths { HaveLength (length a.now) a.now b.now c.now d.now }
    requires long { 52 ≤ length a.now }
    requires short { length a.now < 2 ^ 32 }
    ensures { (j : ℕ) (message : List ℕ) → j < 4 → HasTaken states.old j message
        → HasTaken states.new j
        (message ++ first_bytes (index + j) (one_of a.now b.now c.now d.now j)) }
{
    let first = first_bytes(index, a);
    let second = first_bytes(index + 1, b);
    let third = first_bytes(index + 2, c);
    let fourth = first_bytes(index + 3, d);
    take_blocks(states, &first, &second, &third, &fourth);
}

/// The MACs of four blocks with these contents, which are of one length; the first block has this
/// index.
pub fn four_macs(
    base: &[u8; 64],
    index: u64,
    a: &[u8],
    b: &[u8],
    c: &[u8],
    d: &[u8],
) -> [[u8; 32]; 4]
    requires index { index + 4 ≤ 2 ^ 64 }
    requires lengths { HaveLength (length a.now) a.now b.now c.now d.now }
    requires long { 52 ≤ length a.now }
    requires short { length a.now < 2 ^ 32 }
    ensures { (j : ℕ) → j < 4 → slice_index_or result j []
        ≡ mac_of base.now (index + j) (one_of a.now b.now c.now d.now j) }
{
    let mut inner = first_states();
    take_pads(&mut inner, base, index, INNER);
    take_first(&mut inner, index, a, b, c, d);
    let found = finish(
        inner,
        128,
        &a[FIRST..],
        &b[FIRST..],
        &c[FIRST..],
        &d[FIRST..],
    );
    let mut outer = first_states();
    take_pads(&mut outer, base, index, OUTER);
    finish(outer, 64, &found[0], &found[1], &found[2], &found[3])
}
