//! The last blocks of four messages, which end with the padding (FIPS 180-4, 5.1.1).

ghost use Rattle.std.specs.Prelude.{◌≡◌, ℕ, ◌+◌, ◌-◌, ◌/◌, ◌%◌, ◌<◌, ◌≤◌, ◌++◌, ◌∷◌, length, replicate, take};
ghost use Rattle.std.specs.Int.{w64, to_be_bytes};
ghost use Rattle.sha2.specs.Sha256.{hash_after};
ghost use Rattle.sha_lanes.specs.Hashing.{last_blocks};
ghost use Rattle.sha_lanes.specs.Lanes.{HaveLength, one_of, state_lane};

use crate::blocks::compress_all;
use crate::steps::State;

// Writes the bytes at a place.
fn put(out: &mut [u8; 128], at: usize, bytes: &[u8])
    requires { at + length bytes.now ≤ 128 }
    ensures { take (at + length bytes.now) out.new ≡ take at out.old ++ bytes.now }
{
    out[at..at + bytes.len()].copy_from_slice(bytes);
}

// The last bytes of a message of so many bits and its padding, whose length field begins at `at`.
// The bytes after that field are no part of it.
fn padded(tail: &[u8], at: usize, bits: u64) -> [u8; 128]
    requires first { length tail.now < at }
    requires short { at ≤ length tail.now + 64 }
    requires within { at ≤ 120 }
    ensures { take (at + 8) result ≡ (tail.now ++ 0x80 ∷ replicate (at - length tail.now - 1) 0)
        ++ to_be_bytes w64 bits }
{
    let mut padding = [0; 64];
    padding[0] = 0x80;
    let mut out = [0; 128];
    put(&mut out, 0, tail);
    put(&mut out, tail.len(), &padding[..at - tail.len()]);
    put(&mut out, at, &bits.to_be_bytes());
    out
}

// Where the length field begins after so many bytes, which are less than a block.
fn field_place(used: usize) -> usize
    requires { used < 64 }
    ensures first { used < result }
    ensures short { result ≡ used + (119 - used) % 64 + 1 }
    ensures within { result ≤ 120 }
    ensures blocks { (result + 8) % 64 ≡ 0 }
{
    if used < 56 { 56 } else { 120 }
}

// The hash values after the last bytes of the messages, which have so many bits, and their padding.
pub(crate) fn compress_last(states: &mut State, a: &[u8], b: &[u8], c: &[u8], d: &[u8], bits: u64)
    requires lengths { HaveLength (length a.now) a.now b.now c.now d.now }
    requires short { length a.now < 64 }
    ensures { (j : ℕ) → j < 4 → state_lane states.new j ≡ hash_after (state_lane states.old j)
        (last_blocks (one_of a.now b.now c.now d.now j) bits)
        (length (last_blocks (one_of a.now b.now c.now d.now j) bits) / 64) }
{
    let at = field_place(a.len());
    let end = at + 8;
    let a = padded(a, at, bits);
    let b = padded(b, at, bits);
    let c = padded(c, at, bits);
    let d = padded(d, at, bits);
    compress_all(states, &a[..end], &b[..end], &c[..end], &d[..end]);
}
