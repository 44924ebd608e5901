//! BLAKE2b without a key (RFC 7693).

ghost use Rattle.std.specs.Prelude.{◌≡◌, ℕ, ◌+◌, ◌*◌, ◌%◌, ◌/◌, ◌^◌, ◌<◌, ◌≤◌, ◌++◌, List, [], length, replicate, take};
ghost use Rattle.argon_core.specs.Words.{words, bytes_of};
ghost use Rattle.argon_core.specs.Blake2b.{mix, column_step, diagonal_step, rounds, compress, initial_state, local_vector, blake2b};

use crate::words::{load_words, store_words};
use secret_core::Key64;

const BLOCK_LEN: usize = 128;

const STATE_LEN: usize = 64;

const INITIALIZATION_VECTOR: [u64; 8] = [
    0x6a09_e667_f3bc_c908,
    0xbb67_ae85_84ca_a73b,
    0x3c6e_f372_fe94_f82b,
    0xa54f_f53a_5f1d_36f1,
    0x510e_527f_ade6_82d1,
    0x9b05_688c_2b3e_6c1f,
    0x1f83_d9ab_fb41_bd6b,
    0x5be0_cd19_137e_2179,
];

// The mixing function G.
#[inline(always)]
#[tactic(auto, unfolding(crate::specs::Blake2b::mix))]
fn mix(a: u64, b: u64, c: u64, d: u64, x: u64, y: u64) -> (u64, u64, u64, u64)
    ensures { result ≡ mix a b c d x y }
{
    let a1 = a.wrapping_add(b).wrapping_add(x);
    let d1 = (d ^ a1).rotate_right(32);
    let c1 = c.wrapping_add(d1);
    let b1 = (b ^ c1).rotate_right(24);
    let a2 = a1.wrapping_add(b1).wrapping_add(y);
    let d2 = (d1 ^ a2).rotate_right(16);
    let c2 = c1.wrapping_add(d2);
    let b2 = (b1 ^ c2).rotate_right(63);
    (a2, b2, c2, d2)
}

#[inline(always)]
fn column_step(s: [u64; 16], v: [u64; 16]) -> [u64; 16]
    ensures { result ≡ column_step s v }
{
    let [s0, s1, s2, s3, s4, s5, s6, s7, ..] = s;
    let [
        v0,
        v1,
        v2,
        v3,
        v4,
        v5,
        v6,
        v7,
        v8,
        v9,
        v10,
        v11,
        v12,
        v13,
        v14,
        v15,
    ] = v;
    let (v0, v4, v8, v12) = mix(v0, v4, v8, v12, s0, s1);
    let (v1, v5, v9, v13) = mix(v1, v5, v9, v13, s2, s3);
    let (v2, v6, v10, v14) = mix(v2, v6, v10, v14, s4, s5);
    let (v3, v7, v11, v15) = mix(v3, v7, v11, v15, s6, s7);
    [
        v0, v1, v2, v3, v4, v5, v6, v7, v8, v9, v10, v11, v12, v13, v14, v15,
    ]
}

#[inline(always)]
fn diagonal_step(s: [u64; 16], v: [u64; 16]) -> [u64; 16]
    ensures { result ≡ diagonal_step s v }
{
    let [.., s8, s9, s10, s11, s12, s13, s14, s15] = s;
    let [
        v0,
        v1,
        v2,
        v3,
        v4,
        v5,
        v6,
        v7,
        v8,
        v9,
        v10,
        v11,
        v12,
        v13,
        v14,
        v15,
    ] = v;
    let (v0, v5, v10, v15) = mix(v0, v5, v10, v15, s8, s9);
    let (v1, v6, v11, v12) = mix(v1, v6, v11, v12, s10, s11);
    let (v2, v7, v8, v13) = mix(v2, v7, v8, v13, s12, s13);
    let (v3, v4, v9, v14) = mix(v3, v4, v9, v14, s14, s15);
    [
        v0, v1, v2, v3, v4, v5, v6, v7, v8, v9, v10, v11, v12, v13, v14, v15,
    ]
}

// One round, with the message words in its order.
#[inline(always)]
fn round(v: [u64; 16], s: [u64; 16]) -> [u64; 16]
    ensures { result ≡ diagonal_step s (column_step s v) }
{
    diagonal_step(s, column_step(s, v))
}

// A round on `v` with these message words.
macro_rules! round_with {
    ($v:ident: $($word:ident)*) => {
        round($v, [$($word),*])
    };
}

// The twelve rounds, each with its row of the message schedule.
fn rounds(message: [u64; 16], v: [u64; 16]) -> [u64; 16]
    ensures { result ≡ rounds message 12 v }
{
    let [
        m0,
        m1,
        m2,
        m3,
        m4,
        m5,
        m6,
        m7,
        m8,
        m9,
        m10,
        m11,
        m12,
        m13,
        m14,
        m15,
    ] = message;
    let v = round_with!(v: m0 m1 m2 m3 m4 m5 m6 m7 m8 m9 m10 m11 m12 m13 m14 m15);
    let v = round_with!(v: m14 m10 m4 m8 m9 m15 m13 m6 m1 m12 m0 m2 m11 m7 m5 m3);
    let v = round_with!(v: m11 m8 m12 m0 m5 m2 m15 m13 m10 m14 m3 m6 m7 m1 m9 m4);
    let v = round_with!(v: m7 m9 m3 m1 m13 m12 m11 m14 m2 m6 m5 m10 m4 m0 m15 m8);
    let v = round_with!(v: m9 m0 m5 m7 m2 m4 m10 m15 m14 m1 m11 m12 m6 m8 m3 m13);
    let v = round_with!(v: m2 m12 m6 m10 m0 m11 m8 m3 m4 m13 m7 m5 m15 m14 m1 m9);
    let v = round_with!(v: m12 m5 m1 m15 m14 m13 m4 m10 m0 m7 m6 m3 m9 m2 m8 m11);
    let v = round_with!(v: m13 m11 m7 m14 m12 m1 m3 m9 m5 m0 m15 m4 m8 m6 m2 m10);
    let v = round_with!(v: m6 m15 m14 m9 m11 m3 m0 m8 m12 m2 m13 m7 m1 m4 m10 m5);
    let v = round_with!(v: m10 m2 m8 m4 m7 m6 m1 m5 m15 m11 m9 m14 m3 m12 m13 m0);
    let v = round_with!(v: m0 m1 m2 m3 m4 m5 m6 m7 m8 m9 m10 m11 m12 m13 m14 m15);
    round_with!(v: m14 m10 m4 m8 m9 m15 m13 m6 m1 m12 m0 m2 m11 m7 m5 m3)
}

// The local vector of a block: the state, and the initialization vector with the count of bytes so
// far and the flag of the last block in it.
fn local_vector(state: [u64; 8], count: u128, is_last: bool) -> [u64; 16]
    ensures { result ≡ local_vector state count is_last }
{
    let low = (count & 0xffff_ffff_ffff_ffff) as u64;
    let high = (count >> 64) as u64;
    let [h0, h1, h2, h3, h4, h5, h6, h7] = state;
    let [i0, i1, i2, i3, i4, i5, i6, i7] = INITIALIZATION_VECTOR;
    let i6 = if is_last { i6 ^ u64::MAX } else { i6 };
    [
        h0,
        h1,
        h2,
        h3,
        h4,
        h5,
        h6,
        h7,
        i0,
        i1,
        i2,
        i3,
        i4 ^ low,
        i5 ^ high,
        i6,
        i7,
    ]
}

// The compression function F on one block, with the count of bytes up to its end.
#[tactic(auto, unfolding(crate::specs::Blake2b::compress))]
fn compress(state: [u64; 8], block: &[u8; 128], count: u128, is_last: bool) -> [u64; 8]
    ensures { result ≡ compress state (words 16 block.now) count is_last }
{
    let mut message = [0; 16];
    load_words(&mut message, block);
    let v = rounds(message, local_vector(state, count, is_last));
    let [h0, h1, h2, h3, h4, h5, h6, h7] = state;
    let [
        v0,
        v1,
        v2,
        v3,
        v4,
        v5,
        v6,
        v7,
        v8,
        v9,
        v10,
        v11,
        v12,
        v13,
        v14,
        v15,
    ] = v;
    [
        h0 ^ v0 ^ v8,
        h1 ^ v1 ^ v9,
        h2 ^ v2 ^ v10,
        h3 ^ v3 ^ v11,
        h4 ^ v4 ^ v12,
        h5 ^ v5 ^ v13,
        h6 ^ v6 ^ v14,
        h7 ^ v7 ^ v15,
    ]
}

// A digest in the making: the state after the blocks so far, and the bytes of the block that may be
// the last. Both may be of a password or a key, so a hasher must be spent, by `finish`.
pub(crate) struct Hasher {
    state: [u64; 8],
    buffer: [u8; BLOCK_LEN],
    filled: usize,
    // How many bytes the state has taken in.
    absorbed: u128,
    ghost within: { filled ≤ 128 },
}

impl Hasher {
    ghost use Rattle.argon_core.specs.Hasher.{HasAbsorbed, HasAbsorbedFrom};

    // A hasher of the empty message, for a digest of `size` bytes.
    pub(crate) fn new(size: usize) -> Hasher
        requires { size ≤ 64 }
        ensures holds { HasAbsorbed size result [] }
        ensures empty { result.absorbed + result.filled ≡ 0 }
    {
        let [i0, i1, i2, i3, i4, i5, i6, i7] = INITIALIZATION_VECTOR;
        Hasher {
            state: [i0 ^ 0x0101_0000 ^ size as u64, i1, i2, i3, i4, i5, i6, i7],
            buffer: [0; BLOCK_LEN],
            filled: 0,
            absorbed: 0,
        }
    }

    // Puts a full buffer, which more bytes follow, into the state.
    fn make_room(&mut self)
        requires { self.old.absorbed + 128 < 2 ^ 128 }
        ensures some { self.new.filled < 128 }
        ensures total { self.new.absorbed + self.new.filled ≡ self.old.absorbed + self.old.filled }
        ensures holds { (size : ℕ) (message : List ℕ) → HasAbsorbed size self.old message
            → HasAbsorbedFrom size self.new message (self.new.absorbed / 128) }
    {
        if self.filled == BLOCK_LEN {
            self.absorbed += 128;
            self.state = compress(self.state, &self.buffer, self.absorbed, false);
            self.filled = 0;
        }
    }

    // Takes in what the current block has room for, and says how much that is.
    fn take_in(&mut self, piece: &[u8]) -> usize
        requires some { 0 < length piece.now }
        requires fits { self.old.absorbed + self.old.filled + length piece.now < 2 ^ 127 }
        ensures progress { (0 < result) × (result ≤ length piece.now) }
        ensures total { self.new.absorbed + self.new.filled
            ≡ self.old.absorbed + self.old.filled + result }
        ensures holds { (size : ℕ) (message : List ℕ) → HasAbsorbed size self.old message
            → HasAbsorbed size self.new (message ++ take result piece.now) }
    {
        self.make_room();
        let count = piece.len().min(BLOCK_LEN - self.filled);
        let filled = self.filled;
        self.buffer[filled..filled + count].copy_from_slice(&piece[..count]);
        self.filled = filled + count;
        count
    }

    // Adds `piece` to the message.
    pub(crate) fn update(&mut self, piece: &[u8])
        requires { self.old.absorbed + self.old.filled + length piece.now < 2 ^ 127 }
        ensures total { self.new.absorbed + self.new.filled
            ≡ self.old.absorbed + self.old.filled + length piece.now }
        ensures holds { (size : ℕ) (message : List ℕ) → HasAbsorbed size self.old message
            → HasAbsorbed size self.new (message ++ piece.now) }
    {
        let mut done = 0;
        'pieces: while done < piece.len() {
            done += self.take_in(&piece[done..]);
        }
    }

    // Zeroes the state and the buffer.
    fn clear(&mut self)
        ensures state { self.new.state ≡ replicate 8 0 }
        ensures buffer { self.new.buffer ≡ replicate 128 0 }
    {
        self.state = [0; 8];
        self.buffer = [0; BLOCK_LEN];
    }

    // Gives up a hasher that is zero.
    fn release(self)
        requires state { self.state ≡ replicate 8 0 }
        requires buffer { self.buffer ≡ replicate 128 0 }
    {
        let Hasher {
            state: _,
            buffer: _,
            filled: _,
            absorbed: _,
        } = self;
    }

    // Writes the digest of the message, for whose length the hasher was begun.
    pub(crate) fn finish(mut self, out: &mut [u8])
        requires size { length out.old ≤ 64 }
        requires fits { self.absorbed + self.filled < 2 ^ 128 }
        ensures { (message : List ℕ) → HasAbsorbed (length out.old) self message
            → out.new ≡ blake2b (length out.old) message }
    {
        let filled = self.filled;
        self.buffer[filled..].fill(0);
        let count = self.absorbed + filled as u128;
        self.state = compress(self.state, &self.buffer, count, true);
        let mut digest = bytes_of(&self.state);
        out.copy_from_slice(&digest.bytes()[..out.len()]);
        digest.clear();
        digest.release();
        self.clear();
        self.release();
    }
}

// The bytes of a state.
fn bytes_of(state: &[u64; 8]) -> Key64
    ensures { result ≡ bytes_of state.now }
{
    let mut digest = Key64::of(&[0; STATE_LEN]);
    store_words(digest.bytes_mut(), state);
    digest
}

/// Writes the BLAKE2b digest (RFC 7693) of `first` followed by `second`, without a key. The digest
/// is as long as `out`, which has 1 to 64 bytes.
pub fn blake2b(out: &mut [u8], first: &[u8], second: &[u8])
    requires some { 1 ≤ length out.old }
    requires few { length out.old ≤ 64 }
    ensures { out.new ≡ blake2b (length out.old) (first.now ++ second.now) }
{
    let mut hasher = Hasher::new(out.len());
    hasher.update(first);
    hasher.update(second);
    hasher.finish(out);
}
