//! The compression of blocks of four messages.

ghost use Rattle.std.specs.Prelude.{◌≡◌, ℕ, ◌/◌, ◌<◌, length};
ghost use Rattle.sha2.specs.Sha256.{compress, hash_after};
ghost use Rattle.sha_lanes.specs.Lanes.{HaveLength, one_of, state_lane};

use crate::steps::{State, first_steps, sixteen_steps, sums};
use crate::words::load;

/// The length of a block in bytes.
pub(crate) const BLOCK: usize = 64;

// The hash values after one block of each message.
#[inline(never)]
fn compress(states: &mut State, a: &[u8], b: &[u8], c: &[u8], d: &[u8])
    requires { HaveLength 64 a.now b.now c.now d.now }
    ensures { (j : ℕ) → j < 4 → state_lane states.new j
        ≡ compress (state_lane states.old j) (one_of a.now b.now c.now d.now j) }
{
    let mut w = load(a, b, c, d);
    let mut v = first_steps(&w, *states);
    // A loop, since the rounds written one after another would be too long for a processor's
    // fast memory of code.
    'turns: for turn in 1..4usize {
        v = sixteen_steps(&mut w, v, turn);
    }
    *states = sums(states, &v);
}

// The hash values after the whole blocks of each message.
pub(crate) fn compress_all(states: &mut State, a: &[u8], b: &[u8], c: &[u8], d: &[u8])
    requires { HaveLength (length a.now) a.now b.now c.now d.now }
    ensures { (j : ℕ) → j < 4 → state_lane states.new j ≡ hash_after (state_lane states.old j)
        (one_of a.now b.now c.now d.now j) (length a.now / 64) }
{
    'each: for i in 0..a.len() / BLOCK {
        let at = BLOCK * i;
        let end = at + BLOCK;
        compress(states, &a[at..end], &b[at..end], &c[at..end], &d[at..end]);
    }
}
