//! The digests of four hash values.

ghost use Rattle.std.specs.Prelude.{◌≡◌, ℕ, ◌<◌, [], slice_index_or};
ghost use Rattle.sha2.specs.Sha256.{digest_bytes};
ghost use Rattle.sha_lanes.specs.Lanes.{state_lane};

use crate::steps::State;

// The digest of one hash value, high bytes first.
fn digest_of(states: &State, j: usize) -> [u8; 32]
    requires { j < 4 }
    ensures { result ≡ digest_bytes (state_lane states.now j) 8 }
{
    let mut out = [0; 32];
    'words: for i in 0..8usize {
        let word = states[i].to_array()[j];
        out[4 * i..4 * i + 4].copy_from_slice(&word.to_be_bytes());
    }
    out
}

// The digests of the four hash values.
pub(crate) fn digests(states: &State) -> [[u8; 32]; 4]
    ensures { (j : ℕ) → j < 4
        → slice_index_or result j [] ≡ digest_bytes (state_lane states.now j) 8 }
{
    [
        digest_of(states, 0),
        digest_of(states, 1),
        digest_of(states, 2),
        digest_of(states, 3),
    ]
}
