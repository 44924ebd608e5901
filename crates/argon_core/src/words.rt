//! Words of eight bytes, the low one first.

ghost use Rattle.std.specs.Prelude.{◌≡◌, ℕ, ◌+◌, ◌*◌, ◌≤◌, length};
ghost use Rattle.argon_core.specs.Words.{word_at, words, bytes_of};

// The word whose eight bytes begin at place `i`.
#[tactic(auto, unfolding(crate::specs::Words::word_at))]
fn load_word(bytes: &[u8], i: usize) -> u64
    requires { i + 8 ≤ length bytes.now }
    ensures { result ≡ word_at bytes.now i }
{
    u64::from_le_bytes([
        bytes[i],
        bytes[i + 1],
        bytes[i + 2],
        bytes[i + 3],
        bytes[i + 4],
        bytes[i + 5],
        bytes[i + 6],
        bytes[i + 7],
    ])
}

/// Reads the words of `bytes`, which are eight times as many.
pub(crate) fn load_words(into: &mut [u64], bytes: &[u8])
    requires { length bytes.now ≡ 8 * length into.old }
    ensures { into.new ≡ words (length into.old) bytes.now }
{
    'load: for i in 0..into.len() {
        into[i] = load_word(bytes, 8 * i);
    }
}

/// Writes the bytes of `from`, which are eight times as many.
pub(crate) fn store_words(into: &mut [u8], from: &[u64])
    requires { length into.old ≡ 8 * length from.now }
    ensures { into.new ≡ bytes_of from.now }
{
    'store: for i in 0..from.len() {
        into[8 * i..8 * i + 8].copy_from_slice(&from[i].to_le_bytes());
    }
}
