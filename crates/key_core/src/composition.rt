//! The composite key.

ghost use Rattle.std.specs.Prelude.{◌≡◌, ◌⊎◌, IsSome};
ghost use Rattle.std.specs.Option.{option_map};
ghost use Rattle.key_core.specs.Keys.{composite_key};

use crate::digests::{digest_of, finished};
use secret_core::Key;
use sha2::{Digest, Sha256};

/// The composite key of a password and the key of a key file, of which one may be missing: SHA-256
/// of the password's SHA-256 and the key file's key. The key of the key file is cleared and
/// released. Takes no memory.
#[tactic(auto, unfolding(crate::specs::Keys::composite_key))]
pub fn composite(password: Option<&[u8]>, key_file: Option<Key>) -> Key
    requires { IsSome password ⊎ IsSome key_file }
    ensures { result ≡ composite_key (option_map (λ p. p.now) password.entry) key_file }
{
    let mut hasher = Sha256::new();
    if let Some(password) = password {
        let mut digest = digest_of(password);
        hasher.update(digest.bytes());
        digest.clear();
        digest.release();
    }
    if let Some(mut key) = key_file {
        hasher.update(key.bytes());
        key.clear();
        key.release();
    }
    finished(hasher)
}
