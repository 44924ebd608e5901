//! Digests of secrets, kept as keys.

ghost use Rattle.std.specs.Prelude.{◌≡◌, ℕ, List};
ghost use Rattle.sha2.specs.Hashers.{Holds256};
ghost use Rattle.sha2.specs.Sha256.{sha256};

use secret_core::Key;
use sha2::{Digest, Sha256};

/// The SHA-256 of some bytes.
pub(crate) fn digest_of(bytes: &[u8]) -> Key
    ensures { result ≡ sha256 bytes.now }
{
    let mut digest = Key::of(&[0; 32]);
    *digest.bytes_mut() = Sha256::digest(bytes);
    digest
}

/// The SHA-256 of what a hasher was given.
pub(crate) fn finished(hasher: Sha256) -> Key
    ensures { (message : List ℕ) → Holds256 hasher message → result ≡ sha256 message }
{
    let mut digest = Key::of(&[0; 32]);
    *digest.bytes_mut() = hasher.finalize();
    digest
}
