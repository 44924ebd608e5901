//! The keys of a vault file.

ghost use Rattle.std.specs.Prelude.{◌≡◌};
ghost use Rattle.key_core.specs.Keys.{cipher_key, mac_base};
ghost use Rattle.secret_core.specs.Secret.{AllZero};

use crate::digests::finished;
use secret_core::{Key, Key64};
use sha2::{Digest, Sha256, Sha512};

/// The keys of a vault file, which must be spent by `release`.
pub struct FileKeys {
    /// The key of the cipher.
    pub cipher: Key,
    /// The MAC base, from which the keys of the MACs are made.
    pub base: Key64,
}

impl FileKeys {
    /// Zeroes both keys.
    pub fn clear(&mut self)
        ensures cipher { AllZero self.new.cipher }
        ensures base { AllZero self.new.base }
    {
        self.cipher.clear();
        self.base.clear();
    }

    /// Gives up keys that are zero.
    pub fn release(self)
        requires cipher { AllZero self.cipher }
        requires base { AllZero self.base }
    {
        let FileKeys { cipher, base } = self;
        cipher.release();
        base.release();
    }
}

/// The keys of a vault file, from the transformed key and the file's master seed: SHA-256 of the
/// seed and the key, and SHA-512 of the seed, the key and the byte 01. The transformed key is
/// cleared and released. Takes no memory.
#[tactic(auto, unfolding(crate::specs::Keys::cipher_key, crate::specs::Keys::mac_base))]
pub fn file_keys(mut transformed: Key, seed: &[u8; 32]) -> FileKeys
    ensures cipher { result.cipher ≡ cipher_key seed.now transformed }
    ensures base { result.base ≡ mac_base seed.now transformed }
{
    let mut short = Sha256::new();
    short.update(seed);
    short.update(transformed.bytes());
    let mut long = Sha512::new();
    long.update(seed);
    long.update(transformed.bytes());
    long.update(&[1]);
    transformed.clear();
    transformed.release();
    let mut base = Key64::of(&[0; 64]);
    *base.bytes_mut() = long.finalize();
    FileKeys {
        cipher: finished(short),
        base,
    }
}
