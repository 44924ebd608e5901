//! The keys of a file.

ghost use Rattle.std.specs.Prelude.{◌≡◌, ◌++◌, length};
ghost use Rattle.std.specs.Fn.{iterate};
ghost use Rattle.block_core.specs.Twofish.{twofish256_decipher};
ghost use Rattle.block_core.specs.TwofishCipher.{twofish_deciphered};
ghost use Rattle.psafe_file.specs.Keys.{deciphered_key, stretched_key};
ghost use Rattle.psafe_file.specs.Seen.{preamble_seen};
ghost use Rattle.sha2.specs.Sha256.{sha256};

use crate::parts::Preamble;
use block_core::{Block16, Twofish256};
use secret_core::{Key, SecretKey};
use sha2::{Digest, Sha256};

// Hashes a digest again so often.
fn hash_again(digest: &mut [u8; 32], iterations: u32)
    ensures { digest.new ≡ iterate sha256 iterations digest.old }
{
    'iterations: for _ in 0..iterations {
        *digest = Sha256::digest(digest.as_slice());
    }
}

/// The stretched key that a password gives.
pub(crate) fn stretched_key(password: &[u8], preamble: &Preamble) -> Key
    ensures { result ≡ stretched_key password.now (preamble_seen preamble.now) }
{
    let mut hasher = Sha256::new();
    hasher.update(password);
    hasher.update(preamble.salt);
    let mut key = Key::of(&[0; 32]);
    *key.bytes_mut() = hasher.finalize();
    hash_again(key.bytes_mut(), preamble.iterations);
    key
}

// Deciphers one block of a key in place.
fn decipher_half(cipher: &Twofish256, half: &mut [u8])
    requires { length half.old ≡ 16 }
    ensures { half.new ≡ twofish_deciphered cipher.now half.old }
{
    let mut block = SecretKey::of(&[0; 16]);
    block.bytes_mut().copy_from_slice(half);
    cipher.decrypt(block.bytes_mut());
    half.copy_from_slice(block.bytes());
    block.clear();
    block.release();
}

/// The key in two blocks that are enciphered under a stretched key.
pub(crate) fn deciphered_key(stretched: &Key, blocks: &[u8; 32]) -> Key
    ensures { result ≡ deciphered_key stretched.now blocks.now }
{
    let cipher = Twofish256::new(stretched);
    let mut key = Key::of(blocks);
    let (first, second) = key.bytes_mut().split_at_mut(16);
    decipher_half(&cipher, first);
    decipher_half(&cipher, second);
    key
}
