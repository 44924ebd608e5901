//! The transformation of the composite key, whose cost is chosen by the file.

ghost use Rattle.std.specs.Prelude.{◌≡◌, ◌≤◌, ◌+◌, ◌++◌, IfOk, IfErr, take, drop};
ghost use Rattle.std.specs.Fn.{iterate};
ghost use Rattle.secret_core.specs.Secret.{AllZero};
ghost use Rattle.sha2.specs.Sha256.{sha256};
ghost use Rattle.block_core.specs.AesCipher.{aes_enciphered};
ghost use Rattle.key_core.specs.Kdf.{IsChecked};
ghost use Rattle.key_core.specs.Keys.{aes_transformed, transformed_key};

use crate::digests::finished;
use crate::kdf::{Kdf, KdfFail};
use argon_core::{ArgonParams, argon2};
use block_core::{Aes256, Block16};
use secret_core::Key;
use sha2::{Digest, Sha256};
use std::alloc::Global;

/// Transforms a composite key, which is lent. The only refusal is that memory ran out: the key
/// derivation function must have passed `check_kdf`.
pub fn transform(alloc: Global, composite: &Key, kdf: &Kdf) -> Result<Key, KdfFail>
    requires { IsChecked kdf.now }
    ensures key { IfOk result (λ key. key ≡ transformed_key kdf.now composite.now) }
    ensures memory { IfErr result (λ fail. fail ≡ KdfFail.NoMemory) }
{
    match kdf {
        Kdf::Aes { rounds, seed } => Ok(transform_by_aes(composite, *rounds, seed)),
        Kdf::Argon {
            kind,
            passes,
            bytes,
            lanes,
            salt,
        } => {
            let params = ArgonParams {
                passes: *passes as u32,
                kib: (*bytes / 1024) as u32,
                lanes: *lanes,
            };
            match argon2(
                alloc,
                *kind,
                &params,
                composite.bytes(),
                salt.as_slice(),
                &[],
                &[],
            ) {
                Ok(key) => Ok(key),
                Err(_) => Err(KdfFail::NoMemory),
            }
        }
    }
}

// The halves of a key while they are enciphered, which must be spent by `release`.
struct Halves {
    first: [u8; 16],
    second: [u8; 16],
}

impl Halves {
    // The halves of a key.
    fn of(key: &Key) -> Halves
        ensures first { result.first ≡ take 16 key.now }
        ensures second { result.second ≡ drop 16 key.now }
    {
        let mut halves = Halves {
            first: [0; 16],
            second: [0; 16],
        };
        let (first, second) = key.bytes().split_at(16);
        halves.first.copy_from_slice(first);
        halves.second.copy_from_slice(second);
        halves
    }

    // Zeroes the halves.
    fn clear(&mut self)
        ensures first { AllZero self.new.first }
        ensures second { AllZero self.new.second }
    {
        self.first.fill(0);
        self.second.fill(0);
    }

    // Gives up halves that are zero.
    fn release(self)
        requires first { AllZero self.first }
        requires second { AllZero self.second }
    {
        let Halves {
            first: _,
            second: _,
        } = self;
    }
}

// Both halves of a key enciphered again and again under a seed, and their hash.
fn transform_by_aes(key: &Key, rounds: u64, seed: &[u8; 32]) -> Key
    ensures { result ≡ aes_transformed seed.now rounds key.now }
{
    let mut cipher_key = Key::of(seed);
    let cipher = Aes256::new(&cipher_key);
    cipher_key.clear();
    cipher_key.release();
    let mut halves = Halves::of(key);
    encipher_often(&cipher, rounds, &mut halves.first);
    encipher_often(&cipher, rounds, &mut halves.second);
    let transformed = hash_of(&halves.first, &halves.second);
    halves.clear();
    halves.release();
    transformed
}

// The hash of two blocks.
fn hash_of(first: &[u8; 16], second: &[u8; 16]) -> Key
    ensures { result ≡ sha256 (first.now ++ second.now) }
{
    let mut hasher = Sha256::new();
    hasher.update(first);
    hasher.update(second);
    finished(hasher)
}

// Enciphers a block again and again.
fn encipher_often(cipher: &Aes256, rounds: u64, block: &mut [u8; 16])
    ensures { block.new ≡ iterate (aes_enciphered cipher.now) rounds block.old }
{
    'rounds: for _ in 0..rounds {
        cipher.encrypt(block);
    }
}
