//! How a vault file's composite key is transformed before it is used, and how much work that may
//! cost.

ghost use Rattle.std.specs.Prelude.{◌≡◌};
ghost use Rattle.key_core.specs.Kdf.{checked_argon, checked_kdf};

use argon_core::{ArgonKind, MAX_KIB, MAX_LANES, MAX_SALT, MIN_LANE_KIB, MIN_SALT};
use outside_core::Bytes;

/// The most rounds of AES.
const MAX_ROUNDS: u64 = 4_294_967_296;

/// The most passes of Argon2 over its memory.
const MAX_PASSES: u64 = 4_294_967_295;

/// The least memory of Argon2 for a lane, in bytes.
const MIN_LANE_BYTES: u64 = 1024 * MIN_LANE_KIB as u64;

/// The most memory of Argon2, in bytes.
const MAX_BYTES: u64 = 1024 * MAX_KIB as u64;

/// A key derivation function with its costs, as a vault file names it.
#[derive(Drop)]
pub enum Kdf {
    /// AES-256 of both halves of the composite key, again and again.
    Aes {
        /// How often each half is enciphered.
        rounds: u64,
        /// The key of the cipher.
        seed: [u8; 32],
    },
    /// Argon2 of the composite key.
    Argon {
        /// The type of Argon2.
        kind: ArgonKind,
        /// How often the memory is filled.
        passes: u64,
        /// The memory in bytes, of which whole units of 1,024 are used.
        bytes: u64,
        /// How many lanes the memory is divided into.
        lanes: u32,
        /// The salt.
        salt: Bytes,
    },
}

/// A number of a key derivation function that has limits.
#[derive(Clone, Copy)]
pub enum KdfField {
    /// The rounds of AES, at most 4,294,967,296.
    Rounds,
    /// The passes of Argon2, from 1 to 4,294,967,295.
    Passes,
    /// The memory of Argon2 in bytes: at least 8,192 for a lane, and at most 1,073,741,824.
    Memory,
    /// The lanes of Argon2, from 1 to 1,024.
    Lanes,
    /// The length of Argon2's salt in bytes, from 8 to 1,024.
    Salt,
}

/// Why a key is not derived.
#[derive(Clone, Copy)]
pub enum KdfFail {
    /// The number that the file gives for this field, which is out of its limits.
    KdfLimit(KdfField, u64),
    /// There was no memory left.
    NoMemory,
}

/// Looks whether all numbers of a key derivation function are within their limits. The first that
/// is not, in the order of `KdfField`, is answered with its value. Takes no memory.
pub fn check_kdf(kdf: &Kdf) -> Result<(), KdfFail>
    ensures { result ≡ checked_kdf kdf.now }
{
    match kdf {
        Kdf::Aes { rounds, .. } => {
            if *rounds > MAX_ROUNDS {
                return Err(KdfFail::KdfLimit(KdfField::Rounds, *rounds));
            }
            Ok(())
        }
        Kdf::Argon {
            passes,
            bytes,
            lanes,
            salt,
            ..
        } => check_argon(*passes, *bytes, *lanes, salt.len()),
    }
}

// The first of Argon2's numbers that is not within its limits, in the order of `KdfField`.
fn check_argon(passes: u64, bytes: u64, lanes: u32, salt_len: usize) -> Result<(), KdfFail>
    ensures { result ≡ checked_argon passes bytes lanes salt_len }
{
    if passes == 0 || passes > MAX_PASSES {
        Err(KdfFail::KdfLimit(KdfField::Passes, passes))
    } else if bytes < MIN_LANE_BYTES * lanes as u64 || bytes > MAX_BYTES {
        Err(KdfFail::KdfLimit(KdfField::Memory, bytes))
    } else if lanes == 0 || lanes > MAX_LANES {
        Err(KdfFail::KdfLimit(KdfField::Lanes, lanes as u64))
    } else if salt_len < MIN_SALT || salt_len > MAX_SALT {
        Err(KdfFail::KdfLimit(KdfField::Salt, salt_len as u64))
    } else {
        Ok(())
    }
}
