//! What a password opens of a file.

ghost use Rattle.std.specs.Prelude.{◌≡◌, ◌%◌, [], IfOk, Ok, length};
ghost use Rattle.mac_core.specs.Hmac256.{HasAbsorbed};
ghost use Rattle.psafe_file.specs.Keys.{mac_key};
ghost use Rattle.psafe_file.specs.Opened.{content_of, content_seen, file_mac_key, opened_with, password_check, safe_outcome};
ghost use Rattle.psafe_file.specs.Results.{Returns};
ghost use Rattle.psafe_file.specs.Seen.{file_seen, preamble_seen};
ghost use Rattle.sha2.specs.Sha256.{sha256};

use crate::PsafeFail;
use crate::keys::{deciphered_key, stretched_key};
use crate::parts::{Preamble, SafeFile, safe_file};
use block_core::{Twofish256, cbc_decrypt};
use mac_core::Hmac256;
use secret_core::{Key, Secret};
use sha2::{Digest, Sha256};
use std::alloc::Global;

/// The most often that a key is hashed again.
const MAX_ITERATIONS: u32 = 67_108_864;

/// A file that a password opened, before its MAC is checked.
#[derive(Drop)]
pub struct OpenedSafe {
    /// The deciphered blocks: the fields of the header and the records.
    pub bytes: Secret,
    /// The MAC that the file keeps.
    pub mac: [u8; 32],
    /// The MAC under the file's key, of nothing yet. It is given the contents of all fields, in
    /// their order, and then goes to [`check_mac`](crate::check_mac).
    pub computed: Hmac256,
}

// Whether the hash that a file keeps is the one of a stretched key.
fn check_password(kept: &[u8; 32], stretched: &Key) -> Result<(), PsafeFail>
    ensures { Returns (λ x. x) result (password_check kept.now (sha256 stretched.now)) }
{
    let found = Sha256::digest(stretched.bytes());
    if *kept != found {
        return Err(PsafeFail::WrongPassword { kept: *kept, found });
    }
    Ok(())
}

// The blocks of a file, deciphered in memory of their own. The key of the blocks is cleared and
// released.
fn decipher_blocks(alloc: Global, stretched: &Key, file: &SafeFile) -> Result<Secret, PsafeFail>
    requires { length file.now.blocks.now % 16 ≡ 0 }
    ensures { Returns (λ s. s.bytes) result
        (Ok (content_of stretched.now (file_seen file.now)).bytes) }
{
    let mut bytes = Secret::with_room(alloc, file.blocks.len())?;
    bytes.extend(file.blocks);
    let mut key = deciphered_key(stretched, &file.preamble.enciphered_block_key);
    let cipher = Twofish256::new(&key);
    key.clear();
    key.release();
    cbc_decrypt(&cipher, &file.preamble.iv, bytes.lend_mut());
    Ok(bytes)
}

// The MAC of nothing yet, under the key of a file's MAC, which is cleared and released.
fn mac_under(stretched: &Key, preamble: &Preamble) -> Hmac256
    ensures { HasAbsorbed result (mac_key stretched.now (preamble_seen preamble.now)) [] }
{
    let mut key = deciphered_key(stretched, &preamble.enciphered_mac_key);
    let mac = Hmac256::new(key.bytes());
    key.clear();
    key.release();
    mac
}

// Opens a file with its stretched key.
#[tactic(auto, unfolding(crate::specs::Opened::opened_with))]
fn open_with(alloc: Global, stretched: &Key, file: &SafeFile) -> Result<OpenedSafe, PsafeFail>
    requires { length file.now.blocks.now % 16 ≡ 0 }
    ensures gives { Returns content_seen result (opened_with stretched.now (file_seen file.now)) }
    ensures computed { IfOk result (λ s. HasAbsorbed s.computed
        (mac_key stretched.now (preamble_seen file.now.preamble)) []) }
{
    check_password(&file.preamble.check, stretched)?;
    let bytes = decipher_blocks(alloc, stretched, file)?;
    Ok(OpenedSafe {
        bytes,
        mac: file.mac,
        computed: mac_under(stretched, &file.preamble),
    })
}

/// Opens a file of Password Safe V3 of these bytes under a password.
///
/// The bytes after the file's MAC are passed over. The deciphered blocks are not authentic before
/// the MAC of their fields is checked. Whatever the answer, the keys that were derived were cleared
/// and released.
///
/// # Errors
///
/// The first of NotPsafe, Truncated, IterLimit and WrongPassword that holds, else NoMemory where
/// memory ran out.
#[tactic(auto, unfolding(crate::specs::Opened::safe_outcome))]
pub fn open_safe(alloc: Global, bytes: &[u8], password: &[u8]) -> Result<OpenedSafe, PsafeFail>
    ensures gives { Returns content_seen result (safe_outcome bytes.now password.now) }
    ensures computed { IfOk result
        (λ s. HasAbsorbed s.computed (file_mac_key bytes.now password.now) []) }
{
    let file = safe_file(bytes)?;
    let iterations = file.preamble.iterations;
    if iterations > MAX_ITERATIONS {
        return Err(PsafeFail::IterLimit(iterations));
    }
    let mut stretched = stretched_key(password, &file.preamble);
    let opened = open_with(alloc, &stretched, &file);
    stretched.clear();
    stretched.release();
    opened
}
