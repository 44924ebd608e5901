//! The hashes that a computation of Argon2 begins and ends with (RFC 9106, 3.2 and 3.3).

ghost use Rattle.std.specs.Prelude.{◌≡◌, ℕ, ◌+◌, ◌*◌, ◌^◌, ◌<◌, ◌≤◌, [], ◌++◌, List, length, take};
ghost use Rattle.argon_core.specs.Words.{words, bytes_of};
ghost use Rattle.argon_core.specs.Hasher.{HasAbsorbed};
ghost use Rattle.argon_core.specs.Blake2b.{blake2b};
ghost use Rattle.argon_core.specs.VariableHash.{le32, hash_chain, first_halves, variable_hash};
ghost use Rattle.argon_core.specs.Argon2.{first_hash, first_block, type_number, with_len};

use crate::blake::{Hasher, blake2b};
use crate::compression::Block;
use crate::memory::BlockBytes;
use crate::params::{ArgonKind, ArgonParams, Instance};
use crate::words::{load_words, store_words};
use secret_core::{Key, Key64};

const VERSION: u32 = 0x13;

const TAG_LEN: u32 = 32;

// Adds the four bytes of a number.
fn update_number(hasher: &mut Hasher, number: u32)
    requires { hasher.old.absorbed + hasher.old.filled < 2 ^ 64 }
    ensures total { hasher.new.absorbed + hasher.new.filled
        ≡ hasher.old.absorbed + hasher.old.filled + 4 }
    ensures holds { (size : ℕ) (message : List ℕ) → HasAbsorbed size hasher.old message
        → HasAbsorbed size hasher.new (message ++ le32 number) }
{
    hasher.update(&number.to_le_bytes());
}

// Adds some bytes after their number.
fn update_with_len(hasher: &mut Hasher, piece: &[u8])
    requires before { hasher.old.absorbed + hasher.old.filled < 2 ^ 63 }
    requires short { length piece.now < 2 ^ 32 }
    ensures total { hasher.new.absorbed + hasher.new.filled
        ≡ hasher.old.absorbed + hasher.old.filled + 4 + length piece.now }
    ensures holds { (size : ℕ) (message : List ℕ) → HasAbsorbed size hasher.old message
        → HasAbsorbed size hasher.new (message ++ with_len piece.now) }
{
    update_number(hasher, piece.len() as u32);
    hasher.update(piece);
}

// The number of a type.
pub(crate) fn type_number(kind: ArgonKind) -> u32
    ensures { result ≡ type_number kind }
{
    match kind {
        ArgonKind::D => 0,
        ArgonKind::Id => 2,
    }
}

/// H 0, the hash of all parameters and inputs.
pub(crate) fn first_hash(
    kind: ArgonKind,
    params: &ArgonParams,
    password: &[u8],
    salt: &[u8],
    secret: &[u8],
    extra: &[u8],
) -> Key64
    requires password { length password.now < 2 ^ 32 }
    requires salt { length salt.now < 2 ^ 32 }
    requires secret { length secret.now < 2 ^ 32 }
    requires extra { length extra.now < 2 ^ 32 }
    ensures { result ≡ first_hash kind params.now password.now salt.now secret.now extra.now }
{
    let mut hasher = Hasher::new(64);
    update_number(&mut hasher, params.lanes);
    update_number(&mut hasher, TAG_LEN);
    update_number(&mut hasher, params.kib);
    update_number(&mut hasher, params.passes);
    update_number(&mut hasher, VERSION);
    update_number(&mut hasher, type_number(kind));
    update_with_len(&mut hasher, password);
    update_with_len(&mut hasher, salt);
    update_with_len(&mut hasher, secret);
    update_with_len(&mut hasher, extra);
    digest_of(hasher)
}

// The digest of a hasher that was begun for 64 bytes.
fn digest_of(hasher: Hasher) -> Key64
    requires { hasher.absorbed + hasher.filled < 2 ^ 128 }
    ensures { (message : List ℕ) → HasAbsorbed 64 hasher message → result ≡ blake2b 64 message }
{
    let mut digest = Key64::of(&[0; 64]);
    hasher.finish(digest.bytes_mut());
    digest
}

// Puts the hash of a hash in its place.
fn rehash(hash: &mut Key64)
    ensures { hash.new ≡ blake2b 64 (hash.old ++ []) }
{
    let mut before = Key64::of(hash.bytes());
    blake2b(hash.bytes_mut(), before.bytes(), &[]);
    before.clear();
    before.release();
}

// Writes the first half of a hash at an offset of the output.
fn put_half(out: &mut [u8; 1024], at: usize, hash: &[u8; 64])
    requires { at + 32 ≤ 1024 }
    ensures { take (at + 32) out.new ≡ take at out.old ++ take 32 hash.now }
{
    out[at..at + 32].copy_from_slice(&hash[..32]);
}

// Writes a whole hash at the end of the output.
fn put_last(out: &mut [u8; 1024], hash: &[u8; 64])
    ensures { out.new ≡ take 960 out.old ++ hash.now }
{
    out[960..].copy_from_slice(hash);
}

// The 1,024 bytes of H' after the first hash V 1: the first halves of V 1 to V 30, and V 31.
fn lengthen(first: Key64) -> BlockBytes
    ensures { result.bytes ≡ first_halves first 30 ++ blake2b 64 (hash_chain first 29) }
{
    let mut out = BlockBytes::zeros();
    let mut hash = first;
    'halves: for r in 0..30usize {
        put_half(&mut out.bytes, 32 * r, hash.bytes());
        rehash(&mut hash);
    }
    put_last(&mut out.bytes, hash.bytes());
    hash.clear();
    hash.release();
    out
}

/// A block of the first two columns in the first pass.
pub(crate) fn first_block(instance: &Instance, lane: u32, column: u32) -> Block
    ensures { result ≡ first_block instance.now lane column }
{
    let mut hasher = Hasher::new(64);
    update_number(&mut hasher, 1024);
    hasher.update(instance.first_hash.bytes());
    update_number(&mut hasher, column);
    update_number(&mut hasher, lane);
    let mut bytes = lengthen(digest_of(hasher));
    let mut block = [0; 128];
    load_words(&mut block, &bytes.bytes);
    bytes.wipe();
    bytes.release();
    block
}

/// The tag, from the exclusive or of the last blocks.
pub(crate) fn tag(block: &Block) -> Key
    ensures { result ≡ variable_hash 32 (bytes_of block.now) }
{
    let mut bytes = BlockBytes::zeros();
    store_words(&mut bytes.bytes, block);
    let mut tag = Key::of(&[0; 32]);
    blake2b(tag.bytes_mut(), &TAG_LEN.to_le_bytes(), &bytes.bytes);
    bytes.wipe();
    bytes.release();
    tag
}
