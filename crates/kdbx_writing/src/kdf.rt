//! A key derivation as it is written: the KDF dictionary of a header.

ghost use Rattle.std.specs.Prelude.{◌≡◌, ◌<◌, ◌^◌, ◌++◌, OnOk, IfOk, length, codes};
ghost use Rattle.std.specs.Int.{w32, w64, to_le_bytes};
ghost use Rattle.std.specs.List.{flat_map};
ghost use Rattle.key_core.specs.Kdf.{IsChecked};
ghost use Rattle.kdbx_writing.specs.Kdf.{argon_id, kdf_items, spelled_item, spelled_kdf, with_salt};

use argon_core::ArgonKind;
use key_core::Kdf;
use outside_core::{Bytes, NoMemory};
use std::alloc::Global;

/// The id of AES as a key derivation.
const AES_KDF: [u8; 16] = [
    0xC9, 0xD9, 0xF3, 0x9A, 0x62, 0x8A, 0x44, 0x60, 0xBF, 0x74, 0x0D, 0x08, 0xC1, 0x8A, 0x4F, 0xEA,
];

/// The id of Argon2d.
const ARGON2D: [u8; 16] = [
    0xEF, 0x63, 0x6D, 0xDF, 0x8C, 0x29, 0x44, 0x4B, 0x91, 0xF7, 0xA9, 0xA4, 0x03, 0xE3, 0x0A, 0x0C,
];

/// The id of Argon2id.
const ARGON2ID: [u8; 16] = [
    0x9E, 0x29, 0x8B, 0x19, 0x56, 0xDB, 0x47, 0x73, 0xB2, 0x3D, 0xFC, 0x3E, 0xC6, 0xF0, 0xA1, 0xE6,
];

/// The version of Argon2.
const ARGON_VERSION: u32 = 0x13;

/// The type of a value that is a u32.
const U32: u8 = 0x04;

/// The type of a value that is a u64.
const U64: u8 = 0x05;

/// The type of a value of any bytes.
const BYTES: u8 = 0x42;

// The id of a type of Argon2.
fn argon_id(kind: ArgonKind) -> [u8; 16]
    ensures { result ≡ argon_id kind }
{
    match kind {
        ArgonKind::D => ARGON2D,
        ArgonKind::Id => ARGON2ID,
    }
}

// Puts an item of a dictionary at the end.
fn put_item(out: &mut Bytes, kind: u8, key: &[u8], value: &[u8]) -> Result<(), NoMemory>
    requires key { length key.now < 2 ^ 32 }
    requires value { length value.now < 2 ^ 32 }
    ensures { OnOk result (out.new ≡ out.old ++ spelled_item (kind, key.now, value.now)) }
{
    out.add(&[kind])?;
    out.add(&(key.len() as u32).to_le_bytes())?;
    out.add(key)?;
    out.add(&(value.len() as u32).to_le_bytes())?;
    out.add(value)
}

// Puts the item with the id of a key derivation at the end.
fn put_id(out: &mut Bytes, id: &[u8; 16]) -> Result<(), NoMemory>
    ensures { OnOk result (out.new ≡ out.old ++ spelled_item (0x42, codes "$UUID", id.now)) }
{
    put_item(out, BYTES, b"$UUID", id)
}

// Puts an item with a number of four bytes at the end.
fn put_u32(out: &mut Bytes, key: &[u8; 1], n: u32) -> Result<(), NoMemory>
    ensures { OnOk result (out.new ≡ out.old ++ spelled_item (0x04, key.now, to_le_bytes w32 n)) }
{
    put_item(out, U32, key, &n.to_le_bytes())
}

// Puts an item with a number of eight bytes at the end.
fn put_u64(out: &mut Bytes, key: &[u8; 1], n: u64) -> Result<(), NoMemory>
    ensures { OnOk result (out.new ≡ out.old ++ spelled_item (0x05, key.now, to_le_bytes w64 n)) }
{
    put_item(out, U64, key, &n.to_le_bytes())
}

// Puts the items of a key derivation with this seed or salt at the end.
fn put_items(out: &mut Bytes, kdf: &Kdf, salt: &[u8; 32]) -> Result<(), NoMemory>
    ensures { OnOk result (out.new
        ≡ out.old ++ flat_map spelled_item (kdf_items (with_salt kdf.now salt.now))) }
{
    match kdf {
        Kdf::Aes { rounds, .. } => {
            put_id(out, &AES_KDF)?;
            put_u64(out, b"R", *rounds)?;
            put_item(out, BYTES, b"S", salt)
        }
        Kdf::Argon {
            kind,
            passes,
            bytes,
            lanes,
            ..
        } => {
            put_id(out, &argon_id(*kind))?;
            put_item(out, BYTES, b"S", salt)?;
            put_u32(out, b"P", *lanes)?;
            put_u64(out, b"M", *bytes)?;
            put_u64(out, b"I", *passes)?;
            put_u32(out, b"V", ARGON_VERSION)
        }
    }
}

/// The dictionary of a key derivation with this seed or salt.
#[tactic(auto, unfolding(crate::specs::Kdf::spelled_kdf))]
pub fn kdf_bytes(alloc: Global, kdf: &Kdf, salt: &[u8; 32]) -> Result<Bytes, NoMemory>
    ensures value { IfOk result (λ b. b ≡ spelled_kdf (with_salt kdf.now salt.now)) }
    ensures len { IfOk result (λ b. length b < 2 ^ 32) }
{
    let mut out = Bytes::new(alloc);
    out.add(&[0, 1])?;
    put_items(&mut out, kdf, salt)?;
    out.add(&[0])?;
    Ok(out)
}

/// A key derivation with the costs of this one, and with a seed or salt of its own.
pub fn with_salt(alloc: Global, kdf: &Kdf, salt: &[u8; 32]) -> Result<Kdf, NoMemory>
    requires { IsChecked kdf.now }
    ensures value { IfOk result (λ k. k ≡ with_salt kdf.now salt.now) }
    ensures checked { IsChecked (with_salt kdf.now salt.now) }
{
    match kdf {
        Kdf::Aes { rounds, .. } => Ok(Kdf::Aes {
            rounds: *rounds,
            seed: *salt,
        }),
        Kdf::Argon {
            kind,
            passes,
            bytes,
            lanes,
            ..
        } => {
            let mut own = Bytes::new(alloc);
            own.add(salt)?;
            Ok(Kdf::Argon {
                kind: *kind,
                passes: *passes,
                bytes: *bytes,
                lanes: *lanes,
                salt: own,
            })
        }
    }
}
