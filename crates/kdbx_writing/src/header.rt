//! A header as it is written.

ghost use Rattle.std.specs.Prelude.{◌≡◌, ◌≤◌, ◌++◌, OnOk, IfOk, IfSome, length};
ghost use Rattle.std.specs.Int.{to_le_bytes};
ghost use Rattle.std.specs.List.{flat_map};
ghost use Rattle.kdbx_parts.specs.Parts.{width_of};
ghost use Rattle.kdbx_parts.specs.declared.parts.LengthWidth.TheVariants.{Two, Four};
ghost use Rattle.kdbx_frame.specs.Fields.{header_limit, length_width};
ghost use Rattle.kdbx_frame.specs.Settings.{IsInOrder};
ghost use Rattle.kdbx_writing.specs.Fields.{HasRoom, spelled_field, spelled_field_with};
ghost use Rattle.kdbx_writing.specs.Header.{cipher_id, header_fields, header_fields_31, header_fields_4, public_fields, rounds_of, spelled_header, version_number};

use crate::kdf::kdf_bytes;
use crate::{Draws, iv_len};
use kdbx_frame::{Cipher, FileVersion, LengthWidth, Settings, length_width};
use key_core::Kdf;
use outside_core::{Bytes, NoMemory};
use std::alloc::Global;

/// The bytes that a file begins with.
const SIGNATURE: [u8; 8] = [0x03, 0xD9, 0xA2, 0x9A, 0x67, 0xFB, 0x4B, 0xB5];

/// The id of AES-256.
const AES: [u8; 16] = [
    0x31, 0xC1, 0xF2, 0xE6, 0xBF, 0x71, 0x43, 0x50, 0xBE, 0x58, 0x05, 0x21, 0x6A, 0xFC, 0x5A, 0xFF,
];

/// The id of Twofish.
const TWOFISH: [u8; 16] = [
    0xAD, 0x68, 0xF2, 0x9F, 0x57, 0x6F, 0x4B, 0xB9, 0xA3, 0x6A, 0xD4, 0x7A, 0xF9, 0x65, 0x34, 0x6C,
];

/// The id of ChaCha20.
const CHACHA: [u8; 16] = [
    0xD6, 0x03, 0x8A, 0x2B, 0x8B, 0x6F, 0x4C, 0xB5, 0xA5, 0x24, 0x33, 0x9A, 0x31, 0xDB, 0xB5, 0x9A,
];

// The number of a version.
fn version_number(version: FileVersion) -> u32
    ensures { result ≡ version_number version }
{
    match version {
        FileVersion::V31 => 0x0003_0001,
        FileVersion::V40 => 0x0004_0000,
        FileVersion::V41 => 0x0004_0001,
    }
}

// The id of a cipher.
fn cipher_id(cipher: Cipher) -> [u8; 16]
    ensures { result ≡ cipher_id cipher }
{
    match cipher {
        Cipher::Aes => AES,
        Cipher::Twofish => TWOFISH,
        Cipher::ChaCha => CHACHA,
    }
}

/// The number of Salsa20 as an inner stream.
const SALSA20: u32 = 2;

/// How many bytes the stream key of a file of version 3.1 has.
const STREAM_KEY_31: usize = 32;

// The rounds of a key derivation by AES.
fn rounds_of(kdf: &Kdf) -> u64
    ensures { result ≡ rounds_of kdf.now }
{
    match kdf {
        Kdf::Aes { rounds, seed: _ } => *rounds,
        Kdf::Argon { .. } => 0,
    }
}

// Puts a length at the end.
fn put_length(out: &mut Bytes, width: LengthWidth, len: usize) -> Result<(), NoMemory>
    requires { HasRoom width len }
    ensures { OnOk result (out.new ≡ out.old ++ to_le_bytes (width_of width) len) }
{
    match width {
        LengthWidth::Two => out.add(&(len as u16).to_le_bytes()),
        LengthWidth::Four => out.add(&(len as u32).to_le_bytes()),
    }
}

// Puts a field at the end.
fn put_field(out: &mut Bytes, width: LengthWidth, id: u8, content: &[u8]) -> Result<(), NoMemory>
    requires { HasRoom width (length content.now) }
    ensures { OnOk result (out.new ≡ out.old ++ spelled_field_with width (id, content.now)) }
{
    out.add(&[id])?;
    put_length(out, width, content.len())?;
    out.add(content)
}

// Puts the public data at the end, if there are any.
fn put_public(out: &mut Bytes, public: &Option<Bytes>) -> Result<(), NoMemory>
    requires { IfSome public.now (λ bytes. length bytes ≤ header_limit) }
    ensures { OnOk result (out.new ≡ out.old ++ flat_map spelled_field (public_fields public.now)) }
{
    match public {
        Some(bytes) => put_field(out, LengthWidth::Four, 12, bytes.as_slice()),
        None => Ok(()),
    }
}

// Puts the fields of a header of version 4 at the end, but for the one that ends them.
fn put_fields_4(
    alloc: Global,
    out: &mut Bytes,
    settings: &Settings,
    draws: &Draws,
) -> Result<(), NoMemory>
    requires { IsInOrder settings.now }
    ensures { OnOk result (out.new
        ≡ out.old ++ flat_map (spelled_field_with Four) (header_fields_4 settings.now draws.now)) }
{
    let width = LengthWidth::Four;
    put_field(out, width, 2, &cipher_id(settings.cipher))?;
    put_field(out, width, 3, &0u32.to_le_bytes())?;
    put_field(out, width, 4, draws.seed.bytes())?;
    put_field(out, width, 7, &draws.iv.bytes()[..iv_len(settings.cipher)])?;
    let kdf = kdf_bytes(alloc, &settings.kdf, draws.kdf.bytes())?;
    put_field(out, width, 11, kdf.as_slice())?;
    put_public(out, &settings.public)?;
    Ok(())
}

// Puts the fields of a header of version 3.1 at the end, but for the one that ends them.
fn put_fields_31(out: &mut Bytes, settings: &Settings, draws: &Draws) -> Result<(), NoMemory>
    ensures { OnOk result (out.new
        ≡ out.old ++ flat_map (spelled_field_with Two) (header_fields_31 settings.now draws.now)) }
{
    let width = LengthWidth::Two;
    put_field(out, width, 2, &cipher_id(settings.cipher))?;
    put_field(out, width, 3, &0u32.to_le_bytes())?;
    put_field(out, width, 4, draws.seed.bytes())?;
    put_field(out, width, 5, draws.kdf.bytes())?;
    put_field(out, width, 6, &rounds_of(&settings.kdf).to_le_bytes())?;
    put_field(out, width, 7, &draws.iv.bytes()[..iv_len(settings.cipher)])?;
    put_field(out, width, 8, &draws.stream.bytes()[..STREAM_KEY_31])?;
    put_field(out, width, 9, draws.start.bytes())?;
    put_field(out, width, 10, &SALSA20.to_le_bytes())?;
    Ok(())
}

// Puts the fields of a header at the end, but for the one that ends them.
fn put_fields(
    alloc: Global,
    out: &mut Bytes,
    settings: &Settings,
    draws: &Draws,
) -> Result<(), NoMemory>
    requires { IsInOrder settings.now }
    ensures { OnOk result (out.new
        ≡ out.old ++ flat_map (spelled_field_with (length_width settings.now.version))
        (header_fields settings.now.version settings.now draws.now)) }
{
    match settings.version {
        FileVersion::V31 => put_fields_31(out, settings, draws),
        FileVersion::V40 => put_fields_4(alloc, out, settings, draws),
        FileVersion::V41 => put_fields_4(alloc, out, settings, draws),
    }
}

/// The header of a file of these settings, with what was drawn for the file.
///
/// Where it ends within the limit it is read as what it was written from
/// ([`crate::laws::headers_read_back`]). The only refusal is that memory ran out.
#[tactic(auto, unfolding(crate::specs::Header::spelled_header))]
pub fn write_header(alloc: Global, settings: &Settings, draws: &Draws) -> Result<Bytes, NoMemory>
    requires { IsInOrder settings.now }
    ensures { IfOk result (λ b. b ≡ spelled_header settings.now draws.now) }
{
    let mut out = Bytes::new(alloc);
    out.add(&SIGNATURE)?;
    out.add(&version_number(settings.version).to_le_bytes())?;
    put_fields(alloc, &mut out, settings, draws)?;
    put_field(&mut out, length_width(settings.version), 0, b"\r\n\r\n")?;
    Ok(out)
}
