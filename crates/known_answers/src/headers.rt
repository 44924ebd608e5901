//! Headers of KDBX files.

use crate::bytes::bytes_of;
use crate::question::{Fault, Question};
use crate::refusals::frame_refusal;
use crate::spelling::{put_digits, put_number};
use kdbx_frame::{Cipher, FileVersion, FrameFail, Header, read_header};
use key_core::{ArgonKind, Kdf};
use std::alloc::{AllocError, Global};

/// The version, the length and the cipher of a header, or why it is refused: its bytes.
pub fn header(alloc: Global, question: &Question<'_>) -> Result<String, Fault> {
    let bytes = bytes_of(alloc, question)?;
    match read(alloc, &bytes) {
        Ok(header) => summary(alloc, &header),
        Err(fail) => frame_refusal(alloc, fail),
    }
}

/// The key derivation, the seed, the IV and the public data of a header, or why it is refused: its
/// bytes.
pub fn header_parts(alloc: Global, question: &Question<'_>) -> Result<String, Fault> {
    let bytes = bytes_of(alloc, question)?;
    match read(alloc, &bytes) {
        Ok(header) => parts(alloc, &header),
        Err(fail) => frame_refusal(alloc, fail),
    }
}

// The header of these bytes, of which nothing is promised, so that what is proved of its caller
// stays short.
fn read(alloc: Global, bytes: &[u8]) -> Result<Header, FrameFail> {
    read_header(alloc, bytes, bytes.len() as u64)
}

// The name of a version.
fn version_name(version: FileVersion) -> &'static str {
    match version {
        FileVersion::V31 => "V31",
        FileVersion::V40 => "V40",
        FileVersion::V41 => "V41",
    }
}

// The name of a cipher.
fn cipher_name(cipher: Cipher) -> &'static str {
    match cipher {
        Cipher::Aes => "Aes",
        Cipher::Twofish => "Twofish",
        Cipher::ChaCha => "ChaCha",
    }
}

// The version, the length and the cipher of a header.
fn summary(alloc: Global, header: &Header) -> Result<String, Fault> {
    let version = version_name(header.settings.version);
    let size = header.size;
    let cipher = cipher_name(header.settings.cipher);
    Ok(format!(in alloc; "Ok({version}, {size}, {cipher})")?)
}

// The key derivation, the seed, the IV and the public data of a header.
fn parts(alloc: Global, header: &Header) -> Result<String, Fault> {
    let mut out = String::new(alloc);
    put_derivation(alloc, &mut out, &header.settings.kdf)?;
    put_digits(alloc, &mut out, &header.seed)?;
    put_digits(alloc, &mut out, &header.iv)?;
    match &header.settings.public {
        Some(public) => put_digits(alloc, &mut out, public.as_slice())?,
        None => out.push_str(" none")?,
    }
    Ok(out)
}

// Adds a key derivation: AES with its rounds and seed, or Argon2 with its passes, bytes of memory,
// lanes and salt.
fn put_derivation(alloc: Global, out: &mut String, kdf: &Kdf) -> Result<(), AllocError> {
    match kdf {
        Kdf::Aes { rounds, seed } => {
            out.push_str("aes")?;
            put_number(out, *rounds)?;
            put_digits(alloc, out, seed)
        }
        Kdf::Argon {
            kind,
            passes,
            bytes,
            lanes,
            salt,
        } => {
            out.push_str(argon_name(*kind))?;
            put_number(out, *passes)?;
            put_number(out, *bytes)?;
            put_number(out, *lanes as u64)?;
            put_digits(alloc, out, salt.as_slice())
        }
    }
}

// The name of a type of Argon2.
fn argon_name(kind: ArgonKind) -> &'static str {
    match kind {
        ArgonKind::D => "argon2d",
        ArgonKind::Id => "argon2id",
    }
}
