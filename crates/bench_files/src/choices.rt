//! What is chosen for a file, as words write it.

ghost use Rattle.std.specs.Prelude.{◌≡◌, ◌≤◌, IfOk, IfSome, IsTrue, length};
ghost use Rattle.key_core.specs.Kdf.{IsChecked};
ghost use Rattle.kdbx_frame.specs.Fields.{header_limit};
ghost use Rattle.kdbx_frame.specs.Settings.{IsInOrder, IsOfVersion};

use crate::fault::Fault;
use kdbx_frame::{Cipher, FileVersion, HEADER_LIMIT, Settings};
use key_core::{ArgonKind, Kdf, check_kdf};
use outside_core::Bytes;
use std::alloc::Global;

/// What is chosen for a file: a version, a cipher, a key derivation with its costs, and how many
/// bytes of public data the header has, `-` if it has none.
#[derive(Clone, Copy)]
pub struct Choices<'a> {
    pub version: &'a str,
    pub cipher: &'a str,
    pub kdf: &'a str,
    pub public: &'a str,
}

/// The number of a word.
pub fn number_of(word: &str) -> Result<u64, Fault> {
    match word.parse::<u64>() {
        Ok(number) => Ok(number),
        Err(_) => Err(Fault::BadWord),
    }
}

/// The number of a word, where it has 32 bits.
pub fn short_number_of(word: &str) -> Result<u32, Fault> {
    match word.parse::<u32>() {
        Ok(number) => Ok(number),
        Err(_) => Err(Fault::BadWord),
    }
}

// The version of a word.
fn version_of(word: &str) -> Result<FileVersion, Fault> {
    match word {
        "3.1" => Ok(FileVersion::V31),
        "4.0" => Ok(FileVersion::V40),
        "4.1" => Ok(FileVersion::V41),
        _ => Err(Fault::BadWord),
    }
}

// The cipher of a word.
fn cipher_of(word: &str) -> Result<Cipher, Fault> {
    match word {
        "aes" => Ok(Cipher::Aes),
        "twofish" => Ok(Cipher::Twofish),
        "chacha20" => Ok(Cipher::ChaCha),
        _ => Err(Fault::BadWord),
    }
}

// Puts as many zeros at the end.
fn put_zeros(bytes: &mut Bytes, count: u64) -> Result<(), Fault> {
    for _ in 0..count {
        if bytes.push(0).is_err() {
            return Err(Fault::NoMemory);
        }
    }
    Ok(())
}

// As many zeros.
fn zeros(alloc: Global, count: u64) -> Result<Bytes, Fault> {
    let mut bytes = Bytes::new(alloc);
    match put_zeros(&mut bytes, count) {
        Ok(()) => Ok(bytes),
        Err(fault) => Err(fault),
    }
}

// Argon2 with costs: passes, bytes of memory and lanes, with `/` between them. Its salt is drawn
// when a file is sealed.
fn argon_of(alloc: Global, kind: ArgonKind, costs: &str) -> Result<Kdf, Fault> {
    let Some((passes, rest)) = costs.split_once('/') else {
        return Err(Fault::BadWord);
    };
    let Some((bytes, lanes)) = rest.split_once('/') else {
        return Err(Fault::BadWord);
    };
    let passes = number_of(passes)?;
    let bytes = number_of(bytes)?;
    let lanes = short_number_of(lanes)?;
    match zeros(alloc, 32) {
        Ok(salt) => Ok(Kdf::Argon {
            kind,
            passes,
            bytes,
            lanes,
            salt,
        }),
        Err(fault) => Err(fault),
    }
}

// The key derivation of a name and costs.
fn named_kdf(alloc: Global, name: &str, costs: &str) -> Result<Kdf, Fault> {
    match name {
        "aes" => {
            let rounds = number_of(costs)?;
            Ok(Kdf::Aes {
                rounds,
                seed: [0; 32],
            })
        }
        "argon2d" => argon_of(alloc, ArgonKind::D, costs),
        "argon2id" => argon_of(alloc, ArgonKind::Id, costs),
        _ => Err(Fault::BadWord),
    }
}

// The key derivation of a word: its name, and its costs after a `/`.
fn kdf_of(alloc: Global, word: &str) -> Result<Kdf, Fault>
    ensures { IfOk result IsChecked }
{
    let Some((name, costs)) = word.split_once('/') else {
        return Err(Fault::BadWord);
    };
    let kdf = named_kdf(alloc, name, costs)?;
    match check_kdf(&kdf) {
        Ok(()) => Ok(kdf),
        Err(_) => Err(Fault::BadWord),
    }
}

// The public data of a word: no longer than a header, if any.
fn public_of(alloc: Global, word: &str) -> Result<Option<Bytes>, Fault>
    ensures { IfOk result (λ public. IfSome public (λ bytes. length bytes ≤ header_limit)) }
{
    if word == "-" {
        return Ok(None);
    }
    let bytes = zeros(alloc, number_of(word)?)?;
    if bytes.len() > HEADER_LIMIT {
        Err(Fault::BadWord)
    } else {
        Ok(Some(bytes))
    }
}

// Whether a file of a version can have these: one of version 3.1 has AES as its key derivation, and
// no public data.
fn is_of_version(version: FileVersion, kdf: &Kdf, public: &Option<Bytes>) -> bool
    ensures { IsTrue result → IsOfVersion version kdf.now public.now }
{
    match version {
        FileVersion::V31 => match (kdf, public) {
            (Kdf::Aes { .. }, None) => true,
            _ => false,
        },
        FileVersion::V40 | FileVersion::V41 => true,
    }
}

/// The settings that are chosen.
pub fn settings_of(alloc: Global, choices: &Choices<'_>) -> Result<Settings, Fault>
    ensures { IfOk result IsInOrder }
{
    let version = version_of(choices.version)?;
    let cipher = cipher_of(choices.cipher)?;
    let kdf = kdf_of(alloc, choices.kdf)?;
    let public = public_of(alloc, choices.public)?;
    if is_of_version(version, &kdf, &public) {
        Ok(Settings {
            version,
            cipher,
            kdf,
            public,
        })
    } else {
        Err(Fault::BadWord)
    }
}
