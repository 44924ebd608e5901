//! The settings that the fields of a header give.

ghost use Rattle.std.specs.Prelude.{◌≡◌, ◌-◌, ◌≤◌, ◌++◌, IfOk, IfSome, None, Ok, length, option_map, replicate};
ghost use Rattle.kdbx_parts.specs.KeyCore.Kdf.{IsChecked};
ghost use Rattle.outside_core.specs.Results.{Returns};
ghost use Rattle.kdbx_parts.specs.Results.{meaning_of};
ghost use Rattle.vault_model.specs.declared.forms.FileVersion.TheVariants.{V31};
ghost use Rattle.kdbx_frame.specs.Settings.{IsInOrder, IsVersion4, cipher_of, iv_of, checked_header, checked_header_31, checked_header_4, kdf_of, settings_and_iv, refuse_compression};
ghost use Rattle.kdbx_frame.specs.Fields.{header_limit};
ghost use Rattle.kdbx_frame.specs.Seen.{HasSmall, header_fields_seen, checked_header_seen};
ghost use Rattle.kdbx_parts.specs.Dictionary as dictionary;
ghost use Rattle.kdbx_parts.specs.SeenDictionary.{description_seen};

use crate::fields::HeaderFields;
use kdbx_parts::key_core::{Kdf, check_kdf};
use kdbx_parts::{FrameFail, KdfDescription, copy_of, required, same};
use outside_core::Bytes;
use std::alloc::Global;
use uuid_core::Uuid;
use vault_model::FileVersion;

/// The cipher of a file's content.
#[derive(Clone, Copy)]
pub enum Cipher {
    /// AES-256 in CBC.
    Aes,
    /// Twofish with a key of 256 bits, in CBC.
    Twofish,
    /// ChaCha20 (RFC 8439).
    ChaCha,
}

/// What a user chose for a file, which is kept when the file is written again.
#[derive(Drop)]
pub struct Settings {
    /// The version of the format.
    pub version: FileVersion,
    /// The cipher of the content.
    pub cipher: Cipher,
    /// The key derivation, with its costs within their limits.
    pub kdf: Kdf,
    /// The public data, which is in the header in the clear, if any.
    pub public: Option<Bytes>,
}

/// What the fields of a header give: all of them are there, known and within their limits.
#[derive(Drop)]
pub struct CheckedHeader {
    /// What the user chose.
    pub settings: Settings,
    /// The master seed.
    pub seed: [u8; 32],
    /// The IV of the cipher, with zeros after it up to 16 bytes.
    pub iv: [u8; 16],
    /// The inner stream of a file of version 3.1; 0 in version 4.
    pub stream_id: u32,
    /// The key of the inner stream of a file of version 3.1; empty in version 4.
    pub stream_key: Bytes,
    /// The bytes that a deciphered file of version 3.1 begins with; 0 in version 4.
    pub start: [u8; 32],
}

/// The id of AES-256.
const AES: [u8; 16] = [
    0x31, 0xC1, 0xF2, 0xE6, 0xBF, 0x71, 0x43, 0x50, 0xBE, 0x58, 0x05, 0x21, 0x6A, 0xFC, 0x5A, 0xFF,
];

/// The id of Twofish.
const TWOFISH: [u8; 16] = [
    0xAD, 0x68, 0xF2, 0x9F, 0x57, 0x6F, 0x4B, 0xB9, 0xA3, 0x6A, 0xD4, 0x7A, 0xF9, 0x65, 0x34, 0x6C,
];

/// The id of ChaCha20.
const CHACHA: [u8; 16] = [
    0xD6, 0x03, 0x8A, 0x2B, 0x8B, 0x6F, 0x4C, 0xB5, 0xA5, 0x24, 0x33, 0x9A, 0x31, 0xDB, 0xB5, 0x9A,
];

/// The version of Argon2 that is read.
const ARGON_VERSION: u32 = 0x13;

// The cipher of an id.
fn cipher_of(id: [u8; 16]) -> Result<Cipher, FrameFail>
    ensures { Returns meaning_of (λ x. x) result (cipher_of id) }
{
    if same(&id, &AES) {
        Ok(Cipher::Aes)
    } else if same(&id, &TWOFISH) {
        Ok(Cipher::Twofish)
    } else if same(&id, &CHACHA) {
        Ok(Cipher::ChaCha)
    } else {
        Err(FrameFail::CipherUnknown(Uuid::from_bytes(id)))
    }
}

// The bytes with zeros after them, up to sixteen.
fn padded_iv(iv: &[u8]) -> [u8; 16]
    requires { length iv.now ≤ 16 }
    ensures { result ≡ iv.now ++ replicate (16 - length iv.now) 0 }
{
    let mut whole = [0; 16];
    whole[..iv.len()].copy_from_slice(iv);
    whole
}

// The IV of a cipher as it is kept.
fn iv_of(cipher: Cipher, iv: &[u8]) -> Result<[u8; 16], FrameFail>
    ensures { Returns meaning_of (λ x. x) result (iv_of cipher iv.now) }
{
    let len = match cipher {
        Cipher::Aes | Cipher::Twofish => 16,
        Cipher::ChaCha => 12,
    };
    if iv.len() != len {
        return Err(FrameFail::FieldLength(7, iv.len() as u64));
    }
    Ok(padded_iv(iv))
}

// Refuses compressed content.
fn refuse_compression(flag: u32) -> Result<(), FrameFail>
    ensures { Returns meaning_of (λ x. x) result (refuse_compression flag) }
{
    if flag != 0 {
        return Err(FrameFail::Compressed(flag));
    }
    Ok(())
}

// The key derivation that a dictionary describes.
fn kdf_of(alloc: Global, described: KdfDescription) -> Result<Kdf, FrameFail>
    ensures gives { Returns meaning_of (λ x. x) result (kdf_of (description_seen described.entry)) }
    ensures checked { IfOk result IsChecked }
{
    let kdf = match described {
        KdfDescription::WrongVersion(version) => return Err(FrameFail::Variant(version as u64)),
        KdfDescription::UnknownId(id) => return Err(FrameFail::KdfUnknown(Uuid::from_bytes(id))),
        KdfDescription::Aes { rounds, seed } => Kdf::Aes { rounds, seed },
        KdfDescription::Argon {
            kind,
            passes,
            memory,
            lanes,
            salt,
            version,
            extra,
        } => {
            if version != ARGON_VERSION {
                return Err(FrameFail::Variant(version as u64));
            }
            if extra {
                return Err(FrameFail::Variant(0));
            }
            Kdf::Argon {
                kind,
                passes,
                bytes: memory,
                lanes,
                salt: copy_of(alloc, salt)?,
            }
        }
    };
    match check_kdf(&kdf) {
        Ok(()) => Ok(kdf),
        Err(fail) => {
            drop(kdf);
            Err(fail.into())
        }
    }
}

// The public data in memory of its own, if any.
fn public_of(alloc: Global, public: Option<&[u8]>) -> Result<Option<Bytes>, FrameFail>
    requires { HasSmall public }
    ensures gives { Returns meaning_of (λ x. x) result (Ok (option_map (λ x. x.now) public.entry)) }
    ensures small { IfOk result (λ x. IfSome x (λ bytes. length bytes ≤ header_limit)) }
{
    match public {
        Some(bytes) => Ok(Some(copy_of(alloc, bytes)?)),
        None => Ok(None),
    }
}

// The settings and the IV that required fields of version 4 give.
#[tactic(auto, using(crate::proofs::Versions::any_of_version), unfolding(crate::specs::Settings::settings_and_iv))]
fn settings_and_iv(
    alloc: Global,
    version: FileVersion,
    id: [u8; 16],
    flag: u32,
    iv: &[u8],
    described: KdfDescription,
    public: Option<&[u8]>,
) -> Result<(Settings, [u8; 16]), FrameFail>
    requires version { IsVersion4 version }
    requires public { HasSmall public }
    ensures gives { Returns meaning_of (λ x. (x.0, x.1)) result
        (settings_and_iv version id flag iv.now (description_seen described.entry)
        (option_map (λ x. x.now) public.entry)) }
    ensures in_order { IfOk result (λ x. IsInOrder x.0) }
    ensures version { IfOk result (λ x. x.0.version ≡ version) }
{
    let cipher = cipher_of(id)?;
    let iv = iv_of(cipher, iv)?;
    refuse_compression(flag)?;
    let kdf = kdf_of(alloc, described)?;
    match public_of(alloc, public) {
        Ok(public) => {
            let settings = Settings {
                version,
                cipher,
                kdf,
                public,
            };
            Ok((settings, iv))
        }
        Err(fail) => {
            drop(kdf);
            Err(fail)
        }
    }
}

// The settings and the IV that required fields of version 3.1 give.
#[tactic(auto, unfolding(crate::specs::Settings::settings_and_iv))]
fn settings_and_iv_31(
    id: [u8; 16],
    flag: u32,
    iv: &[u8],
    rounds: u64,
    seed: [u8; 32],
) -> Result<(Settings, [u8; 16]), FrameFail>
    ensures gives { Returns meaning_of (λ x. (x.0, x.1)) result
        (settings_and_iv V31 id flag iv.now (dictionary.aes rounds seed) None) }
    ensures in_order { IfOk result (λ x. IsInOrder x.0) }
    ensures version { IfOk result (λ x. x.0.version ≡ V31) }
{
    let cipher = cipher_of(id)?;
    let iv = iv_of(cipher, iv)?;
    refuse_compression(flag)?;
    let kdf = Kdf::Aes { rounds, seed };
    match check_kdf(&kdf) {
        Ok(()) => {
            let settings = Settings {
                version: FileVersion::V31,
                cipher,
                kdf,
                public: None,
            };
            Ok((settings, iv))
        }
        Err(fail) => {
            drop(kdf);
            Err(fail.into())
        }
    }
}

// What the fields of a header of version 4 give.
#[tactic(auto, unfolding(crate::specs::Settings::checked_header_4))]
fn checked_header_4(
    alloc: Global,
    version: FileVersion,
    found: &HeaderFields,
) -> Result<CheckedHeader, FrameFail>
    requires version { IsVersion4 version }
    requires public { HasSmall found.now.public }
    ensures gives { Returns meaning_of checked_header_seen result
        (checked_header_4 version (header_fields_seen found.now)) }
    ensures in_order { IfOk result (λ h. IsInOrder h.settings) }
    ensures version { IfOk result (λ h. h.settings.version ≡ version) }
{
    let id = required(2, found.cipher)?;
    let flag = required(3, found.compression)?;
    let seed = required(4, found.seed)?;
    let iv = required(7, found.iv)?;
    let described = required(11, found.kdf)?;
    match settings_and_iv(alloc, version, id, flag, iv, described, found.public) {
        Ok(given) => {
            let (settings, iv) = given;
            Ok(CheckedHeader {
                settings,
                seed,
                iv,
                stream_id: 0,
                stream_key: Bytes::new(alloc),
                start: [0; 32],
            })
        }
        Err(fail) => Err(fail),
    }
}

// A header of version 3.1 of these settings and this IV, with the key of its inner stream in memory
// of its own.
fn header_31(
    alloc: Global,
    given: (Settings, [u8; 16]),
    seed: [u8; 32],
    stream_key: &[u8],
    start: [u8; 32],
    stream_id: u32,
) -> Result<CheckedHeader, FrameFail>
    ensures gives { Returns meaning_of checked_header_seen result (Ok (record {
      settings = given.0;
      seed = seed;
      iv = given.1;
      stream_id = stream_id;
      stream_key = stream_key.now;
      start = start;
    })) }
    ensures settings { IfOk result (λ h. h.settings ≡ given.0) }
{
    let (settings, iv) = given;
    match copy_of(alloc, stream_key) {
        Ok(stream_key) => Ok(CheckedHeader {
            settings,
            seed,
            iv,
            stream_id,
            stream_key,
            start,
        }),
        Err(fail) => {
            drop(settings);
            Err(fail)
        }
    }
}

// What the fields of a header of version 3.1 give.
#[tactic(auto, unfolding(crate::specs::Settings::checked_header_31))]
fn checked_header_31(alloc: Global, found: &HeaderFields) -> Result<CheckedHeader, FrameFail>
    ensures gives { Returns meaning_of checked_header_seen result
        (checked_header_31 (header_fields_seen found.now)) }
    ensures in_order { IfOk result (λ h. IsInOrder h.settings) }
    ensures version { IfOk result (λ h. h.settings.version ≡ V31) }
{
    let id = required(2, found.cipher)?;
    let flag = required(3, found.compression)?;
    let seed = required(4, found.seed)?;
    let kdf_seed = required(5, found.kdf_seed)?;
    let rounds = required(6, found.rounds)?;
    let iv = required(7, found.iv)?;
    let stream_key = required(8, found.stream_key)?;
    let start = required(9, found.start)?;
    let stream_id = required(10, found.stream_id)?;
    match settings_and_iv_31(id, flag, iv, rounds, kdf_seed) {
        Ok(given) => header_31(alloc, given, seed, stream_key, start, stream_id),
        Err(fail) => Err(fail),
    }
}

/// What the fields of a header of this version give. The refusals are FieldMissing, CipherUnknown,
/// FieldLength of the IV, Compressed, KdfUnknown, Variant and KdfLimit, the first in this order.
pub fn checked_header(
    alloc: Global,
    version: FileVersion,
    found: HeaderFields,
) -> Result<CheckedHeader, FrameFail>
    requires { HasSmall found.public }
    ensures gives { Returns meaning_of checked_header_seen result
        (checked_header version (header_fields_seen found.entry)) }
    ensures in_order { IfOk result (λ h. IsInOrder h.settings) }
    ensures version { IfOk result (λ h. h.settings.version ≡ version) }
{
    match version {
        FileVersion::V31 => checked_header_31(alloc, &found),
        FileVersion::V40 | FileVersion::V41 => checked_header_4(alloc, version, &found),
    }
}
