//! The header of a file.

ghost use Rattle.std.specs.Prelude.{ℕ, List, ◌≡◌, ◌+◌, ◌-◌, ◌≤◌, ◌<◌, ◌^◌, IfOk, Ok, length, take};
ghost use Rattle.outside_core.specs.Results.{Returns};
ghost use Rattle.kdbx_parts.specs.Results.{meaning_of};
ghost use Rattle.kdbx_frame.specs.Fields.{header_limit};
ghost use Rattle.kdbx_frame.specs.Header.{check_hash, check_sums, header_at, header_of, sums_len, version_and_rest, version_of, with_size};
ghost use Rattle.kdbx_frame.specs.Seen.{HasSmall, checked_header_seen, header_fields_seen};
ghost use Rattle.kdbx_frame.specs.Settings.{IsInOrder, checked_header};

use crate::fields::{HeaderFields, fields_from};
use crate::settings::{CheckedHeader, Settings, checked_header};
use kdbx_parts::{FrameFail, array_of, out_of_bounds, same, split_bytes, u32_of};
use outside_core::Bytes;
use sha2::{Digest, Sha256};
use std::alloc::Global;
use vault_model::FileVersion;

/// How many bytes a file may have.
pub const FILE_LIMIT: u64 = 134_217_728;

/// How many bytes of a file its header may reach into, in version 4 with its hash and its HMAC.
pub const HEADER_LIMIT: usize = 65_536;

/// The bytes that a file begins with.
const SIGNATURE: [u8; 8] = [0x03, 0xD9, 0xA2, 0x9A, 0x67, 0xFB, 0x4B, 0xB5];

/// Version 3.1.
const VERSION_31: u32 = 0x0003_0001;

/// Version 4.0.
const VERSION_40: u32 = 0x0004_0000;

/// Version 4.1.
const VERSION_41: u32 = 0x0004_0001;

/// A header that was read: the settings, and what it takes beside them to open the file.
#[derive(Drop)]
pub struct Header {
    /// What the user chose.
    pub settings: Settings,
    /// The master seed, which the file's keys are made from.
    pub seed: [u8; 32],
    /// The IV of the cipher. A nonce of ChaCha20 is the first 12 bytes, and the rest is 0.
    pub iv: [u8; 16],
    /// The inner stream of a file of version 3.1; 0 in version 4, whose inner fields have it.
    pub stream_id: u32,
    /// The key of the inner stream of a file of version 3.1; empty in version 4.
    pub stream_key: Bytes,
    /// The bytes that a deciphered file of version 3.1 begins with; 0 in version 4.
    pub start: [u8; 32],
    /// The header's length in bytes, up to what follows its last field.
    pub size: usize,
}

// The version of a number.
fn version_of(number: u32) -> Result<FileVersion, FrameFail>
    ensures { Returns meaning_of (λ x. x) result (version_of number) }
{
    if number == VERSION_31 {
        Ok(FileVersion::V31)
    } else if number == VERSION_40 {
        Ok(FileVersion::V40)
    } else if number == VERSION_41 {
        Ok(FileVersion::V41)
    } else {
        Err(FrameFail::Version(number))
    }
}

// The version, which follows the signature, and the bytes after it.
fn version_and_rest(size: u64, text: &[u8]) -> Result<(FileVersion, &[u8]), FrameFail>
    ensures gives { Returns meaning_of (λ x. (x.0, x.1.now)) result
        (version_and_rest size text.now) }
    ensures shorter { IfOk result (λ x. length x.1.now ≤ length text.now) }
{
    let (signature, rest) = split_bytes(FrameFail::NotKdbx, SIGNATURE.len(), text)?;
    if !same(signature, &SIGNATURE) {
        return Err(FrameFail::NotKdbx);
    }
    let (number, rest) = split_bytes(out_of_bounds(size, 12), 4, rest)?;
    let version = version_of(u32_of(number))?;
    Ok((version, rest))
}

// Checks that the hash after a header is its SHA-256, and that 32 bytes of an HMAC follow the hash.
fn check_hash(size: u64, header: &[u8], rest: &[u8]) -> Result<(), FrameFail>
    requires { length header.now < 2 ^ 62 }
    ensures gives { Returns meaning_of (λ x. x) result (check_hash size header.now rest.now) }
    ensures within { IfOk result (λ _. 64 ≤ length rest.now) }
{
    let end = header.len() as u64;
    let (kept, rest) = split_bytes(out_of_bounds(size, end + 32), 32, rest)?;
    split_bytes(out_of_bounds(size, end + 64), 32, rest)?;
    let found = Sha256::digest(header);
    if !same(kept, &found) {
        return Err(FrameFail::HeaderHash {
            kept: array_of(kept),
            found,
        });
    }
    Ok(())
}

/// How many bytes of hash and HMAC follow a header of a version.
pub fn sums_len(version: FileVersion) -> usize
    ensures value { result ≡ sums_len version }
    ensures limit { result ≤ 64 }
{
    match version {
        FileVersion::V31 => 0,
        FileVersion::V40 | FileVersion::V41 => 64,
    }
}

// Checks what must follow a header of a version: in version 4 its hash and an HMAC.
fn check_sums(version: FileVersion, size: u64, header: &[u8], rest: &[u8]) -> Result<(), FrameFail>
    requires { length header.now < 2 ^ 62 }
    ensures gives { Returns meaning_of (λ x. x) result
        (check_sums version size header.now rest.now) }
    ensures within { IfOk result (λ _. sums_len version ≤ length rest.now) }
{
    match version {
        FileVersion::V31 => Ok(()),
        FileVersion::V40 | FileVersion::V41 => check_hash(size, header, rest),
    }
}

// The header that its fields give, with its size.
fn with_size(checked: CheckedHeader, size: usize) -> Header
    ensures { result ≡ with_size (checked_header_seen checked) size }
{
    let CheckedHeader {
        settings,
        seed,
        iv,
        stream_id,
        stream_key,
        start,
    } = checked;
    Header {
        settings,
        seed,
        iv,
        stream_id,
        stream_key,
        start,
        size,
    }
}

// The length of a header, by what is left after its fields. What must follow the header is checked.
fn checked_len(
    version: FileVersion,
    size: u64,
    text: &[u8],
    rest: &[u8],
) -> Result<usize, FrameFail>
    requires limit { length text.now ≤ header_limit }
    requires shorter { length rest.now ≤ length text.now }
    ensures gives { Returns meaning_of (λ _. tt) result
        (check_sums version size (take (length text.now - length rest.now) text.now) rest.now) }
    ensures len { IfOk result (λ len. len ≡ length text.now - length rest.now) }
    ensures within { IfOk result (λ len. len + sums_len version ≤ length text.now) }
{
    let len = text.len() - rest.len();
    check_sums(version, size, &text[..len], rest)?;
    Ok(len)
}

// The header of a version that its fields give, with its size.
fn sized_header(
    alloc: Global,
    version: FileVersion,
    found: HeaderFields,
    size: usize,
) -> Result<Header, FrameFail>
    requires { HasSmall found.public }
    ensures gives { Returns meaning_of (λ h. record {
      settings = h.settings;
      seed = h.seed;
      iv = h.iv;
      stream_id = h.stream_id;
      stream_key = h.stream_key;
      start = h.start;
    }) result (checked_header version (header_fields_seen found.entry)) }
    ensures in_order { IfOk result (λ h. IsInOrder h.settings) }
    ensures version { IfOk result (λ h. h.settings.version ≡ version) }
    ensures size { IfOk result (λ h. h.size ≡ size) }
{
    match checked_header(alloc, version, found) {
        Ok(checked) => Ok(with_size(checked, size)),
        Err(fail) => Err(fail),
    }
}

// The header at the start of these bytes, with which a file of this size begins.
#[tactic(auto, unfolding(crate::specs::Header::header_at))]
fn header_at(alloc: Global, size: u64, text: &[u8]) -> Result<Header, FrameFail>
    requires { length text.now ≤ header_limit }
    ensures gives { Returns meaning_of (λ x. x) result (header_at size text.now) }
    ensures in_order { IfOk result (λ h. IsInOrder h.settings) }
    ensures within { IfOk result (λ h. h.size + sums_len h.settings.version ≤ length text.now) }
{
    let (version, rest) = version_and_rest(size, text)?;
    match fields_from(version, size, text.len(), rest) {
        Ok(read) => {
            let len = checked_len(version, size, text, read.rest)?;
            sized_header(alloc, version, read.found, len)
        }
        Err(fail) => Err(fail),
    }
}

// The bytes of a file that its header may reach into.
fn prefix(text: &[u8]) -> &[u8]
    ensures value { result.now ≡ take header_limit text.now }
    ensures limit { length result.now ≤ header_limit }
    ensures within { length result.now ≤ length text.now }
{
    if text.len() < HEADER_LIMIT {
        text
    } else {
        &text[..HEADER_LIMIT]
    }
}

/// Reads the header of a file of `file_len` bytes from the file's first 65,536 bytes, or from all
/// of them.
///
/// The refusals are those of FrameFail in their order; of Truncated, TooLarge, FieldTwice,
/// FieldLength and Dictionary the first from the left comes. The hash of a header of version 4 is
/// checked here. The HMAC is not: its 32 bytes follow the hash, and who has the key checks them. A
/// file of version 3.1 has neither; its document may keep the header's hash. The layout is that of
/// KeePass's documentation of KDBX 3.1 and 4.
///
/// A text of fewer bytes is the whole file, and the answer is that of every file of this length
/// that the text is a prefix of.
pub fn read_header(alloc: Global, text: &[u8], file_len: u64) -> Result<Header, FrameFail>
    requires enough { length text.now < header_limit → length text.now ≡ file_len }
    ensures gives { Returns meaning_of (λ x. x) result
        (header_at file_len (take header_limit text.now)) }
    ensures file { (file : List ℕ) → length file ≡ file_len
        → text.now ≡ take (length text.now) file
        → Returns meaning_of (λ x. x) result (header_of file) }
    ensures in_order { IfOk result (λ h. IsInOrder h.settings) }
    ensures within { IfOk result (λ h. h.size + sums_len h.settings.version ≤ length text.now) }
    ensures limit { IfOk result (λ h. h.size + sums_len h.settings.version ≤ header_limit) }
{
    header_at(alloc, file_len, prefix(text))
}
