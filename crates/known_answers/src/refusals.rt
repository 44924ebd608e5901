//! Refusals in words: the name of the kind, and after it what it holds.

use crate::question::{Fault, NO_MEMORY};
use crate::spelling::put_digits;
use argon_core::ArgonFail;
use kdbx_frame::FrameFail;
use key_core::{KdfFail, KdfField};
use psafe_file::PsafeFail;
use std::alloc::Global;
use uuid_core::Uuid;

/// A kind that holds nothing.
pub fn named(alloc: Global, name: &str) -> Result<String, Fault> {
    Ok(String::from_str(alloc, name)?)
}

/// A kind that holds a number.
pub fn numbered(alloc: Global, name: &str, number: u64) -> Result<String, Fault> {
    Ok(format!(in alloc; "{name}({number})")?)
}

/// Why Argon2 is not computed.
pub fn argon_refusal(alloc: Global, fail: ArgonFail) -> Result<String, Fault> {
    match fail {
        ArgonFail::Passes(passes) => numbered(alloc, "Passes", u64::from(passes)),
        ArgonFail::Lanes(lanes) => numbered(alloc, "Lanes", u64::from(lanes)),
        ArgonFail::Kib(kib) => numbered(alloc, "Kib", u64::from(kib)),
        ArgonFail::Salt(length) => numbered(alloc, "Salt", length as u64),
        ArgonFail::NoMemory => Err(NO_MEMORY),
    }
}

/// Why the costs of a key derivation are not allowed.
pub fn kdf_refusal(alloc: Global, fail: KdfFail) -> Result<String, Fault> {
    match fail {
        KdfFail::KdfLimit(field, number) => limit_refusal(alloc, field, number),
        KdfFail::NoMemory => Err(NO_MEMORY),
    }
}

// The number of a key derivation that is out of its limits.
fn limit_refusal(alloc: Global, field: KdfField, number: u64) -> Result<String, Fault> {
    let name = field_name(field);
    Ok(format!(in alloc; "KdfLimit({name}, {number})")?)
}

// The name of a number of a key derivation.
fn field_name(field: KdfField) -> &'static str {
    match field {
        KdfField::Rounds => "Rounds",
        KdfField::Passes => "Passes",
        KdfField::Memory => "Memory",
        KdfField::Lanes => "Lanes",
        KdfField::Salt => "Salt",
    }
}

/// Why a header or inner fields are refused.
pub fn frame_refusal(alloc: Global, fail: FrameFail) -> Result<String, Fault> {
    match fail {
        FrameFail::NotKdbx => named(alloc, "NotKdbx"),
        FrameFail::Version(version) => numbered(alloc, "Version", u64::from(version)),
        FrameFail::Truncated(length) => numbered(alloc, "Truncated", length),
        FrameFail::TooLarge(end) => numbered(alloc, "TooLarge", end),
        FrameFail::FieldTwice(id) => numbered(alloc, "FieldTwice", u64::from(id)),
        FrameFail::FieldLength(id, length) => wrong_length(alloc, id, length),
        FrameFail::Dictionary(offset) => numbered(alloc, "Dictionary", offset),
        FrameFail::HeaderHash { kept, found } => wrong_hash(alloc, &kept, &found),
        FrameFail::FieldMissing(id) => numbered(alloc, "FieldMissing", u64::from(id)),
        FrameFail::CipherUnknown(id) => with_id(alloc, "CipherUnknown", &id),
        FrameFail::Compressed(flag) => numbered(alloc, "Compressed", u64::from(flag)),
        FrameFail::KdfUnknown(id) => with_id(alloc, "KdfUnknown", &id),
        FrameFail::Variant(number) => numbered(alloc, "Variant", number),
        FrameFail::KdfLimit(field, number) => limit_refusal(alloc, field, number),
        FrameFail::NoMemory => Err(NO_MEMORY),
    }
}

// The id of a field, and the length that it may not have.
fn wrong_length(alloc: Global, id: u8, length: u64) -> Result<String, Fault> {
    Ok(format!(in alloc; "FieldLength({id}, {length})")?)
}

// A kind that holds an id.
fn with_id(alloc: Global, name: &str, id: &Uuid) -> Result<String, Fault> {
    Ok(format!(in alloc; "{name}({id})")?)
}

// The hash that a header has and the one that it should have.
fn wrong_hash(alloc: Global, kept: &[u8; 32], found: &[u8; 32]) -> Result<String, Fault> {
    let mut out = String::from_str(alloc, "HeaderHash")?;
    put_digits(alloc, &mut out, kept)?;
    put_digits(alloc, &mut out, found)?;
    Ok(out)
}

/// Why a file of Password Safe is refused.
pub fn safe_refusal(alloc: Global, fail: PsafeFail) -> Result<String, Fault> {
    match fail {
        PsafeFail::NotPsafe => named(alloc, "NotPsafe"),
        PsafeFail::Truncated(length) => numbered(alloc, "Truncated", length),
        PsafeFail::IterLimit(times) => numbered(alloc, "IterLimit", u64::from(times)),
        PsafeFail::WrongPassword { kept, found } => unequal(alloc, "WrongPassword", &kept, &found),
        PsafeFail::FieldForm(place) => numbered(alloc, "FieldForm", place),
        PsafeFail::Mac { kept, found } => unequal(alloc, "Mac", &kept, &found),
        PsafeFail::NilId(record) => numbered(alloc, "NilId", record),
        PsafeFail::DuplicateId(id) => with_id(alloc, "DuplicateId", &id),
        PsafeFail::TooDeep(id) => with_id(alloc, "TooDeep", &id),
        PsafeFail::NoMemory => Err(NO_MEMORY),
    }
}

// A kind that holds the bytes that a file keeps and those that were found.
fn unequal(alloc: Global, name: &str, kept: &[u8; 32], found: &[u8; 32]) -> Result<String, Fault> {
    Ok(format!(in alloc; "{name} {{ kept: {kept:?}, found: {found:?} }}")?)
}
