//! The keys of a vault file.

ghost use Rattle.std.specs.Prelude.{◌≡◌};

use crate::question::{Fault, NO_MEMORY, NO_QUESTION, Question};
use crate::refusals::kdf_refusal;
use crate::spelling::put_digits;
use key_core::{
    ArgonKind, FileKeys, Kdf, KeyFileFail, check_kdf, composite, file_keys, read_key_file,
    transform,
};
use outside_core::Bytes;
use secret_core::Key;
use std::alloc::Global;

/// What a question about keys computes; this is its name.
pub fn computed(alloc: Global, name: &str, question: &Question<'_>) -> Result<String, Fault> {
    match name {
        "composite-key" => composite_key(alloc, question),
        "key-file" => key_of_file(alloc, question),
        "limits-of-aes" => limits(alloc, &aes_kdf(question, 1)?),
        "limits-of-argon2" => limits(alloc, &argon_kdf(alloc, ArgonKind::Id, question, 1)?),
        "key-transformed-by-aes" => transformed(alloc, question, &aes_kdf(question, 2)?),
        "key-transformed-by-argon2d" => {
            transformed(
                alloc,
                question,
                &argon_kdf(alloc, ArgonKind::D, question, 2)?,
            )
        }
        "key-transformed-by-argon2id" => {
            transformed(
                alloc,
                question,
                &argon_kdf(alloc, ArgonKind::Id, question, 2)?,
            )
        }
        "file-keys" => keys_of_file(alloc, question),
        _ => Err(NO_QUESTION),
    }
}

/// The digits of a key, which is spent.
pub fn spent(alloc: Global, mut key: Key) -> Result<String, Fault> {
    let digits = hex::encode(alloc, key.bytes());
    key.clear();
    key.release();
    Ok(digits?)
}

// The composite key: password, key of the key file; `none` stands for one that is missing.
fn composite_key(alloc: Global, question: &Question<'_>) -> Result<String, Fault> {
    if question.word(1) == "none" {
        let key: [u8; 32] = question.array(2)?;
        return spent(alloc, composite(None, Some(Key::of(&key))));
    }
    let password = question.bytes(alloc, 1)?;
    composite_of(alloc, &password, question)
}

// The composite key of this password and of the key of the key file, if there is one.
fn composite_of(alloc: Global, password: &[u8], question: &Question<'_>) -> Result<String, Fault> {
    if question.word(2) == "none" {
        return spent(alloc, composite(Some(password), None));
    }
    let key: [u8; 32] = question.array(2)?;
    spent(alloc, composite(Some(password), Some(Key::of(&key))))
}

// The key of a key file, or why it has none: the file's bytes.
fn key_of_file(alloc: Global, question: &Question<'_>) -> Result<String, Fault> {
    let file = question.bytes(alloc, 1)?;
    match read_key_file(alloc, &file) {
        Ok(key) => spent(alloc, key),
        Err(fail) => refusal_of_file(alloc, fail),
    }
}

// Why a key file has no key.
fn refusal_of_file(alloc: Global, fail: KeyFileFail) -> Result<String, Fault> {
    match fail {
        KeyFileFail::KeyFileForm(offset) => Ok(format!(in alloc; "no form at {offset}")?),
        KeyFileFail::KeyFileHash { kept, found } => wrong_hash(alloc, &kept, &found),
        KeyFileFail::NoMemory => Err(NO_MEMORY),
    }
}

// The hash that a key file has and the one that it should have.
fn wrong_hash(alloc: Global, kept: &[u8], found: &[u8]) -> Result<String, Fault> {
    let mut out = String::from_str(alloc, "hash")?;
    put_digits(alloc, &mut out, kept)?;
    out.push_str(", found")?;
    put_digits(alloc, &mut out, found)?;
    Ok(out)
}

// AES with the rounds and the seed that begin at this word.
fn aes_kdf(question: &Question<'_>, index: usize) -> Result<Kdf, Fault> {
    Ok(Kdf::Aes {
        rounds: question.number(index)?,
        seed: question.array(index.saturating_add(1))?,
    })
}

// Argon2 with the passes, bytes of memory, lanes and salt that begin at this word.
fn argon_kdf(
    alloc: Global,
    kind: ArgonKind,
    question: &Question<'_>,
    index: usize,
) -> Result<Kdf, Fault> {
    let passes = question.number(index)?;
    let bytes = question.number(index.saturating_add(1))?;
    let lanes = question.short_number(index.saturating_add(2))?;
    let text = question.bytes(alloc, index.saturating_add(3))?;
    let mut salt = Bytes::new(alloc);
    let Ok(()) = salt.add(&text) else {
        return Err(NO_MEMORY);
    };
    Ok(Kdf::Argon {
        kind,
        passes,
        bytes,
        lanes,
        salt,
    })
}

// Whether all numbers of a key derivation function are allowed, or the first that is not.
fn limits(alloc: Global, kdf: &Kdf) -> Result<String, Fault> {
    match check_kdf(kdf) {
        Ok(()) => Ok(String::from_str(alloc, "allowed")?),
        Err(fail) => kdf_refusal(alloc, fail),
    }
}

// The transformed key: key, and what the function takes.
fn transformed(alloc: Global, question: &Question<'_>, kdf: &Kdf) -> Result<String, Fault> {
    if let Err(_) = check_kdf(kdf) {
        return Err(Fault::BadWord(2));
    }
    let mut key = Key::of(&question.array(1)?);
    let transformed = transform(alloc, &key, kdf);
    key.clear();
    key.release();
    match transformed {
        Ok(key) => spent(alloc, key),
        Err(_) => Err(NO_MEMORY),
    }
}

// The digits of a file's keys, cipher key and MAC base, which are lent.
fn digits(alloc: Global, keys: &FileKeys) -> Result<String, Fault> {
    let mut digits = hex::encode(alloc, keys.cipher.bytes())?;
    put_digits(alloc, &mut digits, keys.base.bytes())?;
    Ok(digits)
}

// The keys of a file, cipher key and MAC base: transformed key, master seed.
fn keys_of_file(alloc: Global, question: &Question<'_>) -> Result<String, Fault> {
    let transformed: [u8; 32] = question.array(1)?;
    let seed: [u8; 32] = question.array(2)?;
    let mut keys = file_keys(Key::of(&transformed), &seed);
    let digits = digits(alloc, &keys);
    keys.clear();
    keys.release();
    digits
}
