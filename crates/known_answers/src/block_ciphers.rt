//! Block ciphers, their chaining and the padding of blocks.

ghost use Rattle.std.specs.Prelude.{◌≡◌, ◌%◌, length};

use crate::question::{Fault, NOT_UNDONE, Question};
use crate::refusals::named;
use crate::spelling::decimal;
use block_core::{
    Aes256, BadPadding, Block16, Twofish256, cbc_decrypt, cbc_encrypt, pad_len, unpad,
};
use secret_core::Key;
use std::alloc::Global;

// The cipher of AES under the key that is the first word after the name.
fn aes_of(question: &Question<'_>) -> Result<Aes256, Fault> {
    let mut key = Key::of(&question.array(1)?);
    let cipher = Aes256::new(&key);
    key.clear();
    key.release();
    Ok(cipher)
}

// The same of Twofish.
fn twofish_of(question: &Question<'_>) -> Result<Twofish256, Fault> {
    let mut key = Key::of(&question.array(1)?);
    let cipher = Twofish256::new(&key);
    key.clear();
    key.release();
    Ok(cipher)
}

// The second word as a block, enciphered; deciphered again it must be the same.
fn enciphered<B: Block16>(
    alloc: Global,
    cipher: &B,
    question: &Question<'_>,
) -> Result<String, Fault> {
    let plain: [u8; 16] = question.array(2)?;
    let mut block = plain;
    cipher.encrypt(&mut block);
    let enciphered = hex::encode(alloc, &block)?;
    cipher.decrypt(&mut block);
    if block != plain {
        return Err(NOT_UNDONE);
    }
    Ok(enciphered)
}

// The third word's blocks enciphered by chaining from the second on; deciphered again they must be
// the same.
fn chained<B: Block16>(
    alloc: Global,
    cipher: &B,
    question: &Question<'_>,
) -> Result<String, Fault> {
    let iv: [u8; 16] = question.array(2)?;
    let plain = question.bytes(alloc, 3)?;
    let mut text = plain.clone()?;
    if text.len() % 16 != 0 {
        return Err(Fault::BadWord(3));
    }
    cbc_encrypt(cipher, &iv, &mut text);
    let enciphered = hex::encode(alloc, text.as_slice())?;
    if text.len() % 16 != 0 {
        return Err(NOT_UNDONE);
    }
    cbc_decrypt(cipher, &iv, &mut text);
    if text != plain {
        return Err(NOT_UNDONE);
    }
    Ok(enciphered)
}

/// A block under AES-256: key, block.
pub fn aes(alloc: Global, question: &Question<'_>) -> Result<String, Fault> {
    enciphered(alloc, &aes_of(question)?, question)
}

/// Chained blocks under AES-256: key, initialization vector, text.
pub fn chained_aes(alloc: Global, question: &Question<'_>) -> Result<String, Fault> {
    chained(alloc, &aes_of(question)?, question)
}

/// A block under Twofish with a key of 256 bits: key, block.
pub fn twofish(alloc: Global, question: &Question<'_>) -> Result<String, Fault> {
    enciphered(alloc, &twofish_of(question)?, question)
}

/// Chained blocks under Twofish with a key of 256 bits: key, initialization vector, text.
pub fn chained_twofish(alloc: Global, question: &Question<'_>) -> Result<String, Fault> {
    chained(alloc, &twofish_of(question)?, question)
}

/// How many bytes of padding a text of this length is given.
pub fn padding_length(alloc: Global, question: &Question<'_>) -> Result<String, Fault> {
    let count = pad_len(question.short_number(1)? as usize);
    decimal(alloc, count as u64)
}

/// The length of a text without its padding.
pub fn unpadded_length(alloc: Global, question: &Question<'_>) -> Result<String, Fault> {
    match unpad(&question.bytes(alloc, 1)?) {
        Ok(len) => decimal(alloc, len as u64),
        Err(BadPadding) => named(alloc, "BadPadding"),
    }
}
