//! Bytes that the words of a question stand for.

use crate::question::{Fault, NOT_SPELLED, Question};
use sha2::{Digest, Sha256};
use std::alloc::Global;

// The pieces that headers are composed of, in hexadecimal: signature, version, fields, the
// dictionary's version, its items and its end, and 32 bytes in the place of an HMAC. A field is its
// id, its length and its content. The length has four bytes, and two in the fields of version 3.1,
// whose names begin with `3-`.
const PIECES: &str = "sig 03d9a29a67fb4bb5
v40 00000400
v41 01000400
aes 021000000031c1f2e6bf714350be5805216afc5aff
twofish 0210000000ad68f29f576f4bb9a36ad47af965346c
chacha 0210000000d6038a2b8b6f4cb5a524339a31dbb59a
enigma 021000000001010101010101010101010101010101
plain 030400000000000000
zip 030400000001000000
seed 04200000000202020202020202020202020202020202020202020202020202020202020202
iv16 071000000003030303030303030303030303030303
iv12 070c000000040404040404040404040404
end 00040000000d0a0d0a
mac 7777777777777777777777777777777777777777777777777777777777777777
v31 01000300
3-aes 02100031c1f2e6bf714350be5805216afc5aff
3-chacha 021000d6038a2b8b6f4cb5a524339a31dbb59a
3-plain 03040000000000
3-zip 03040001000000
3-seed 042000202122232425262728292a2b2c2d2e2f303132333435363738393a3b3c3d3e3f
3-kdf-seed 052000000102030405060708090a0b0c0d0e0f101112131415161718191a1b1c1d1e1f
3-rounds 0608006400000000000000
3-iv16 071000404142434445464748494a4b4c4d4e4f
3-iv12 070c00404142434445464748494a4b
3-key 082000505152535455565758595a5b5c5d5e5f606162636465666768696a6b6c6d6e6f
3-start 092000707172737475767778797a7b7c7d7e7f808182838485868788898a8b8c8d8e8f
3-stream 0a040002000000
3-end 0004000d0a0d0a
v1 0001
u-aes 4205000000245555494410000000c9d9f39a628a4460bf740d08c18a4fea
u-aes4 42050000002455554944100000007c02bb8279a74ac0927d114a00648238
u-d 4205000000245555494410000000ef636ddf8c29444b91f7a9a403e30a0c
u-id 42050000002455554944100000009e298b1956db4773b23dfc3ec6f0a1e6
u-odd 420500000024555549441000000009090909090909090909090909090909
r 050100000052080000006400000000000000
s 420100000053200000000505050505050505050505050505050505050505050505050505050505050505
p 0401000000500400000002000000
m 05010000004d080000000000100000000000
i 050100000049080000000300000000000000
v 0401000000560400000013000000
0 00";

// The digits of the piece of this name, or the word itself.
fn digits_of(word: &str) -> &str {
    for line in PIECES.lines() {
        if let Some((name, digits)) = line.split_once(" ") {
            if name == word {
                return digits;
            }
        }
    }
    word
}

// Adds the bytes of hexadecimal digits.
fn put_decoded(alloc: Global, out: &mut Vec<u8>, digits: &str) -> Result<(), Fault> {
    match hex::decode(alloc, digits) {
        Ok(bytes) => Ok(out.extend_from_slice(&bytes)?),
        Err(_) => Err(NOT_SPELLED),
    }
}

// Adds this many bytes 0.
fn put_zeros(out: &mut Vec<u8>, count: &str) -> Result<(), Fault> {
    let Ok(count) = count.parse::<u32>() else {
        return Err(NOT_SPELLED);
    };
    for _ in 0..count {
        out.extend_from_slice(&[0])?;
    }
    Ok(())
}

// Adds the SHA-256 of the bytes so far.
fn put_hash(out: &mut Vec<u8>) -> Result<(), Fault> {
    let hash = Sha256::digest(out.as_slice());
    Ok(out.extend_from_slice(&hash)?)
}

// Adds what one word stands for.
fn put_word(alloc: Global, out: &mut Vec<u8>, word: &str) -> Result<(), Fault> {
    match word {
        "-" => Ok(()),
        "#" => put_hash(out),
        _ => match word.strip_prefix("*") {
            Some(count) => put_zeros(out, count),
            None => put_decoded(alloc, out, digits_of(word)),
        },
    }
}

// Adds the field of the dictionary.
fn put_dictionary(out: &mut Vec<u8>, content: &[u8]) -> Result<(), Fault> {
    let Ok(len) = u32::try_from(content.len()) else {
        return Err(NOT_SPELLED);
    };
    out.extend_from_slice(&[11])?;
    out.extend_from_slice(&len.to_le_bytes())?;
    Ok(out.extend_from_slice(content)?)
}

// Adds what the words of a question stand for. The content of a dictionary is gathered on its own.
fn put_words(
    alloc: Global,
    out: &mut Vec<u8>,
    dictionary: &mut Vec<u8>,
    question: &Question<'_>,
) -> Result<(), Fault> {
    let mut inside = false;
    for index in 1..question.len() {
        match question.word(index) {
            "[" => inside = true,
            "]" => {
                inside = false;
                put_dictionary(out, dictionary.as_slice())?;
                dictionary.clear();
            }
            word if inside => put_word(alloc, dictionary, word)?,
            word => put_word(alloc, out, word)?,
        }
    }
    Ok(())
}

/// The bytes that the words after a question's name stand for: pieces by their names, hexadecimal
/// digits, `[` and `]` around the content of the field of the dictionary, `*N` for N bytes 0, `#`
/// for the SHA-256 of all bytes so far, and `-` for none.
pub fn bytes_of(alloc: Global, question: &Question<'_>) -> Result<Vec<u8>, Fault> {
    let mut out = Vec::new(alloc);
    let mut dictionary = Vec::new(alloc);
    match put_words(alloc, &mut out, &mut dictionary, question) {
        Ok(()) => Ok(out),
        Err(fault) => Err(fault),
    }
}
