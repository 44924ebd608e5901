//! Does the work that `bench/primitives`, `bench/key` and `bench/markup` time. Its arguments are
//! pairs: a primitive and how many pieces of a MiB it goes over, or `markup` and a document that is
//! read to its end. For each pair it prints the first bytes of what was made, or how many pieces of
//! markup there are, so that the work can be compared.
#![tactic(auto)]

ghost use Rattle.std.specs.Prelude.{◌≡◌, ◌%◌, ◌≤◌, ◌^◌, length};

use argon_core::{ArgonKind, ArgonParams, argon2};
use block_core::{Aes256, Block16, Twofish256, cbc_decrypt, cbc_encrypt};
use key_core::{Kdf, check_kdf, transform};
use mac_core::{BlockWriter, Hmac256};
use markup_core::{Piece, Reader};
use secret_core::{Key, Key64};
use std::alloc::AllocGlobal;
use std::process::ExitCode;
use std::rt::Files;
use std::{env, fs};
use stream_core::{ChaCha20, Salsa20};

/// The length of a piece.
const PIECE: usize = 1_048_576;

/// The length of a quarter of it.
const QUARTER: usize = 262_144;

/// The rounds of a turn of the transformation of a key by AES.
const ROUNDS: u64 = 100_000;

/// The bytes of every key.
const KEY: [u8; 32] = [7; 32];

// Enciphers the text as often as asked.
fn encrypt<B: Block16>(cipher: &B, text: &mut [u8], turns: u32)
    requires { length text.old % 16 ≡ 0 }
{
    for _ in 0..turns {
        cbc_encrypt(cipher, &[0; 16], text);
    }
}

// Deciphers the text as often as asked.
fn decrypt<B: Block16>(cipher: &B, text: &mut [u8], turns: u32)
    requires { length text.old % 16 ≡ 0 }
{
    for _ in 0..turns {
        cbc_decrypt(cipher, &[0; 16], text);
    }
}

// XORs the text with the stream of ChaCha20 as often as asked, each time from its start.
fn chacha(text: &mut [u8], turns: u32)
    requires { length text.old ≤ 2 ^ 38 }
{
    for _ in 0..turns {
        ChaCha20::new(&KEY, &[0; 12]).apply(text);
    }
}

// The same with Salsa20.
fn salsa(text: &mut [u8], turns: u32)
    requires { length text.old ≤ 2 ^ 38 }
{
    for _ in 0..turns {
        Salsa20::new(&KEY, &[0; 8]).apply(text);
    }
}

// Writes a digest at the start of the text.
fn put(text: &mut [u8], digest: &[u8; 32]) {
    for (place, byte) in text.iter_mut().zip(digest) {
        *place = *byte;
    }
}

// The MAC of as many pieces as asked, at the start of the text.
fn hmac(text: &mut [u8], turns: u32) {
    let mut code = Hmac256::new(&KEY);
    for _ in 0..turns {
        code.update(text);
    }
    put(text, &code.finish());
}

// The heads of four blocks whose contents are the quarters of the piece, as often as asked; the last
// at the start of the text.
fn four_heads(text: &mut [u8], turns: u32)
    requires { length text.old ≡ 1048576 }
{
    let mut base = Key64::of(&[7; 64]);
    let mut last = [0; 32];
    for _ in 0..turns {
        let (a, rest) = text.split_at(QUARTER);
        let (b, rest) = rest.split_at(QUARTER);
        let (c, d) = rest.split_at(QUARTER);
        let heads = BlockWriter::new(&base).four_heads(a, b, c, d);
        last.copy_from_slice(&heads[3][..32]);
    }
    base.clear();
    base.release();
    put(text, &last);
}

// Argon2 with 64 MiB, as many passes as asked, and 2 lanes, its tag at the start of the text.
fn argon(rt: &impl AllocGlobal, kind: ArgonKind, text: &mut [u8], turns: u32) {
    let params = ArgonParams {
        passes: turns,
        kib: 65_536,
        lanes: 2,
    };
    if let Ok(mut tag) = argon2(
        rt.alloc(),
        kind,
        &params,
        b"password",
        b"somesaltsomesalt",
        b"",
        b"",
    ) {
        put(text, tag.bytes());
        tag.clear();
        tag.release();
    }
}

// Transforms a key by AES, with the rounds of as many turns as asked, to the start of the text.
fn transform_by_aes(rt: &impl AllocGlobal, text: &mut [u8], turns: u32) {
    let kdf = Kdf::Aes {
        rounds: turns as u64 * ROUNDS,
        seed: KEY,
    };
    let Ok(()) = check_kdf(&kdf) else {
        return;
    };
    let mut key = Key::of(&KEY);
    let transformed = transform(rt.alloc(), &key, &kdf);
    key.clear();
    key.release();
    if let Ok(mut transformed) = transformed {
        put(text, transformed.bytes());
        transformed.clear();
        transformed.release();
    }
}

// Does the work of this name over one piece; false where there is none of the name, or the text is
// no piece.
fn work(rt: &impl AllocGlobal, name: &str, text: &mut [u8], turns: u32) -> bool {
    if text.len() != PIECE {
        return false;
    }
    let mut key = Key::of(&KEY);
    let aes = Aes256::new(&key);
    let twofish = Twofish256::new(&key);
    key.clear();
    key.release();
    match name {
        "aes-encrypt" => encrypt(&aes, text, turns),
        "aes-decrypt" => decrypt(&aes, text, turns),
        "twofish-encrypt" => encrypt(&twofish, text, turns),
        "twofish-decrypt" => decrypt(&twofish, text, turns),
        "chacha20" => chacha(text, turns),
        "salsa20" => salsa(text, turns),
        "hmac" => hmac(text, turns),
        "four-heads" => four_heads(text, turns),
        "aes-transform" => transform_by_aes(rt, text, turns),
        "argon2d" => argon(rt, ArgonKind::D, text, turns),
        "argon2id" => argon(rt, ArgonKind::Id, text, turns),
        _ => return false,
    }
    true
}

// Does the work of this name over as many pieces as asked, and prints the first bytes of what was
// made; false where there is none of the name.
fn compute(rt: &(impl AllocGlobal + Print), name: &str, turns: u32) -> anyhow::Result<bool> {
    let mut text = vec![in rt.alloc(); 0; PIECE]?;
    if !work(rt, name, &mut text, turns) {
        return Ok(false);
    }
    for byte in text.iter().take(16) {
        print!(rt; "{byte:02x}")?;
    }
    println!(rt;)?;
    Ok(true)
}

// How many pieces of markup the text has; none where it is none of the grammar.
fn piece_count(text: &[u8]) -> Option<usize> {
    let mut reader = Reader::new(text);
    for pieces in 0..text.len() {
        match reader.next() {
            Ok(Piece::Finish) => return Some(pieces),
            Ok(_) => {}
            Err(_) => return None,
        }
    }
    None
}

// Reads the document of this name to its end, and prints how many pieces of markup it has; false
// where it is malformed.
fn read(rt: &(impl AllocGlobal + Files + Print), name: &str) -> anyhow::Result<bool> {
    let text = fs::read(rt, name)?;
    let Some(pieces) = piece_count(text.as_slice()) else {
        return Ok(false);
    };
    println!(rt; "{pieces}")?;
    Ok(true)
}

// Does the work of a pair of words; false where there is none of the name, or the document is
// malformed.
fn perform(rt: &(impl AllocGlobal + Files + Print), name: &str, of: &str) -> anyhow::Result<bool> {
    match name {
        "markup" => read(rt, of),
        _ => compute(rt, name, of.parse::<u32>()?),
    }
}

fn main(rt: HostRuntime) -> anyhow::Result<ExitCode> {
    let words: Vec<String> = env::args(&rt)?.skip(1).collect(rt.alloc())?;
    if words.is_empty() {
        println!(rt; "usage: bench_primitives (NAME TURNS | markup FILE)...")?;
        return Ok(ExitCode::from(1));
    }
    for pair in words.chunks(2) {
        let [name, of] = pair else {
            println!(rt; "a word is missing")?;
            return Ok(ExitCode::from(1));
        };
        if !perform(&rt, name.as_str(), of.as_str())? {
            println!(rt; "no work of this name, or a malformed document")?;
            return Ok(ExitCode::from(1));
        }
    }
    Ok(ExitCode::SUCCESS)
}
