//! BLAKE2b and Argon2.

ghost use Rattle.std.specs.Prelude.{◌≡◌, ◌≤◌, length};

use crate::keys::spent;
use crate::question::{Fault, Question};
use crate::refusals::argon_refusal;
use argon_core::{ArgonKind, ArgonParams, argon2, blake2b};
use std::alloc::Global;

// Writes the digest of a text that is hashed in two pieces, the first of this length, or of all
// where it is shorter.
fn put_digest(out: &mut [u8], text: &[u8], cut: usize)
    requires some { 1 ≤ length out.old }
    requires few { length out.old ≤ 64 }
{
    let (first, second) = text.split_at(cut.min(text.len()));
    blake2b(out, first, second);
}

/// The digest of a text: its length, text. In two pieces, however it is cut, it must be the same.
pub fn digest(alloc: Global, question: &Question<'_>) -> Result<String, Fault> {
    let size = question.short_number(1)? as usize;
    let text = question.bytes(alloc, 2)?;
    if size < 1 || size > 64 {
        return Err(Fault::BadWord(1));
    }
    let mut whole = [0; 64];
    put_digest(&mut whole[..size], &text, 0);
    for cut in 0..text.len() {
        let mut by_pieces = [0; 64];
        put_digest(&mut by_pieces[..size], &text, cut);
        if by_pieces != whole {
            return Err(Fault::NotTheSameCut(cut));
        }
    }
    Ok(hex::encode(alloc, &whole[..size])?)
}

/// A tag of Argon2d, or the first limit that is not met: passes, memory in KiB, lanes, password,
/// salt, secret, extra data.
pub fn argon2d(alloc: Global, question: &Question<'_>) -> Result<String, Fault> {
    tag(alloc, ArgonKind::D, question)
}

/// The same of Argon2id.
pub fn argon2id(alloc: Global, question: &Question<'_>) -> Result<String, Fault> {
    tag(alloc, ArgonKind::Id, question)
}

// The costs of a question.
fn costs(question: &Question<'_>) -> Result<ArgonParams, Fault> {
    Ok(ArgonParams {
        passes: question.short_number(1)?,
        kib: question.short_number(2)?,
        lanes: question.short_number(3)?,
    })
}

// The tag of a question.
fn tag(alloc: Global, kind: ArgonKind, question: &Question<'_>) -> Result<String, Fault> {
    let params = costs(question)?;
    let password = question.bytes(alloc, 4)?;
    let salt = question.bytes(alloc, 5)?;
    let secret = question.bytes(alloc, 6)?;
    let extra = question.bytes(alloc, 7)?;
    match argon2(alloc, kind, &params, &password, &salt, &secret, &extra) {
        Ok(key) => spent(alloc, key),
        Err(fail) => argon_refusal(alloc, fail),
    }
}
