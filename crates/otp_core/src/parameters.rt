//! The parameters of codes: what a URI says of them, key by key.

ghost use Rattle.std.specs.Prelude.{◌≡◌, ◌+◌, ◌<◌, ◌^◌, length};
ghost use Rattle.otp_core.specs.Reading as spec;
ghost use Rattle.otp_core.specs.Answers.{AnswersBy, parameters_seen};

use crate::base32::{base32, with_equals};
use crate::fails::OtpFail;
use crate::hashes::OtpHash;
use crate::marks::{decimal, prefix_before, suffix_after};
use secret_core::Secret;
use std::alloc::Global;

/// A key of a parameter.
#[derive(Clone, Copy)]
pub(crate) enum Key {
    Secret,
    Period,
    Digits,
    Algorithm,
    Encoder,
    Other,
}

/// What is read so far of how codes are made.
#[derive(Drop)]
pub(crate) struct Parameters {
    pub(crate) secret: Option<Secret>,
    pub(crate) hash: OtpHash,
    pub(crate) period: u64,
    pub(crate) digits: u64,
}

// Which key a word is.
fn key_of(word: &[u8]) -> Key
    ensures { result ≡ spec.key_of word.now }
{
    if word.eq_ignore_ascii_case(b"secret") {
        Key::Secret
    } else if word.eq_ignore_ascii_case(b"period") {
        Key::Period
    } else if word.eq_ignore_ascii_case(b"digits") {
        Key::Digits
    } else if word.eq_ignore_ascii_case(b"algorithm") {
        Key::Algorithm
    } else if word.eq_ignore_ascii_case(b"encoder") {
        Key::Encoder
    } else {
        Key::Other
    }
}

// Which hash a word is.
fn hash_of(word: &[u8]) -> Option<OtpHash>
    ensures { result ≡ spec.hash_of word.now }
{
    if word.eq_ignore_ascii_case(b"SHA1") {
        Some(OtpHash::Sha1)
    } else if word.eq_ignore_ascii_case(b"SHA256") {
        Some(OtpHash::Sha256)
    } else if word.eq_ignore_ascii_case(b"SHA512") {
        Some(OtpHash::Sha512)
    } else {
        None
    }
}

// Takes the value of a key, which is at this offset. After a refusal the parameters are not known.
#[tactic(auto, unfolding(crate::specs::Reading::with_value))]
fn set_value(
    alloc: Global,
    key: Key,
    at: usize,
    value: &[u8],
    found: &mut Parameters,
) -> Result<(), OtpFail>
    ensures { AnswersBy (spec.with_value key at value.now (parameters_seen found.old))
        (parameters_seen found.new) result }
{
    match key {
        Key::Secret => {
            let text = with_equals(alloc, value)?;
            let secret = base32(alloc, text.lend(0, text.len()))?;
            drop(text);
            match secret {
                Some(secret) => {
                    found.secret = Some(secret);
                    Ok(())
                }
                None => Err(OtpFail::OtpForm(at)),
            }
        }
        Key::Period => match decimal(value) {
            Some(number) => {
                found.period = number;
                Ok(())
            }
            None => Err(OtpFail::OtpForm(at)),
        },
        Key::Digits => match decimal(value) {
            Some(number) => {
                found.digits = number;
                Ok(())
            }
            None => Err(OtpFail::OtpForm(at)),
        },
        Key::Algorithm => match hash_of(value) {
            Some(hash) => {
                found.hash = hash;
                Ok(())
            }
            None => Err(OtpFail::OtpUnknown(at)),
        },
        Key::Encoder => Err(OtpFail::OtpUnknown(at)),
        Key::Other => Ok(()),
    }
}

// Takes a parameter, which is at this offset.
#[tactic(auto, unfolding(crate::specs::Reading::with_parameter))]
fn read_parameter(
    alloc: Global,
    at: usize,
    text: &[u8],
    found: &mut Parameters,
) -> Result<(), OtpFail>
    requires { at + length text.now < 2 ^ 64 }
    ensures { AnswersBy (spec.with_parameter at text.now (parameters_seen found.old))
        (parameters_seen found.new) result }
{
    match suffix_after(text, b'=') {
        None => Err(OtpFail::OtpForm(at)),
        Some(value) => {
            let word = prefix_before(text, b'=');
            set_value(alloc, key_of(word), at + word.len() + 1, value, found)
        }
    }
}

/// Takes the parameters of a text, the first of which is at this offset.
pub(crate) fn read_parameters(
    alloc: Global,
    from: usize,
    text: &[u8],
    found: &mut Parameters,
) -> Result<(), OtpFail>
    requires { from + length text.now < 2 ^ 64 }
    ensures { AnswersBy
        (spec.with_parameters from (spec.parts_between 38 text.now) (parameters_seen found.old))
        (parameters_seen found.new) result }
{
    let mut at = from;
    let mut rest = text;
    'parts: loop {
        let part = prefix_before(rest, b'&');
        if let Err(fail) = read_parameter(alloc, at, part, found) {
            return Err(fail);
        }
        match suffix_after(rest, b'&') {
            None => return Ok(()),
            Some(next) => {
                at += part.len() + 1;
                rest = next;
            }
        }
    }
}
