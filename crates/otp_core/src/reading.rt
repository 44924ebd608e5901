//! What the fields of an entry say of one-time codes.

ghost use Rattle.std.specs.Prelude.{◌≡◌, ◌≤◌, length, take, drop, map, true, false, Ok, Some, option_map, bytes_eq, IfOk, MatchOption};
ghost use Rattle.otp_core.specs.Codes.{IsWithin};
ghost use Rattle.vault_model.specs.Seen.{bare_field};
ghost use Rattle.otp_core.specs.Answers.{Answers, AnswersBy, otp_seen, parameters_seen};
ghost use Rattle.otp_core.specs.Reading as spec;

use crate::base32::base32;
use crate::codes::Otp;
use crate::fails::OtpFail;
use crate::hashes::OtpHash;
use crate::marks::{decimal, prefix_before, suffix_after};
use crate::parameters::{Parameters, read_parameters};
use secret_core::Secret;
use std::alloc::Global;
use vault_model::Field;

// A secret and how codes are made of it, where that is within the limits.
#[tactic(auto, unfolding(crate::specs::Reading::within_limits))]
fn limited(secret: Secret, hash: OtpHash, period: u64, digits: u64) -> Result<Otp, OtpFail>
    ensures within { IfOk result (λ otp. IsWithin otp) }
    ensures otp { Answers otp_seen (spec.within_limits secret.bytes (record {
      secret = Some secret.bytes;
      hash = hash;
      period = period;
      digits = digits;
    })) result }
{
    if period < 1 || period > 86400 {
        drop(secret);
        return Err(OtpFail::OtpLimit(period));
    }
    if digits < 6 || digits > 8 {
        drop(secret);
        return Err(OtpFail::OtpLimit(digits));
    }
    let len = secret.len();
    if len > 256 {
        drop(secret);
        return Err(OtpFail::OtpLimit(len as u64));
    }
    Ok(Otp {
        secret,
        hash,
        period,
        digits: digits as u32,
    })
}

// A secret with its parameters, within the limits. A missing secret is refused at this offset.
fn with_secret(end: usize, found: Parameters) -> Result<Otp, OtpFail>
    ensures within { IfOk result (λ otp. IsWithin otp) }
    ensures otp { Answers otp_seen (spec.with_secret end (Ok (parameters_seen found))) result }
{
    let Parameters {
        secret,
        hash,
        period,
        digits,
    } = found;
    match secret {
        Some(secret) => limited(secret, hash, period, digits),
        None => Err(OtpFail::OtpForm(end)),
    }
}

// What follows the prefix says, of a URI of so many bytes.
#[tactic(auto, unfolding(crate::specs::Reading::otp_of_label))]
fn read_label(alloc: Global, end: usize, body: &[u8]) -> Result<Otp, OtpFail>
    requires within { length body.now ≤ end }
    ensures within { IfOk result (λ otp. IsWithin otp) }
    ensures otp { Answers otp_seen (spec.otp_of_label end body.now) result }
{
    let Some(rest) = suffix_after(body, b'?') else {
        return Err(OtpFail::OtpForm(end));
    };
    let mut found = Parameters {
        secret: None,
        hash: OtpHash::Sha1,
        period: 30,
        digits: 6,
    };
    match read_parameters(alloc, end - rest.len(), rest, &mut found) {
        Ok(()) => with_secret(end, found),
        Err(fail) => {
            drop(found);
            Err(fail)
        }
    }
}

// What follows the prefix of the field `otp`, where it has that.
fn after_uri_prefix(text: &[u8]) -> Option<&[u8]>
    ensures { MatchOption result (bytes_eq (take 15 text.now) spec.uri_prefix ≡ false)
        (λ rest. (bytes_eq (take 15 text.now) spec.uri_prefix ≡ true)
        × (rest.now ≡ drop 15 text.now)) }
{
    if text.len() < 15 {
        return None;
    }
    let (front, rest) = text.split_at(15);
    if front == b"otpauth://totp/".as_slice() {
        Some(rest)
    } else {
        None
    }
}

// What the field `otp` says.
#[tactic(auto, unfolding(crate::specs::Reading::otp_of_uri))]
fn read_uri(alloc: Global, text: &[u8]) -> Result<Otp, OtpFail>
    ensures within { IfOk result (λ otp. IsWithin otp) }
    ensures otp { Answers otp_seen (spec.otp_of_uri text.now) result }
{
    match after_uri_prefix(text) {
        None => Err(OtpFail::OtpForm(0)),
        Some(body) => read_label(alloc, text.len(), body),
    }
}

// What the older settings say.
#[tactic(auto, unfolding(crate::specs::Reading::parameters_of_settings))]
fn read_settings(settings: Option<&[u8]>, found: &mut Parameters) -> Result<(), OtpFail>
    ensures { AnswersBy
        (spec.parameters_of_settings (option_map (λ text. text.now) settings.entry)
        (parameters_seen found.old))
        (parameters_seen found.new) result }
{
    let Some(text) = settings else {
        return Ok(());
    };
    let Some(period) = decimal(prefix_before(text, b';')) else {
        return Err(OtpFail::OtpForm(0));
    };
    let Some(rest) = suffix_after(text, b';') else {
        return Err(OtpFail::OtpForm(0));
    };
    if rest == b"S".as_slice() {
        return Err(OtpFail::OtpUnknown(prefix_before(text, b';').len() + 1));
    }
    let Some(digits) = decimal(rest) else {
        return Err(OtpFail::OtpForm(0));
    };
    found.period = period;
    found.digits = digits;
    Ok(())
}

// What the older fields say.
#[tactic(auto, unfolding(crate::specs::Reading::otp_of_seed))]
fn read_seed(alloc: Global, seed: &[u8], settings: Option<&[u8]>) -> Result<Otp, OtpFail>
    ensures within { IfOk result (λ otp. IsWithin otp) }
    ensures otp { Answers otp_seen
        (spec.otp_of_seed seed.now (option_map (λ text. text.now) settings.entry)) result }
{
    let secret = base32(alloc, seed)?;
    match secret {
        None => Err(OtpFail::OtpForm(0)),
        Some(secret) => {
            let mut found = Parameters {
                secret: Some(secret),
                hash: OtpHash::Sha1,
                period: 30,
                digits: 6,
            };
            match read_settings(settings, &mut found) {
                Ok(()) => with_secret(0, found),
                Err(fail) => {
                    drop(found);
                    Err(fail)
                }
            }
        }
    }
}

/// What the values of the fields `otp`, `TOTP Seed` and `TOTP Settings` say of one-time codes, each
/// where it is there, as [`read_otp`] takes them from an entry.
///
/// # Errors
///
/// Those of [`read_otp`].
#[tactic(auto, unfolding(crate::specs::Reading::otp_of_fields))]
pub fn read_otp_fields(
    alloc: Global,
    otp: Option<&[u8]>,
    seed: Option<&[u8]>,
    settings: Option<&[u8]>,
) -> Result<Otp, OtpFail>
    ensures otp { Answers otp_seen (spec.otp_of_fields (option_map (λ text. text.now) otp.entry)
        (option_map (λ text. text.now) seed.entry)
        (option_map (λ text. text.now) settings.entry)) result }
    ensures within { IfOk result (λ otp. IsWithin otp) }
{
    match otp {
        Some(text) => read_uri(alloc, text),
        None => match seed {
            Some(seed) => read_seed(alloc, seed, settings),
            None => Err(OtpFail::NoOtp),
        },
    }
}

// The value of the field of this key, where there is one.
fn value_of<'a>(fields: &'a [Field], key: &str) -> Option<&'a [u8]>
    ensures { option_map (λ text. text.now) result
        ≡ spec.value_of key.now (map bare_field fields.now) }
{
    for field in fields {
        if key == field.key.as_str() {
            return Some(field.value.lend(0, field.value.len()));
        }
    }
    None
}

/// What the fields of a version of an entry say of one-time codes: the field `otp`, a URI
/// `otpauth://totp/LABEL?PARAMETERS`; without that `TOTP Seed`, a secret in base 32, and
/// `TOTP Settings`, which is `PERIOD;DIGITS`.
///
/// # Errors
///
/// [`OtpFail::NoOtp`] where neither `otp` nor `TOTP Seed` is there; else of the first fault of the
/// text from its beginning on [`OtpFail::OtpForm`] or [`OtpFail::OtpUnknown`], and of a text without
/// a fault [`OtpFail::OtpLimit`]. [`OtpFail::NoMemory`] where memory runs out.
pub fn read_otp(alloc: Global, fields: &[Field]) -> Result<Otp, OtpFail>
    ensures otp { Answers otp_seen (spec.otp_of_entry (map bare_field fields.now)) result }
    ensures within { IfOk result (λ otp. IsWithin otp) }
{
    read_otp_fields(
        alloc,
        value_of(fields, "otp"),
        value_of(fields, "TOTP Seed"),
        value_of(fields, "TOTP Settings"),
    )
}
