//! Values by their texts: choices, numbers, ids and times.

ghost use Rattle.std.specs.Prelude.{◌≡◌, ◌≤◌, ◌∷◌, MatchOption, neg_ℤ, pos};
ghost use Rattle.text_core.specs.Fronts.{DiffersFirst};
ghost use Rattle.doc_forms.specs.Values as spec;

use text_core::{decode_base64_array, is_word};
use uuid_core::Uuid;
use vault_model::{Stamp, Tri, stamp_of_iso};

/// `True` or `False`, in any case of their letters.
pub fn boolean(text: &[u8]) -> Option<bool>
    ensures { result ≡ spec.boolean text.now }
{
    if is_word(text, b"True") {
        Some(true)
    } else if is_word(text, b"False") {
        Some(false)
    } else {
        None
    }
}

/// The same, or `null`.
pub fn choice(text: &[u8]) -> Option<Tri>
    ensures { result ≡ spec.choice text.now }
{
    if is_word(text, b"null") {
        return Some(Tri::Inherit);
    }
    match boolean(text) {
        Some(true) => Some(Tri::Yes),
        Some(false) => Some(Tri::No),
        None => None,
    }
}

/// The number that these decimal digits write, if it is at most this one.
fn digits_up_to(digits: &[u8], most: u64) -> Option<u64>
    ensures { result ≡ spec.digits_up_to most digits.now }
{
    if digits.is_empty() {
        return None;
    }
    let mut number: u64 = 0;
    for digit in digits {
        if !digit.is_ascii_digit() {
            return None;
        }
        number = number.checked_mul(10)?.checked_add((*digit - b'0') as u64)?;
        if number > most {
            return None;
        }
    }
    Some(number)
}

/// What follows a `-`.
fn without_sign(text: &[u8]) -> Option<&[u8]>
    ensures { MatchOption result (DiffersFirst 45 text.now) (λ digits. text.now ≡ 45 ∷ digits.now) }
{
    match text {
        [b'-', digits @ ..] => Some(digits),
        _ => None,
    }
}

/// A whole number from 0 to this one.
fn number_up_to(text: &[u8], most: u64) -> Option<u64>
    ensures { result ≡ spec.number_up_to most text.now }
{
    match without_sign(text) {
        Some(digits) => digits_up_to(digits, 0),
        None => digits_up_to(text, most),
    }
}

/// A whole number of 32 bits.
pub fn number32(text: &[u8]) -> Option<u32>
    ensures { result ≡ spec.number32 text.now }
{
    Some(number_up_to(text, 4_294_967_295)? as u32)
}

/// A whole number of 64 bits.
pub fn number64(text: &[u8]) -> Option<u64>
    ensures { result ≡ spec.number64 text.now }
{
    number_up_to(text, u64::MAX)
}

/// The number from 0 down that has this size.
fn negated(size: u64) -> i64
    requires { size ≤ 9223372036854775808 }
    ensures { result ≡ neg_ℤ (pos size) }
{
    if size > i64::MAX as u64 {
        i64::MIN
    } else {
        -(size as i64)
    }
}

/// A whole number of 64 bits with a sign.
pub fn signed64(text: &[u8]) -> Option<i64>
    ensures { result ≡ spec.signed64 text.now }
{
    match without_sign(text) {
        Some(digits) => Some(negated(digits_up_to(digits, 9_223_372_036_854_775_808)?)),
        None => Some(digits_up_to(text, i64::MAX as u64)? as i64),
    }
}

/// A whole number of 32 bits with a sign.
pub fn signed32(text: &[u8]) -> Option<i32>
    ensures { result ≡ spec.signed32 text.now }
{
    match without_sign(text) {
        Some(digits) => Some(negated(digits_up_to(digits, 2_147_483_648)?) as i32),
        None => Some(digits_up_to(text, i32::MAX as u64)? as i32),
    }
}

/// The 16 bytes of an id, by base64.
pub fn id(text: &[u8]) -> Option<Uuid>
    ensures { result ≡ spec.id text.now }
{
    match decode_base64_array::<16>(text) {
        Some(bytes) => Some(Uuid::from_bytes(bytes)),
        None => None,
    }
}

/// The seconds that `YYYY-MM-DDThh:mm:ssZ` writes.
fn iso_time(text: &[u8]) -> Option<Stamp>
    ensures { result ≡ spec.iso_time text.now }
{
    stamp_of_iso(text)
}

/// Seconds since the year 1 as a number of 64 bits, the least byte first, by base64.
fn counted_time(text: &[u8]) -> Option<Stamp>
    ensures { result ≡ spec.counted_time text.now }
{
    match decode_base64_array::<8>(text) {
        Some(bytes) => stamp_from(bytes),
        None => None,
    }
}

/// The stamp whose number of seconds these bytes are, the least first.
fn stamp_from(bytes: [u8; 8]) -> Option<Stamp>
    ensures { result ≡ spec.stamp_in_range (spec.little_endian bytes) }
{
    Stamp::of(u64::from_le_bytes(bytes))
}

/// A time, in either form.
pub fn time(text: &[u8]) -> Option<Stamp>
    ensures { result ≡ spec.time text.now }
{
    match iso_time(text) {
        Some(stamp) => Some(stamp),
        None => counted_time(text),
    }
}
