//! The texts in a row.

ghost use Rattle.std.specs.Prelude.{◌≡◌, ◌<◌, ◌∷◌, ◌++◌, Some, IfOk, codes, option_map, true};
ghost use Rattle.std.specs.Option.{ForSome};
ghost use Rattle.secret_core.specs.Secret.{SecretBuffer};
ghost use Rattle.std.specs.Str.{is_utf8};
ghost use Rattle.csv.specs.Records.{fields_of};
ghost use Rattle.table_reading.specs.Cells as spec;

use csv::StringRecord;
use outside_core::NoMemory;
use secret_core::Secret;
use std::alloc::Global;
use time_core::{Stamp, stamp_of_iso};

/// What stands before the secret in the `otpauth` URL that is made of one.
const OTP_URL: &str = "otpauth://totp/?secret=";

/// The text of a row in the column of this place, empty where there is no such column.
pub(crate) fn cell(row: &StringRecord, place: Option<usize>) -> &str
    ensures { result.now ≡ spec.cell place (fields_of row.now) }
{
    match place {
        Some(place) => row.get(place).unwrap_or(""),
        None => "",
    }
}

/// A text in memory of its own.
pub(crate) fn secret_of(alloc: Global, text: &str) -> Result<Secret, NoMemory>
    ensures is { IfOk result (λ secret. secret.bytes ≡ text.now) }
    ensures utf8 { IfOk result (λ secret. is_utf8 secret.bytes ≡ true) }
{
    let mut secret = Secret::with_room(alloc, text.len())?;
    secret.extend(text.as_bytes());
    Ok(secret)
}

/// The text of a row in the column of this place, in memory of its own.
pub(crate) fn secret_cell(
    alloc: Global,
    row: &StringRecord,
    place: Option<usize>,
) -> Result<Secret, NoMemory>
    ensures is { IfOk result (λ secret. secret.bytes ≡ spec.cell place (fields_of row.now)) }
    ensures utf8 { IfOk result (λ secret. is_utf8 secret.bytes ≡ true) }
{
    secret_of(alloc, cell(row, place))
}

/// The time that a text is: now where it is empty, and none where it is not ISO.
pub(crate) fn time_of(text: &str, now: Stamp) -> Option<Stamp>
    ensures { result ≡ spec.time_of now text.now }
{
    if text.is_empty() {
        return Some(now);
    }
    stamp_of_iso(text.as_bytes())
}

// What a text has before the first of this ASCII character, or all of it.
fn up_to(text: &str, stop: char) -> &str
    requires { stop < 128 }
    ensures { result.now ≡ spec.up_to stop text.now }
{
    match text.split_once(stop) {
        Some(parts) => parts.0,
        None => text,
    }
}

// What a text has after its last `@`, or all of it.
fn after_at(text: &str) -> &str
    ensures { result.now ≡ spec.after_last 64 text.now }
{
    let mut rest = text;
    while let Some(parts) = rest.split_once('@') {
        rest = parts.1;
    }
    rest
}

// What a text has after its first `://`, or all of it.
fn after_scheme(text: &str) -> &str
    ensures { result.now ≡ spec.after_mark text.now text.now }
{
    match text.split_once("://") {
        Some(parts) => parts.1,
        None => text,
    }
}

// The host of a URL.
fn host(url: &str) -> &str
    ensures { result.now ≡ spec.host url.now }
{
    let rest = up_to(up_to(up_to(after_scheme(url), '/'), '?'), '#');
    up_to(after_at(rest), ':')
}

/// The title of a row: the text in the column of titles, and where there is none the host of the
/// URL.
pub(crate) fn title_of(row: &StringRecord, title: Option<usize>, url: Option<usize>) -> &str
    ensures { result.now ≡ spec.title_of title url (fields_of row.now) }
{
    match title {
        Some(place) => cell(row, Some(place)),
        None => host(cell(row, url)),
    }
}

// The `otpauth` URL of a secret.
fn otp_url(alloc: Global, secret: &str) -> Result<Secret, NoMemory>
    ensures is { IfOk result (λ url. url.bytes ≡ codes "otpauth://totp/?secret=" ++ secret.now) }
    ensures utf8 { IfOk result (λ url. is_utf8 url.bytes ≡ true) }
{
    let mut url = Secret::with_room(alloc, OTP_URL.len() + secret.len())?;
    url.extend(OTP_URL.as_bytes());
    url.extend(secret.as_bytes());
    Ok(url)
}

// Where one-time codes come from, by a text that is not empty.
fn otp_source(alloc: Global, text: &str) -> Result<Secret, NoMemory>
    ensures is { IfOk result (λ source. source.bytes ≡ spec.otp_source text.now) }
    ensures utf8 { IfOk result (λ source. is_utf8 source.bytes ≡ true) }
{
    if text.starts_with("otpauth://") {
        secret_of(alloc, text)
    } else {
        otp_url(alloc, text)
    }
}

/// Where one-time codes come from, by the text in their column: none where that is empty, and a text
/// that is no `otpauth` URL is the secret of one.
pub(crate) fn otp_of(alloc: Global, text: &str) -> Result<Option<Secret>, NoMemory>
    ensures is { IfOk result (λ otp. option_map (λ (source : SecretBuffer). source.bytes) otp
        ≡ spec.otp_of text.now) }
    ensures utf8 { IfOk result (λ otp. ForSome otp (λ source. is_utf8 source.bytes ≡ true)) }
{
    if text.is_empty() {
        return Ok(None);
    }
    Ok(Some(otp_source(alloc, text)?))
}
