//! The contents of fields: their types, and times.
ghost use Rattle.std.specs.Prelude.{◌≡◌, ◌<◌, ◌≤◌, ◌+◌, ◌^◌, true, false, nat_lt};
ghost use Rattle.std.specs.Option.{MatchOption};
ghost use Rattle.std.specs.Int.{from_le_bytes, w64};
ghost use Rattle.time_core.specs.Times.{last_stamp};
ghost use Rattle.std.specs.Str.{is_utf8};
ghost use Rattle.psafe_file.specs.Kinds.{has_time, is_faulty, is_late, is_text_kind, is_time_kind, moment_of};

use std::str;
use time_core::Stamp;

/// The types of the fields of a record that are read (formatV3.txt, section 3.3).
pub mod kind {
    /// The id of a record.
    pub const ID: u8 = 1;
    /// The names of its groups, with a dot between each two.
    pub const GROUP: u8 = 2;
    /// Its title.
    pub const TITLE: u8 = 3;
    /// The name of its user.
    pub const USER: u8 = 4;
    /// Its notes.
    pub const NOTES: u8 = 5;
    /// Its password.
    pub const PASSWORD: u8 = 6;
    /// When it was created.
    pub const CREATED: u8 = 7;
    /// When it was changed.
    pub const MODIFIED: u8 = 12;
    /// Its URL.
    pub const URL: u8 = 13;
    /// The passwords that it had before, in a form that is not read.
    pub const HISTORY: u8 = 15;
    /// The end of the header or of a record.
    pub const END: u8 = 255;
}

// Unix seconds of 4, 5 or 8 bytes, the least first; `None` for any other number of bytes.
fn unix_seconds(content: &[u8]) -> Option<u64>
    ensures { MatchOption result (has_time content.now ≡ false)
        (λ n. (has_time content.now ≡ true) × (n ≡ from_le_bytes w64 content.now)) }
{
    match content {
        [a, b, c, d] => Some(u64::from_le_bytes([*a, *b, *c, *d, 0, 0, 0, 0])),
        [a, b, c, d, e] => Some(u64::from_le_bytes([*a, *b, *c, *d, *e, 0, 0, 0])),
        [a, b, c, d, e, f, g, h] => Some(u64::from_le_bytes([*a, *b, *c, *d, *e, *f, *g, *h])),
        _ => None,
    }
}

/// The moment that the content of a field is; `None` where it has another length than a time, which
/// is 4, 5 or 8 bytes, or where the moment is after the year 9999.
pub fn moment_of(content: &[u8]) -> Option<Stamp>
    ensures { result ≡ moment_of content.now }
{
    let seconds = unix_seconds(content)?;
    Stamp::of(seconds.checked_add(62_135_596_800)?)
}

/// The text that the content of a field is; `None` where it is not UTF-8.
pub fn text_of(content: &[u8]) -> Option<&str>
    ensures { MatchOption result (is_utf8 content.now ≡ false)
        (λ text. (is_utf8 content.now ≡ true) × (text.now ≡ content.now)) }
{
    match str::from_utf8(content) {
        Ok(text) => Some(text),
        Err(_) => None,
    }
}

// A type of fields whose content is a text.
fn is_text_kind(kind: u8) -> bool
    ensures { result ≡ is_text_kind kind }
{
    matches!(
        kind,
        kind::GROUP..=kind::PASSWORD | kind::URL | kind::HISTORY
    )
}

// A type of fields whose content is a time.
fn is_time_kind(kind: u8) -> bool
    ensures { result ≡ is_time_kind kind }
{
    kind == kind::CREATED || kind == kind::MODIFIED
}

// Reports whether the content of a field is a time after the year 9999.
fn is_late(content: &[u8]) -> bool
    ensures { result ≡ is_late content.now }
{
    match unix_seconds(content) {
        Some(seconds) => seconds > 253_402_300_799,
        None => false,
    }
}

/// Reports whether the content of a field of this type in a record is not what it must be.
pub(crate) fn is_faulty(kind: u8, content: &[u8]) -> bool
    ensures { result ≡ is_faulty kind content.now }
{
    if is_text_kind(kind) {
        text_of(content).is_none()
    } else if kind == kind::ID {
        content.len() != 16
    } else {
        is_time_kind(kind) && is_late(content)
    }
}
