//! Dates as an export writes them.

ghost use Rattle.std.specs.Prelude.{◌≡◌};
ghost use Rattle.std.specs.Char.{is_ascii_digit};
ghost use Rattle.std.specs.List.{list_all};
ghost use Rattle.bitwarden_forms.specs.Dates as spec;
ghost use Rattle.table_reading.specs.DocForms.Values as values_spec;

use time_core::{Stamp, stamp_of_iso};

// Reports whether all bytes are decimal digits.
fn are_digits(text: &[u8]) -> bool
    ensures { result ≡ list_all is_ascii_digit text.now }
{
    text.iter().all(|byte| byte.is_ascii_digit())
}

// Reports whether a `.` and digits are after the seconds, and then the `Z`.
fn has_fraction(text: &[u8]) -> bool
    ensures { result ≡ spec.has_fraction text.now }
{
    text.len() > 21
        && text[19] == b'.'
        && text[text.len() - 1] == b'Z'
        && are_digits(&text[20..text.len() - 1])
}

// The stamp of a date without a fraction of a second.
fn whole_date(text: &[u8]) -> Option<Stamp>
    ensures { result ≡ values_spec.iso_time text.now }
{
    stamp_of_iso(text)
}

/// The stamp of a date: `YYYY-MM-DDThh:mm:ssZ`, with a `.` and digits before the `Z` or none, which
/// are dropped. `None` for any other text.
pub fn date(text: &[u8]) -> Option<Stamp>
    ensures { result ≡ spec.date text.now }
{
    if !has_fraction(text) {
        return whole_date(text);
    }
    let mut whole = [b'Z'; 20];
    whole[..19].copy_from_slice(&text[..19]);
    whole_date(&whole)
}
