//! The values of an entry's fields.

ghost use Rattle.std.specs.Prelude.{◌≡◌, ◌&&◌, map};
ghost use Rattle.std.specs.List.{list_any};
ghost use Rattle.std.specs.Str.{bytes_eq, str_eq_ignore_ascii_case};
ghost use Rattle.find_references.specs.Fields.{has_at, is_other, is_part, named_keys, part_value};
ghost use Rattle.uuid.specs.Text.{simple_text, upper};
ghost use Rattle.vault_model.specs.Seen.{bare_field};
ghost use Rattle.vault_model.specs.SeenNodes.{entry_row};
ghost use Rattle.vault_model.specs.Walk.{value_of};

use crate::parts::{Part, Place};
use uuid_core::Uuid;
use vault_model::{Entry, Field};

/// The value of the field of this key in an entry's current version, and empty where there is none.
pub fn field_value<'a>(entry: &'a Entry, key: &str) -> &'a [u8]
    ensures { result.now ≡ value_of key.now (map bare_field entry.now.current.content.fields) }
{
    for field in entry.current.content.fields.as_slice() {
        if key == field.key.as_str() {
            return field.value.lend(0, field.value.len());
        }
    }
    &[]
}

/// Reports whether this is the key of a field that has a name of its own: title, user name,
/// password, URL or notes.
pub fn is_named_key(key: &str) -> bool
    ensures { result ≡ list_any (bytes_eq key.now) named_keys }
{
    match key {
        "Title" | "UserName" | "Password" | "URL" | "Notes" => true,
        _ => false,
    }
}

// A part of an entry, whose id has these digits.
pub(crate) fn part_value<'a>(part: Part, entry: &'a Entry, digits: &'a [u8]) -> &'a [u8]
    requires { digits.now ≡ simple_text upper entry.now.id }
    ensures { result.now ≡ part_value part (entry_row entry.now) }
{
    match part {
        Part::Title => field_value(entry, "Title"),
        Part::UserName => field_value(entry, "UserName"),
        Part::Password => field_value(entry, "Password"),
        Part::Url => field_value(entry, "URL"),
        Part::Notes => field_value(entry, "Notes"),
        Part::Id => digits,
    }
}

/// Reports whether a text is a word, in any case of its letters.
pub(crate) fn is_word(text: &[u8], word: &[u8]) -> bool
    ensures { result ≡ str_eq_ignore_ascii_case text.now word.now }
{
    text.eq_ignore_ascii_case(word)
}

// Reports whether a text is an id in 32 digits, with letters in any case.
fn is_id(id: Uuid, text: &[u8]) -> bool
    ensures { result ≡ str_eq_ignore_ascii_case (simple_text upper id) text.now }
{
    let mut buffer = [0; 32];
    let digits = id.encode_simple(&mut buffer);
    is_word(digits.as_bytes(), text)
}

// Reports whether the value of the field of this key is a text.
fn is_value(entry: &Entry, key: &str, text: &[u8]) -> bool
    ensures { result ≡ bytes_eq (value_of key.now (map bare_field entry.now.current.content.fields))
        text.now }
{
    field_value(entry, key) == text
}

// Reports whether a part of an entry is a text.
fn is_part(part: Part, text: &[u8], entry: &Entry) -> bool
    ensures { result ≡ is_part part text.now (entry_row entry.now) }
{
    match part {
        Part::Title => is_value(entry, "Title", text),
        Part::UserName => is_value(entry, "UserName", text),
        Part::Password => is_value(entry, "Password", text),
        Part::Url => is_value(entry, "URL", text),
        Part::Notes => is_value(entry, "Notes", text),
        Part::Id => is_id(entry.id, text),
    }
}

// Reports whether the value of some field that no part names is a text.
fn has_other(fields: &[Field], text: &[u8]) -> bool
    ensures { result ≡ list_any (λ f. is_other f && bytes_eq f.value text.now)
        (map bare_field fields.now) }
{
    for field in fields {
        let value = field.value.lend(0, field.value.len());
        if !is_named_key(field.key.as_str()) && value == text {
            return true;
        }
    }
    false
}

// Reports whether an entry has a text at a place.
pub(crate) fn has_at(place: Place, text: &[u8], entry: &Entry) -> bool
    ensures { result ≡ has_at place text.now (entry_row entry.now) }
{
    match place {
        Place::In(part) => is_part(part, text, entry),
        Place::OtherField => has_other(entry.current.content.fields.as_slice(), text),
    }
}
