//! Fields gathered under keys of which each occurs once.

ghost use Rattle.std.specs.Prelude.{◌≡◌, ◌+◌, ◌<◌, ◌^◌, [], IfOk, OnOk, length, map, true};
ghost use Rattle.std.specs.List.{list_all, list_any};
ghost use Rattle.std.specs.Str.{bytes_eq, is_utf8};
ghost use Rattle.doc_forms.specs.Tables.{put};
ghost use Rattle.bitwarden_fields.specs.Keys as spec;
ghost use Rattle.bitwarden_fields.specs.Said.{field};
ghost use Rattle.bitwarden_fields.specs.Seen.{fields_seen};
ghost use Rattle.bitwarden_fields.specs.declared.fields.TextField.{TextField};
ghost use Rattle.vault_model.specs.declared.contents.Field.{Field};
ghost use Rattle.vault_model.specs.Proper.{is_text_field};
ghost use Rattle.vault_model.specs.Bare.{BareField};
ghost use Rattle.vault_model.specs.Seen.{bare_field};

use crate::fields::TextField;
use doc_values::KeyedList;
use itoa::Buffer;
use outside_core::{List, NoMemory, Text};
use secret_core::Secret;
use std::alloc::Global;
use vault_model::Field;

// Reports whether one of some fields has this key.
fn any_has_key(fields: &[TextField], key: &str) -> bool
    ensures { result ≡ list_any (λ (f : TextField). bytes_eq f.field.key key.now) fields.now }
{
    fields.iter().any(|other| other.field.key.as_str() == key)
}

// Reports whether one of some fields has this key.
fn has_key(fields: &[TextField], key: &str) -> bool
    ensures { result ≡ spec.has_key (fields_seen fields.now) key.now }
{
    any_has_key(fields, key)
}

/// A key with a number after it.
pub(crate) fn numbered_key(alloc: Global, key: &str, number: u64) -> Result<Text, NoMemory>
    ensures { IfOk result (λ text. text ≡ spec.numbered_key key.now number) }
{
    let mut digits = Buffer::new();
    let mut text = String::from_str(alloc, key)?;
    text.push_str(" ")?;
    text.push_str(digits.format(number))?;
    Text::of(alloc, text.as_str())
}

// The first key with a number from 2 on that no field has.
fn first_free(alloc: Global, fields: &[TextField], key: &str) -> Result<Text, NoMemory>
    ensures { IfOk result (λ text. text
        ≡ spec.first_free (length fields.now) 2 (fields_seen fields.now) key.now) }
{
    let end = fields.len() as u64 + 2;
    for number in 2..end {
        let text = numbered_key(alloc, key, number)?;
        if !has_key(fields, text.as_str()) {
            return Ok(text);
        }
        drop(text);
    }
    numbered_key(alloc, key, end)
}

// A key that no field has: this one, or else the first with a number from 2 on.
fn free_key(alloc: Global, fields: &[TextField], key: &str) -> Result<Text, NoMemory>
    ensures { IfOk result (λ text. text ≡ spec.free_key (fields_seen fields.now) key.now) }
{
    if has_key(fields, key) {
        first_free(alloc, fields, key)
    } else {
        Text::of(alloc, key)
    }
}

// A text in memory of its own, which ends as zeros.
fn secret_of(alloc: Global, text: &str) -> Result<Secret, NoMemory>
    ensures is { IfOk result (λ secret. secret.bytes ≡ text.now) }
    ensures utf8 { IfOk result (λ secret. is_utf8 secret.bytes ≡ true) }
{
    let mut secret = Secret::with_room(alloc, text.len())?;
    secret.extend(text.as_bytes());
    Ok(secret)
}

// A field.
fn field_of(alloc: Global, key: Text, value: &str, hidden: bool) -> Result<TextField, NoMemory>
    ensures { IfOk result (λ made. bare_field made.field ≡ field key value.now hidden) }
{
    let _name = key.as_str().as_bytes();
    let value = secret_of(alloc, value)?;
    Ok(TextField {
        field: Field { key, value, hidden },
    })
}

/// Puts a field after the others, under a key that none of them has.
pub(crate) fn add_field(
    alloc: Global,
    fields: &mut Vec<TextField>,
    key: &str,
    value: &str,
    hidden: bool,
) -> Result<(), NoMemory>
    ensures { OnOk result (fields_seen fields.new.items
        ≡ spec.with_field (field key.now value.now hidden) (fields_seen fields.old.items)) }
{
    let key = free_key(alloc, fields.as_slice(), key)?;
    let made = field_of(alloc, key, value, hidden)?;
    fields.push(made)?;
    Ok(())
}

// Puts a field among others by its key.
fn put_field(list: &mut KeyedList<Field>, text: TextField) -> Result<(), NoMemory>
    ensures put { OnOk result (map bare_field list.new
        ≡ put (λ (f : BareField). f.key) (bare_field text.field) (map bare_field list.old)) }
    ensures texts { list_all is_text_field (map bare_field list.old) ≡ true
        → OnOk result (list_all is_text_field (map bare_field list.new) ≡ true) }
{
    match list.put(text.field) {
        Ok(()) => Ok(()),
        Err(_) => Err(NoMemory),
    }
}

/// Fields by their keys.
pub(crate) fn by_key(alloc: Global, fields: Vec<TextField>) -> Result<List<Field>, NoMemory>
    ensures is { IfOk result (λ list. map bare_field list
        ≡ spec.put_all (fields_seen fields.items) []) }
    ensures texts { IfOk result (λ list. list_all is_text_field (map bare_field list) ≡ true) }
{
    let mut list = KeyedList::new(alloc);
    for text in fields {
        put_field(&mut list, text)?;
    }
    Ok(list.into_list())
}
