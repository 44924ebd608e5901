//! Values of an entry, each on a line.
ghost use Rattle.std.specs.Prelude.{◌≡◌, ◌&&◌, OnOk, find, map, option_map};
ghost use Rattle.std.specs.List.{filter};
ghost use Rattle.find_references.specs.Fields.{is_other};
ghost use Rattle.find_references.specs.Results.{meaning_of};
ghost use Rattle.outside_core.specs.Results.{Returns};
ghost use Rattle.vault_model.specs.Seen.{bare_field};
ghost use Rattle.vault_model.specs.SeenDoc.{doc_seen};
ghost use Rattle.cli_showing.specs.Showing as spec;
ghost use Rattle.cli_showing.specs.Showing.{is_missing, with_fields, with_key, with_keys, with_names, with_value, with_value_of};

use crate::texts::append;
use find_references::{FindFail, is_named_key, resolve};
use outside_core::{NoMemory, Text};
use secret_core::Secret;
use std::alloc::Global;
use vault_model::{Doc, Field};

/// The keys of the fields that are shown of every entry.
pub(crate) const NAMED_KEYS: [&str; 5] = ["Title", "UserName", "Password", "URL", "Notes"];

// The field of a key.
fn field_of<'a>(fields: &'a [Field], key: &str) -> Option<&'a Field>
    ensures { option_map (λ field. bare_field field.now) result
        ≡ spec.field_of key.now (map bare_field fields.now) }
{
    for field in fields {
        if key == field.key.as_str() {
            return Some(field);
        }
    }
    None
}

// Puts a key after a text, and what is between a key and its value.
fn append_key(alloc: Global, text: &mut Secret, key: &str) -> Result<(), NoMemory>
    ensures { OnOk result (text.new.bytes ≡ with_key key.now text.old.bytes) }
{
    append(alloc, text, key.as_bytes())?;
    append(alloc, text, b": ")
}

// Puts a value after a text as it is shown, and the end of its line.
fn append_value(
    alloc: Global,
    doc: &Doc,
    clear: bool,
    text: &mut Secret,
    field: &Field,
) -> Result<(), FindFail>
    ensures { Returns meaning_of (λ _. text.new.bytes) result
        (with_value (doc_seen doc.now) clear (bare_field field.now) text.old.bytes) }
{
    if field.hidden && !clear {
        append(alloc, text, b"PROTECTED")?;
    } else {
        let value = resolve(alloc, doc, field.value.lend(0, field.value.len()))?;
        let appended = append(alloc, text, value.lend(0, value.len()));
        drop(value);
        appended?;
    }
    append(alloc, text, b"\n")?;
    Ok(())
}

// The same for the field of a key; the line has no value where there is none.
fn append_value_of(
    alloc: Global,
    doc: &Doc,
    clear: bool,
    text: &mut Secret,
    field: Option<&Field>,
) -> Result<(), FindFail>
    ensures { Returns meaning_of (λ _. text.new.bytes) result
        (with_value_of (doc_seen doc.now) clear
        (option_map (λ field. bare_field field.now) field.entry) text.old.bytes) }
{
    match field {
        Some(field) => append_value(alloc, doc, clear, text, field),
        None => {
            append(alloc, text, b"\n")?;
            Ok(())
        }
    }
}

/// Puts a line for each of some keys after a text.
pub(crate) fn append_keys(
    alloc: Global,
    doc: &Doc,
    clear: bool,
    text: &mut Secret,
    fields: &[Field],
    keys: &[&str],
) -> Result<(), FindFail>
    ensures { Returns meaning_of (λ _. text.new.bytes) result
        (with_keys (doc_seen doc.now) clear (map bare_field fields.now)
        (map (λ key. key.now) keys.now) text.old.bytes) }
{
    for key in keys {
        append_key(alloc, text, key)?;
        append_value_of(alloc, doc, clear, text, field_of(fields, key))?;
    }
    Ok(())
}

/// Puts a line after a text for each field that has none of those keys.
pub(crate) fn append_others(
    alloc: Global,
    doc: &Doc,
    clear: bool,
    text: &mut Secret,
    fields: &[Field],
) -> Result<(), FindFail>
    ensures { Returns meaning_of (λ _. text.new.bytes) result
        (with_fields (doc_seen doc.now) clear (filter is_other (map bare_field fields.now))
        text.old.bytes) }
{
    for field in fields {
        if !is_named_key(field.key.as_str()) {
            append_key(alloc, text, field.key.as_str())?;
            append_value(alloc, doc, clear, text, field)?;
        }
    }
    Ok(())
}

/// Puts the values of the fields of some names after a text, each on a line, hidden ones too.
pub(crate) fn append_names(
    alloc: Global,
    doc: &Doc,
    text: &mut Secret,
    fields: &[Field],
    names: &[Text],
) -> Result<(), FindFail>
    ensures { Returns meaning_of (λ _. text.new.bytes) result
        (with_names (doc_seen doc.now) (map bare_field fields.now) names.now text.old.bytes) }
{
    for name in names {
        append_value_of(alloc, doc, true, text, field_of(fields, name.as_str()))?;
    }
    Ok(())
}

// Reports whether this is the name of a field that is not among these, and that an entry may lack.
fn is_missing(fields: &[Field], name: &str) -> bool
    ensures { result ≡ is_missing (map bare_field fields.now) name.now }
{
    if is_named_key(name) {
        return false;
    }
    for field in fields {
        if name == field.key.as_str() {
            return false;
        }
    }
    true
}

/// The first of some names of fields that is not among these.
pub(crate) fn missing_name<'a>(fields: &[Field], names: &'a [Text]) -> Option<&'a str>
    ensures { option_map (λ name. name.now) result
        ≡ find (is_missing (map bare_field fields.now)) names.now }
{
    for name in names {
        if is_missing(fields, name.as_str()) {
            return Some(name.as_str());
        }
    }
    None
}
