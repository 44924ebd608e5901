//! The versions of the entries.
ghost use Rattle.std.specs.Prelude.{◌≡◌, ◌<◌, [], ◌∷◌, ◌++◌, codes, if◌then◌else◌, None, Some, IfOk, OnOk, map, option_map};
ghost use Rattle.vault_model.specs.Seen.{bare_field};
ghost use Rattle.vault_model.specs.SeenNodes.{bare_version};
ghost use Rattle.merge_twins.specs.Rules.{rules_of};
ghost use Rattle.merge_twins.specs.Twins as spec;
ghost use Rattle.merge_twins.specs.Twins.{plain_field, title_of};

use crate::rules::{Which, time};
use outside_core::{List, NoMemory, Text};
use secret_core::Secret;
use std::alloc::Global;
use vault_making::copies::put_last;
use vault_model::{AutoType, Content, Field, Stamp, Stats, Version};

// A secret of these bytes.
fn secret_of(alloc: Global, bytes: &[u8]) -> Result<Secret, NoMemory>
    ensures { IfOk result (λ secret. secret.bytes ≡ bytes.now) }
{
    let mut secret = Secret::with_room(alloc, bytes.len())?;
    secret.extend(bytes);
    Ok(secret)
}

// A field that is not hidden.
fn field(alloc: Global, key: &str, value: &str) -> Result<Field, NoMemory>
    ensures { IfOk result (λ field. bare_field field ≡ plain_field key.now value.now) }
{
    let value = secret_of(alloc, value.as_bytes())?;
    match Text::of(alloc, key) {
        Ok(key) => Ok(Field {
            key,
            value,
            hidden: false,
        }),
        Err(refusal) => {
            drop(value);
            Err(refusal)
        }
    }
}

// Puts a field after others.
fn put_field(
    alloc: Global,
    fields: &mut List<Field>,
    key: &str,
    value: &str,
) -> Result<(), NoMemory>
    ensures { OnOk result (map bare_field fields.new
        ≡ map bare_field fields.old ++ plain_field key.now value.now ∷ []) }
{
    let made = field(alloc, key, value)?;
    put_last(fields, made)
}

// Puts the title of an entry after other fields.
fn put_title(alloc: Global, fields: &mut List<Field>, number: u32) -> Result<(), NoMemory>
    ensures { OnOk result (map bare_field fields.new
        ≡ map bare_field fields.old ++ title_of number ∷ []) }
{
    let title = format!(in alloc; "E{number}")?;
    let put = put_field(alloc, fields, "Title", title.as_str());
    drop(title);
    put
}

// Puts notes and the title of an entry after other fields.
fn put_noted(
    alloc: Global,
    fields: &mut List<Field>,
    notes: &str,
    number: u32,
) -> Result<(), NoMemory>
    ensures { OnOk result (map bare_field fields.new ≡ map bare_field fields.old
        ++ plain_field (codes "Notes") notes.now ∷ title_of number ∷ []) }
{
    put_field(alloc, fields, "Notes", notes)?;
    put_title(alloc, fields, number)
}

// A version of a time with these fields, and nothing else that is said of it.
fn version_at(alloc: Global, modified: Stamp, fields: List<Field>) -> Version
    ensures { bare_version result ≡ spec.version_at modified (map bare_field fields) }
{
    Version {
        modified,
        content: Content {
            created: time(1_000),
            expiry: time(1_000),
            expires: false,
            icon: 0,
            custom_icon: None,
            fields,
            attachments: List::new(alloc),
            tags: Text::new(alloc),
            fore: Text::new(alloc),
            back: Text::new(alloc),
            url_override: Text::new(alloc),
            auto_type: AutoType {
                enabled: true,
                obfuscation: 0,
                sequence: Text::new(alloc),
                pairs: List::new(alloc),
            },
            items: List::new(alloc),
            quality: true,
        },
        stats: Stats {
            accessed: time(1_000),
            usage: 0,
        },
    }
}

/// The version of an entry that both copies have.
pub(crate) fn shared_version(alloc: Global, number: u32) -> Result<Version, NoMemory>
    ensures { IfOk result (λ version. bare_version version ≡ spec.shared_version number) }
{
    let mut fields = List::new(alloc);
    match put_title(alloc, &mut fields, number) {
        Ok(()) => Ok(version_at(alloc, time(1_000), fields)),
        Err(refusal) => {
            drop(fields);
            Err(refusal)
        }
    }
}

// A version of a later time, with notes.
fn noted_version(
    alloc: Global,
    number: u32,
    modified: Stamp,
    notes: &str,
) -> Result<Version, NoMemory>
    ensures { IfOk result (λ version. bare_version version
        ≡ spec.noted_version number modified notes.now) }
{
    let mut fields = List::new(alloc);
    match put_noted(alloc, &mut fields, notes, number) {
        Ok(()) => Ok(version_at(alloc, modified, fields)),
        Err(refusal) => {
            drop(fields);
            Err(refusal)
        }
    }
}

// A version of a later time, with notes, of an entry that was edited, and of another one none.
fn noted_if(
    alloc: Global,
    edited: bool,
    number: u32,
    modified: Stamp,
    notes: &str,
) -> Result<Option<Version>, NoMemory>
    ensures { IfOk result (λ later. option_map bare_version later
        ≡ (if edited then Some (spec.noted_version number modified notes.now) else None)) }
{
    if !edited {
        return Ok(None);
    }
    Ok(Some(noted_version(alloc, number, modified, notes)?))
}

/// The later version of an entry of a copy, if there is one.
pub(crate) fn later_version(
    alloc: Global,
    which: Which,
    number: u32,
) -> Result<Option<Version>, NoMemory>
    requires { number < 50_000 }
    ensures { IfOk result (λ later. option_map bare_version later
        ≡ (rules_of which).later number) }
{
    match which {
        Which::First => noted_if(alloc, number % 3 == 0, number, time(2_000 + number), "a"),
        Which::Second => noted_if(alloc, number % 2 == 0, number, time(2_001 + number), "b"),
    }
}
