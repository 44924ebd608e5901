//! New entries.

ghost use Rattle.std.specs.Prelude.{◌≡◌, [], ◌∷◌, ◌++◌, IfOk, OnOk, map};
ghost use Rattle.std.specs.Option.{unwrap_or};
ghost use Rattle.vault_model.specs.Db.{nil_id};
ghost use Rattle.vault_model.specs.Seen.{bare_content, bare_field};
ghost use Rattle.vault_model.specs.SeenNodes.{entry_row};
ghost use Rattle.tree_core.specs.NewNodes as spec;

use outside_core::{List, NoMemory, Text};
use std::alloc::Global;
use tree_contents::new_field;
use tree_core::Values;
use tree_steps::put_last;
use uuid_core::Uuid;
use vault_model::{AutoType, Content, Entry, Field, Protection, Stamp, Stats, Version};

// The bytes of a text, none where it is not given.
fn text_or_empty(text: Option<&str>) -> &[u8]
    ensures { result.now ≡ unwrap_or (spec.lent_value text.entry) [] }
{
    match text {
        Some(text) => text.as_bytes(),
        None => &[],
    }
}

// Some bytes, none where they are not given.
fn bytes_or_empty(bytes: Option<&[u8]>) -> &[u8]
    ensures { result.now ≡ unwrap_or (spec.lent_value bytes.entry) [] }
{
    match bytes {
        Some(bytes) => bytes,
        None => &[],
    }
}

// Puts a new field after the others.
fn add_field(
    alloc: Global,
    fields: &mut List<Field>,
    key: &str,
    value: &[u8],
    hidden: bool,
) -> Result<(), NoMemory>
    ensures { OnOk result (map bare_field fields.new
        ≡ map bare_field fields.old ++ spec.field key.now value.now hidden ∷ []) }
{
    put_last(fields, new_field(alloc, key, value, hidden)?)
}

// Puts the five fields of a new entry where none are, by rising key.
fn add_fields(
    alloc: Global,
    list: &mut List<Field>,
    protect: &Protection,
    title: &str,
    values: &Values<'_>,
) -> Result<(), NoMemory>
    requires { list.old ≡ [] }
    ensures { OnOk result (map bare_field list.new
        ≡ spec.new_fields protect.now title.now (spec.given_values values.now)) }
{
    add_field(
        alloc,
        list,
        "Notes",
        text_or_empty(values.notes),
        protect.notes,
    )?;
    let password = bytes_or_empty(values.password);
    add_field(alloc, list, "Password", password, protect.password)?;
    add_field(alloc, list, "Title", title.as_bytes(), protect.title)?;
    add_field(alloc, list, "URL", text_or_empty(values.url), protect.url)?;
    add_field(
        alloc,
        list,
        "UserName",
        text_or_empty(values.user),
        protect.user,
    )
}

/// The five fields of a new entry, by rising key.
pub(crate) fn new_fields(
    alloc: Global,
    protect: &Protection,
    title: &str,
    values: &Values<'_>,
) -> Result<List<Field>, NoMemory>
    ensures { IfOk result (λ fields. map bare_field fields
        ≡ spec.new_fields protect.now title.now (spec.given_values values.now)) }
{
    let mut fields = List::new(alloc);
    match add_fields(alloc, &mut fields, protect, title, values) {
        Ok(()) => Ok(fields),
        Err(fail) => {
            drop(fields);
            Err(fail)
        }
    }
}

// What a new entry says that has these fields.
fn new_content(alloc: Global, fields: List<Field>, now: Stamp) -> Content
    ensures { bare_content result ≡ spec.new_content (map bare_field fields) now }
{
    Content {
        created: now,
        expiry: now,
        expires: false,
        icon: 0,
        custom_icon: None,
        fields,
        attachments: List::new(alloc),
        tags: Text::new(alloc),
        fore: Text::new(alloc),
        back: Text::new(alloc),
        url_override: Text::new(alloc),
        auto_type: AutoType {
            enabled: true,
            obfuscation: 0,
            sequence: Text::new(alloc),
            pairs: List::new(alloc),
        },
        items: List::new(alloc),
        quality: true,
    }
}

/// A new entry of these fields, all of whose times are now. Takes no memory.
pub(crate) fn new_entry(alloc: Global, id: Uuid, fields: List<Field>, now: Stamp) -> Entry
    ensures { entry_row result ≡ (id, spec.new_entry (map bare_field fields) now) }
{
    Entry {
        id,
        placed: now,
        previous: Uuid::nil(),
        current: Version {
            modified: now,
            content: new_content(alloc, fields, now),
            stats: Stats {
                accessed: now,
                usage: 0,
            },
        },
        history: List::new(alloc),
    }
}
