//! What is made of the entries of an imported file.

ghost use Rattle.std.specs.Prelude.{◌≡◌, [], ◌∷◌, ◌++◌, IfOk, OnOk, codes, map, true, false};
ghost use Rattle.import_tree.specs.Entries as spec;
ghost use Rattle.import_tree.specs.SeenEntries.{imported_seen, text_seen};
ghost use Rattle.vault_model.specs.Seen.{bare_content, bare_field};
ghost use Rattle.vault_model.specs.SeenNodes.{entry_row};

use crate::imported::ImportedEntry;
use outside_core::{List, NoMemory, Text};
use secret_core::Secret;
use std::alloc::Global;
use tree_groups::tree_steps::put_last;
use uuid_core::Uuid;
use vault_model::{AutoType, Content, Entry, Field, Stamp, Stats, Version};

// Puts a field after the others.
fn add_field(
    alloc: Global,
    fields: &mut List<Field>,
    key: &str,
    value: Secret,
    hidden: bool,
) -> Result<(), NoMemory>
    ensures { OnOk result (map bare_field fields.new
        ≡ map bare_field fields.old ++ spec.field key.now value.bytes hidden ∷ []) }
{
    let key = Text::of(alloc, key)?;
    put_last(fields, Field { key, value, hidden })
}

// Puts a hidden field after the others, where there is a text for it.
fn add_hidden(
    alloc: Global,
    fields: &mut List<Field>,
    key: &str,
    text: Option<Secret>,
) -> Result<(), NoMemory>
    ensures { OnOk result (map bare_field fields.new
        ≡ map bare_field fields.old ++ spec.hidden_field key.now (text_seen text)) }
{
    match text {
        Some(text) => add_field(alloc, fields, key, text, true),
        None => Ok(()),
    }
}

// Texts that come after the passwords.
#[derive(Drop)]
struct Names {
    title: Secret,
    url: Secret,
    user: Secret,
    otp: Option<Secret>,
}

// Puts the passwords after the other fields.
fn add_passwords(
    alloc: Global,
    fields: &mut List<Field>,
    password: Secret,
    history: Option<Secret>,
) -> Result<(), NoMemory>
    ensures { OnOk result (map bare_field fields.new ≡ map bare_field fields.old
        ++ spec.field (codes "Password") password.bytes true
        ∷ spec.history_field (text_seen history)) }
{
    match add_field(alloc, fields, "Password", password, true) {
        Ok(()) => add_hidden(alloc, fields, "PasswordHistory", history),
        Err(fail) => {
            drop(history);
            Err(fail)
        }
    }
}

// Puts a user's name and the source of one-time codes after the other fields.
fn add_user(
    alloc: Global,
    fields: &mut List<Field>,
    user: Secret,
    otp: Option<Secret>,
) -> Result<(), NoMemory>
    ensures { OnOk result (map bare_field fields.new ≡ map bare_field fields.old
        ++ spec.field (codes "UserName") user.bytes false
        ∷ spec.otp_field (text_seen otp)) }
{
    match add_field(alloc, fields, "UserName", user, false) {
        Ok(()) => add_hidden(alloc, fields, "otp", otp),
        Err(fail) => {
            drop(otp);
            Err(fail)
        }
    }
}

// Puts a place, a user's name and the source of one-time codes after the other fields.
fn add_place(
    alloc: Global,
    fields: &mut List<Field>,
    url: Secret,
    user: Secret,
    otp: Option<Secret>,
) -> Result<(), NoMemory>
    ensures { OnOk result (map bare_field fields.new ≡ map bare_field fields.old
        ++ spec.field (codes "URL") url.bytes false
        ∷ spec.field (codes "UserName") user.bytes false
        ∷ spec.otp_field (text_seen otp)) }
{
    match add_field(alloc, fields, "URL", url, false) {
        Ok(()) => add_user(alloc, fields, user, otp),
        Err(fail) => {
            drop(user);
            drop(otp);
            Err(fail)
        }
    }
}

// Puts the texts that come after the passwords after the other fields.
fn add_names(alloc: Global, fields: &mut List<Field>, names: Names) -> Result<(), NoMemory>
    ensures { OnOk result (map bare_field fields.new ≡ map bare_field fields.old
        ++ spec.field (codes "Title") names.title.bytes false
        ∷ spec.field (codes "URL") names.url.bytes false
        ∷ spec.field (codes "UserName") names.user.bytes false
        ∷ spec.otp_field (text_seen names.otp)) }
{
    let Names {
        title,
        url,
        user,
        otp,
    } = names;
    match add_field(alloc, fields, "Title", title, false) {
        Ok(()) => add_place(alloc, fields, url, user, otp),
        Err(fail) => {
            drop(url);
            drop(user);
            drop(otp);
            Err(fail)
        }
    }
}

// Puts the notes and the passwords after the other fields.
fn add_first(
    alloc: Global,
    fields: &mut List<Field>,
    notes: Secret,
    password: Secret,
    history: Option<Secret>,
) -> Result<(), NoMemory>
    ensures { OnOk result (map bare_field fields.new ≡ map bare_field fields.old
        ++ spec.field (codes "Notes") notes.bytes false
        ∷ spec.field (codes "Password") password.bytes true
        ∷ spec.history_field (text_seen history)) }
{
    match add_field(alloc, fields, "Notes", notes, false) {
        Ok(()) => add_passwords(alloc, fields, password, history),
        Err(fail) => {
            drop(password);
            drop(history);
            Err(fail)
        }
    }
}

// Puts the fields of an imported entry after others, by rising key.
fn add_fields(alloc: Global, fields: &mut List<Field>, entry: ImportedEntry) -> Result<(), NoMemory>
    ensures { OnOk result (map bare_field fields.new
        ≡ map bare_field fields.old ++ spec.fields_of (imported_seen entry)) }
{
    let names = Names {
        title: entry.title,
        url: entry.url,
        user: entry.user,
        otp: entry.otp,
    };
    match add_first(alloc, fields, entry.notes, entry.password, entry.history) {
        Ok(()) => add_names(alloc, fields, names),
        Err(fail) => {
            drop(names);
            Err(fail)
        }
    }
}

// The fields of an imported entry, by rising key.
fn fields_of(alloc: Global, entry: ImportedEntry) -> Result<List<Field>, NoMemory>
    ensures { IfOk result (λ fields. map bare_field fields ≡ spec.fields_of (imported_seen entry)) }
{
    let mut fields = List::new(alloc);
    match add_fields(alloc, &mut fields, entry) {
        Ok(()) => Ok(fields),
        Err(fail) => {
            drop(fields);
            Err(fail)
        }
    }
}

// What an entry says that has these fields and was made then.
fn content_of(alloc: Global, fields: List<Field>, created: Stamp, now: Stamp) -> Content
    ensures { bare_content result ≡ spec.content_at now created (map bare_field fields) }
{
    Content {
        created,
        expiry: now,
        expires: false,
        icon: 0,
        custom_icon: None,
        fields,
        attachments: List::new(alloc),
        tags: Text::new(alloc),
        fore: Text::new(alloc),
        back: Text::new(alloc),
        url_override: Text::new(alloc),
        auto_type: AutoType {
            enabled: true,
            obfuscation: 0,
            sequence: Text::new(alloc),
            pairs: List::new(alloc),
        },
        items: List::new(alloc),
        quality: true,
    }
}

/// The entry of this id that is made of an imported entry at a moment.
pub(crate) fn entry_of(
    alloc: Global,
    now: Stamp,
    id: Uuid,
    entry: ImportedEntry,
) -> Result<Entry, NoMemory>
    ensures { IfOk result (λ made. entry_row made ≡ (id, spec.entry_at now (imported_seen entry))) }
{
    let created = entry.created;
    let modified = entry.modified;
    let fields = fields_of(alloc, entry)?;
    Ok(Entry {
        id,
        placed: now,
        previous: Uuid::nil(),
        current: Version {
            modified,
            content: content_of(alloc, fields, created, now),
            stats: Stats {
                accessed: now,
                usage: 0,
            },
        },
        history: List::new(alloc),
    })
}
