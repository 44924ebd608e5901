//! The entries that records give.
ghost use Rattle.std.specs.Prelude.{◌≡◌, [], ◌∷◌, ◌++◌, IfOk, OnOk, false};
ghost use Rattle.std.specs.List.{filter};
ghost use Rattle.std.specs.Option.{option_map};
ghost use Rattle.import_tree.specs.SeenEntries.{imported_seen};
ghost use Rattle.psafe_core.specs.Outcome.{is_nil};
ghost use Rattle.psafe_core.specs.Records as spec;
ghost use Rattle.psafe_core.specs.Records.{group_names, imported_record, is_named, last_of, text_in};
ghost use Rattle.psafe_file.specs.Kinds as spec_kinds;
ghost use Rattle.psafe_file.specs.SeenFields.{fields_seen};

use crate::readings::{last_text, own_id, time_of};
use import_tree::ImportedEntry;
use outside_core::{List, NoMemory, Text};
use psafe_file::{SafeField, kind};
use secret_core::Secret;
use std::alloc::Global;
use vault_model::Stamp;

// A secret copy of a text.
fn secret_of(alloc: Global, text: &str) -> Result<Secret, NoMemory>
    ensures { IfOk result (λ s. s.bytes ≡ text.now) }
{
    let mut secret = Secret::with_room(alloc, text.len())?;
    secret.extend(text.as_bytes());
    Ok(secret)
}

// A text of a record as a secret, empty where it has none.
fn secret_text(alloc: Global, kind: u8, record_fields: &[SafeField]) -> Result<Secret, NoMemory>
    ensures { IfOk result (λ s. s.bytes ≡ spec.text_of kind (fields_seen record_fields.now)) }
{
    match last_text(kind, record_fields) {
        Some(text) => secret_of(alloc, text),
        None => Secret::with_room(alloc, 0),
    }
}

// The passwords that a record had before, if it has them.
fn secret_history(alloc: Global, record_fields: &[SafeField]) -> Result<Option<Secret>, NoMemory>
    ensures { IfOk result (λ h. option_map (λ s. s.bytes) h
        ≡ last_of (text_in spec_kinds.history_kind) (fields_seen record_fields.now)) }
{
    match last_text(kind::HISTORY, record_fields) {
        Some(text) => Ok(Some(secret_of(alloc, text)?)),
        None => Ok(None),
    }
}

// Puts a name after others, unless it is empty.
fn add_name(alloc: Global, names: &mut List<Text>, name: &str) -> Result<(), NoMemory>
    ensures { OnOk result (names.new ≡ names.old ++ filter is_named (name.now ∷ [])) }
{
    if name.is_empty() {
        return Ok(());
    }
    let name = Text::of(alloc, name)?;
    match names.push(name) {
        Ok(()) => Ok(()),
        Err(_) => Err(NoMemory),
    }
}

// Puts the names of the groups that a text names after others.
fn add_names(alloc: Global, names: &mut List<Text>, text: &str) -> Result<(), NoMemory>
    ensures { OnOk result (names.new ≡ names.old ++ group_names text.now) }
{
    let mut rest = text;
    while let Some((name, later)) = rest.split_once('.') {
        add_name(alloc, names, name)?;
        rest = later;
    }
    add_name(alloc, names, rest)?;
    Ok(())
}

// The names of the groups that a text names, with a dot between each two.
fn group_names(alloc: Global, text: &str) -> Result<List<Text>, NoMemory>
    ensures { IfOk result (λ names. names ≡ group_names text.now) }
{
    let mut names = List::new(alloc);
    match add_names(alloc, &mut names, text) {
        Ok(()) => Ok(names),
        Err(fail) => {
            drop(names);
            Err(fail)
        }
    }
}

// The names of the groups of a record.
fn record_groups(alloc: Global, record_fields: &[SafeField]) -> Result<List<Text>, NoMemory>
    ensures { IfOk result (λ names. names
        ≡ group_names (spec.text_of spec_kinds.group_kind (fields_seen record_fields.now))) }
{
    match last_text(kind::GROUP, record_fields) {
        Some(text) => group_names(alloc, text),
        None => Ok(List::new(alloc)),
    }
}

// What names an entry: its title, its user and its URL.
#[derive(Drop)]
struct Names {
    title: Secret,
    user: Secret,
    url: Secret,
}

// What names the entry of a record.
fn names_of(alloc: Global, record_fields: &[SafeField]) -> Result<Names, NoMemory>
    ensures title { IfOk result (λ names. names.title.bytes
        ≡ spec.text_of spec_kinds.title_kind (fields_seen record_fields.now)) }
    ensures user { IfOk result (λ names. names.user.bytes
        ≡ spec.text_of spec_kinds.user_kind (fields_seen record_fields.now)) }
    ensures url { IfOk result (λ names. names.url.bytes
        ≡ spec.text_of spec_kinds.url_kind (fields_seen record_fields.now)) }
{
    let title = secret_text(alloc, kind::TITLE, record_fields)?;
    let user = match secret_text(alloc, kind::USER, record_fields) {
        Ok(user) => user,
        Err(fail) => {
            drop(title);
            return Err(fail);
        }
    };
    match secret_text(alloc, kind::URL, record_fields) {
        Ok(url) => Ok(Names { title, user, url }),
        Err(fail) => {
            drop(title);
            drop(user);
            Err(fail)
        }
    }
}

// What an entry keeps: its password, the passwords before, and its notes.
#[derive(Drop)]
struct Kept {
    password: Secret,
    history: Option<Secret>,
    notes: Secret,
}

// What the entry of a record keeps.
fn kept_of(alloc: Global, record_fields: &[SafeField]) -> Result<Kept, NoMemory>
    ensures password { IfOk result (λ kept. kept.password.bytes
        ≡ spec.text_of spec_kinds.password_kind (fields_seen record_fields.now)) }
    ensures history { IfOk result (λ kept. option_map (λ s. s.bytes) kept.history
        ≡ last_of (text_in spec_kinds.history_kind) (fields_seen record_fields.now)) }
    ensures notes { IfOk result (λ kept. kept.notes.bytes
        ≡ spec.text_of spec_kinds.notes_kind (fields_seen record_fields.now)) }
{
    let password = secret_text(alloc, kind::PASSWORD, record_fields)?;
    let notes = match secret_text(alloc, kind::NOTES, record_fields) {
        Ok(notes) => notes,
        Err(fail) => {
            drop(password);
            return Err(fail);
        }
    };
    match secret_history(alloc, record_fields) {
        Ok(history) => Ok(Kept {
            password,
            history,
            notes,
        }),
        Err(fail) => {
            drop(password);
            drop(notes);
            Err(fail)
        }
    }
}

// The entry of a record, which has these groups and keeps this.
fn entry_with(
    alloc: Global,
    now: Stamp,
    record_fields: &[SafeField],
    groups: List<Text>,
    kept: Kept,
) -> Result<ImportedEntry, NoMemory>
    requires not_nil { is_nil (spec.own_id (fields_seen record_fields.now)) ≡ false }
    requires groups { groups
        ≡ group_names (spec.text_of spec_kinds.group_kind (fields_seen record_fields.now)) }
    requires password { kept.password.bytes
        ≡ spec.text_of spec_kinds.password_kind (fields_seen record_fields.now) }
    requires history { option_map (λ s. s.bytes) kept.history
        ≡ last_of (text_in spec_kinds.history_kind) (fields_seen record_fields.now) }
    requires notes { kept.notes.bytes
        ≡ spec.text_of spec_kinds.notes_kind (fields_seen record_fields.now) }
    ensures { IfOk result (λ e. imported_seen e
        ≡ imported_record now (fields_seen record_fields.now)) }
{
    match names_of(alloc, record_fields) {
        Ok(names) => Ok(ImportedEntry {
            groups,
            id: own_id(record_fields),
            title: names.title,
            user: names.user,
            password: kept.password,
            url: names.url,
            notes: kept.notes,
            history: kept.history,
            otp: None,
            created: time_of(kind::CREATED, now, record_fields),
            modified: time_of(kind::MODIFIED, now, record_fields),
        }),
        Err(fail) => {
            drop(groups);
            drop(kept);
            Err(fail)
        }
    }
}

/// The entry of a record, which has not the nil id.
pub(crate) fn entry_of(
    alloc: Global,
    now: Stamp,
    record_fields: &[SafeField],
) -> Result<ImportedEntry, NoMemory>
    requires { is_nil (spec.own_id (fields_seen record_fields.now)) ≡ false }
    ensures { IfOk result (λ e. imported_seen e
        ≡ imported_record now (fields_seen record_fields.now)) }
{
    let groups = record_groups(alloc, record_fields)?;
    match kept_of(alloc, record_fields) {
        Ok(kept) => entry_with(alloc, now, record_fields, groups, kept),
        Err(fail) => {
            drop(groups);
            Err(fail)
        }
    }
}
