//! Importing a file: its document, or the first reason why it has none.
ghost use Rattle.std.specs.Prelude.{◌≡◌, ◌∷◌, [], ◌++◌, ℕ, List, None, IfOk, OnOk, false, map};
ghost use Rattle.import_tree.specs.Outcome.{imported_document};
ghost use Rattle.import_tree.specs.SeenEntries.{imported_seen};
ghost use Rattle.mac_core.specs.Hmac256.{HasAbsorbed};
ghost use Rattle.psafe_core.specs.Outcome.{content_outcome, is_nil, nil_record, of_tree, or_field_form, or_tree_fail, psafe_outcome, records_outcome};
ghost use Rattle.psafe_core.specs.Records as spec;
ghost use Rattle.psafe_core.specs.Records.{imported_record, imported_records};
ghost use Rattle.psafe_file.specs.Faults.{sound_fields};
ghost use Rattle.psafe_file.specs.Fields.{contents_of};
ghost use Rattle.psafe_file.specs.Fields as fields_spec;
ghost use Rattle.psafe_file.specs.SeenFields.{fields_seen, records_seen};
ghost use Rattle.psafe_file.specs.Opened.{content_seen};
ghost use Rattle.psafe_file.specs.Results.{Returns};
ghost use Rattle.vault_model.specs.SeenDoc.{doc_seen};

use crate::PsafeFail;
use crate::entries::entry_of;
use crate::readings::own_id;
use import_tree::{ImportedEntry, TreeFail, imported_document};
use mac_core::Hmac256;
use outside_core::{List, NoMemory};
use psafe_file::{
    FieldsFail, OpenedSafe, SafeField, check_mac, open_safe, read_fields, records_of,
};
use std::alloc::Global;
use vault_model::{Doc, Stamp};

// The fields of the deciphered bytes.
fn fields_of(alloc: Global, bytes: &[u8]) -> Result<List<SafeField>, PsafeFail>
    ensures { Returns fields_seen result (or_field_form (sound_fields bytes.now)) }
{
    match read_fields(alloc, bytes) {
        Ok(fields) => Ok(fields),
        Err(FieldsFail::FieldForm(place)) => Err(PsafeFail::FieldForm(place)),
        Err(FieldsFail::NoMemory) => Err(PsafeFail::NoMemory),
    }
}

// Gives the contents of fields to a MAC.
fn absorb_fields(computed: &mut Hmac256, fields: &[SafeField])
    ensures { (key message : List ℕ) → HasAbsorbed computed.old key message
        → HasAbsorbed computed.new key (message ++ contents_of (fields_seen fields.now)) }
{
    for field in fields {
        computed.update(field.content);
    }
}

// Reports whether a record has the nil id.
fn has_nil_id(record_fields: &[SafeField]) -> bool
    ensures { result ≡ is_nil (spec.own_id (fields_seen record_fields.now)) }
{
    match own_id(record_fields) {
        Some(id) => id.is_nil(),
        None => false,
    }
}

// The number of the first record that has the nil id, if one has it.
fn nil_record(records: &[&[SafeField]]) -> Option<u64>
    ensures { result ≡ nil_record 1 (records_seen records.now) }
{
    for at in 0..records.len() {
        if has_nil_id(records[at]) {
            return Some(at as u64 + 1);
        }
    }
    None
}

// Puts the entry of a record after others.
fn add_record(
    alloc: Global,
    now: Stamp,
    entries: &mut Vec<ImportedEntry>,
    record_fields: &[SafeField],
) -> Result<(), NoMemory>
    requires { is_nil (spec.own_id (fields_seen record_fields.now)) ≡ false }
    ensures { OnOk result (map imported_seen entries.new.items ≡ map imported_seen entries.old.items
        ++ imported_record now (fields_seen record_fields.now) ∷ []) }
{
    let entry = entry_of(alloc, now, record_fields)?;
    entries.push(entry)?;
    Ok(())
}

// Puts the entries of records after others.
fn add_records(
    alloc: Global,
    now: Stamp,
    entries: &mut Vec<ImportedEntry>,
    records: &[&[SafeField]],
) -> Result<(), NoMemory>
    requires { nil_record 1 (records_seen records.now) ≡ None }
    ensures { OnOk result (map imported_seen entries.new.items ≡ map imported_seen entries.old.items
        ++ imported_records now (records_seen records.now)) }
{
    for at in 0..records.len() {
        add_record(alloc, now, entries, records[at])?;
    }
    Ok(())
}

// The entries of records.
fn entries_of(
    alloc: Global,
    now: Stamp,
    records: &[&[SafeField]],
) -> Result<Vec<ImportedEntry>, NoMemory>
    requires { nil_record 1 (records_seen records.now) ≡ None }
    ensures { IfOk result (λ entries. map imported_seen entries.items
        ≡ imported_records now (records_seen records.now)) }
{
    let mut entries = Vec::new(alloc);
    match add_records(alloc, now, &mut entries, records) {
        Ok(()) => Ok(entries),
        Err(fail) => {
            drop(entries);
            Err(fail)
        }
    }
}

// A refusal of imported entries, as one of the file.
fn of_tree(refusal: TreeFail) -> PsafeFail
    ensures { result ≡ of_tree refusal }
{
    match refusal {
        TreeFail::DuplicateId(id) => PsafeFail::DuplicateId(id),
        TreeFail::TooDeep(id) => PsafeFail::TooDeep(id),
        TreeFail::NoMemory => PsafeFail::NoMemory,
    }
}

// The document of the entries of records.
fn finish(alloc: Global, now: Stamp, entries: Vec<ImportedEntry>) -> Result<Doc, PsafeFail>
    ensures { Returns doc_seen result
        (or_tree_fail (imported_document now (map imported_seen entries.items))) }
{
    match imported_document(alloc, now, entries) {
        Ok(doc) => Ok(doc),
        Err(refusal) => Err(of_tree(refusal)),
    }
}

// The document of records.
#[tactic(auto, unfolding(crate::specs::Outcome::records_outcome))]
fn document_of(alloc: Global, now: Stamp, records: &[&[SafeField]]) -> Result<Doc, PsafeFail>
    ensures { Returns doc_seen result (records_outcome now (records_seen records.now)) }
{
    if let Some(number) = nil_record(records) {
        return Err(PsafeFail::NilId(number));
    }
    match entries_of(alloc, now, records) {
        Ok(entries) => finish(alloc, now, entries),
        Err(fail) => Err(PsafeFail::from(fail)),
    }
}

// The document of the records that fields make up.
fn read_records(alloc: Global, now: Stamp, fields: &[SafeField]) -> Result<Doc, PsafeFail>
    ensures { Returns doc_seen result
        (records_outcome now (fields_spec.records_of (fields_seen fields.now))) }
{
    let records = records_of(alloc, fields)?;
    let read = document_of(alloc, now, records.as_slice());
    drop(records);
    read
}

// The document of deciphered bytes whose MAC is kept; the other was given nothing yet.
#[tactic(auto, unfolding(crate::specs::Outcome::content_outcome))]
fn read_bytes(
    alloc: Global,
    now: Stamp,
    bytes: &[u8],
    mac: &[u8; 32],
    mut computed: Hmac256,
) -> Result<Doc, PsafeFail>
    ensures { (key : List ℕ) → HasAbsorbed computed key []
        → Returns doc_seen result
        (content_outcome key now (record { bytes = bytes.now; mac = mac.now })) }
{
    let fields = fields_of(alloc, bytes)?;
    absorb_fields(&mut computed, fields.as_slice());
    if let Err(fail) = check_mac(mac, computed) {
        drop(fields);
        return Err(fail);
    }
    let read = read_records(alloc, now, fields.as_slice());
    drop(fields);
    read
}

// The document of what a password opened; the MAC was given nothing yet.
fn read_content(alloc: Global, now: Stamp, safe: OpenedSafe) -> Result<Doc, PsafeFail>
    ensures { (key : List ℕ) → HasAbsorbed safe.computed key []
        → Returns doc_seen result (content_outcome key now (content_seen safe)) }
{
    let OpenedSafe {
        bytes,
        mac,
        computed,
    } = safe;
    let read = read_bytes(alloc, now, bytes.lend(0, bytes.len()), &mac, computed);
    drop(bytes);
    read
}

/// The document that a file of Password Safe V3 of these bytes is imported as, under a password.
///
/// Each record gives an entry, in a group below the root for each name that its group has, with a
/// dot between each two; every time is now that the record does not give. The passwords that a
/// record had before are kept as they stand, in the hidden field `PasswordHistory`. Whatever the
/// answer, the keys that were derived were cleared and released.
///
/// # Errors
///
/// The first that holds in the order of [`PsafeFail`]'s variants.
#[tactic(auto, unfolding(crate::specs::Outcome::psafe_outcome))]
pub fn import_psafe(
    alloc: Global,
    bytes: &[u8],
    password: &[u8],
    now: Stamp,
) -> Result<Doc, PsafeFail>
    ensures { Returns doc_seen result (psafe_outcome bytes.now password.now now) }
{
    let safe = open_safe(alloc, bytes, password)?;
    read_content(alloc, now, safe)
}
