//! Exports, read: which bytes are one, or the first reason why they are not.

ghost use Rattle.std.specs.Prelude.{◌≡◌, ◌+◌, ◌<◌, ◌^◌, IfSome, codes, map, not, option_map, position};
ghost use Rattle.bitwarden_forms.specs.Exports as spec;
ghost use Rattle.bitwarden_forms.specs.Kinds as kinds_spec;
ghost use Rattle.bitwarden_forms.specs.Refusals.{Returns};
ghost use Rattle.serde_json.specs.View.{view};

use crate::fails::BitwardenFail;
use crate::json::values;
use crate::kinds::{fits_list, is_folder, is_item, is_not_nil};
use serde_json::Value;
use std::alloc::Global;

// The value that bytes are in JSON.
fn json_of(alloc: Global, bytes: &[u8]) -> Result<Value, BitwardenFail>
    ensures { Returns view result (spec.json_of bytes.now) }
{
    match Value::from_slice(alloc, bytes) {
        Ok(value) => Ok(value),
        Err(error) if error.is_memory() => Err(BitwardenFail::NoMemory),
        Err(_) => Err(BitwardenFail::JsonForm),
    }
}

/// The folders of an export, of which each gives a group.
pub fn folders_of(export: &Value) -> &[Value]
    ensures { map view result.now ≡ spec.folders_in (view export.now) }
{
    values(Some(export), "folders")
}

/// The items of an export, of which each gives an entry.
pub fn items_of(export: &Value) -> &[Value]
    ensures { map view result.now ≡ spec.items_in (view export.now) }
{
    values(Some(export), "items")
}

// Reports whether an export says that it is encrypted.
fn is_encrypted(export: &Value) -> bool
    ensures { result ≡ spec.is_encrypted (view export.now) }
{
    export.get("encrypted").and_then(Value::as_bool) == Some(true)
}

// The number from 1 of what is at a place.
fn number_of(place: Option<usize>) -> Option<u64>
    requires { IfSome place (λ at. at < 2 ^ 63) }
    ensures { result ≡ option_map (λ at. at + 1) place }
{
    match place {
        Some(at) => Some(at as u64 + 1),
        None => None,
    }
}

// The place of the first value that is no folder.
fn other_than_folder(folders: &[Value]) -> Option<usize>
    ensures place { result
        ≡ position (λ value. not (kinds_spec.is_folder (view value))) folders.now }
    ensures within { IfSome result (λ at. at < 2 ^ 63) }
{
    folders.iter().position(|value| !is_folder(value))
}

// The place of the first value that is no item, where these folders are.
fn other_than_item(folders: &[Value], items: &[Value]) -> Option<usize>
    ensures place { result ≡ position
        (λ value. not (kinds_spec.is_item (map view folders.now) (view value))) items.now }
    ensures within { IfSome result (λ at. at < 2 ^ 63) }
{
    items.iter().position(|value| !is_item(folders, value))
}

// The place of the first item whose id is nil.
fn nil_item(items: &[Value]) -> Option<usize>
    ensures place { result
        ≡ position (λ value. not (kinds_spec.is_not_nil (view value))) items.now }
    ensures within { IfSome result (λ at. at < 2 ^ 63) }
{
    items.iter().position(|value| !is_not_nil(value))
}

// The number of the first value that is no folder.
fn first_no_folder(folders: &[Value]) -> Option<u64>
    ensures { result ≡ spec.first_other kinds_spec.is_folder (map view folders.now) }
{
    number_of(other_than_folder(folders))
}

// The number of the first value that is no item, where these folders are.
fn first_no_item(folders: &[Value], items: &[Value]) -> Option<u64>
    ensures { result
        ≡ spec.first_other (kinds_spec.is_item (map view folders.now)) (map view items.now) }
{
    number_of(other_than_item(folders, items))
}

// The number of the first item whose id is nil.
fn first_nil(items: &[Value]) -> Option<u64>
    ensures { result ≡ spec.first_other kinds_spec.is_not_nil (map view items.now) }
{
    number_of(nil_item(items))
}

// The number of the first folder that is not as it has to be; 0 where there is no list of them.
fn folder_fault(export: &Value) -> Option<u64>
    ensures { result ≡ spec.fault_in kinds_spec.is_folder (codes "folders") (view export.now) }
{
    if fits_list(export, "folders") {
        first_no_folder(folders_of(export))
    } else {
        Some(0)
    }
}

// The number of the first item that is not as it has to be; 0 where there is no list of them.
fn item_fault(export: &Value) -> Option<u64>
    ensures { result ≡ spec.fault_in (kinds_spec.is_item (spec.folders_in (view export.now)))
        (codes "items") (view export.now) }
{
    if fits_list(export, "items") {
        first_no_item(folders_of(export), items_of(export))
    } else {
        Some(0)
    }
}

// Refuses a value that is no export.
fn refuse_export(export: &Value) -> Result<(), BitwardenFail>
    ensures { result ≡ spec.refuse_export (view export.now) }
{
    if !export.is_object() {
        return Err(BitwardenFail::JsonForm);
    }
    if is_encrypted(export) {
        return Err(BitwardenFail::Encrypted);
    }
    if let Some(number) = folder_fault(export) {
        return Err(BitwardenFail::FolderForm(number));
    }
    if let Some(number) = item_fault(export) {
        return Err(BitwardenFail::Member(number));
    }
    match first_nil(items_of(export)) {
        Some(number) => Err(BitwardenFail::NilId(number)),
        None => Ok(()),
    }
}

/// The export that bytes are: an object in JSON (RFC 8259) of at most 127 levels that is not
/// encrypted. Members that it does not name are passed over; one that is null counts as missing.
///
/// - Each folder has a text `id` and a text `name`.
/// - Each item is an object. `id` is a UUID, `folderId` the id of a folder; `name` and `notes` are
///   texts, `creationDate` and `revisionDate` dates, `card` and `identity` objects.
/// - `login` is an object with the texts `username`, `password` and `totp`, and with a list `uris` of
///   objects with a text `uri`.
/// - `fields` is a list of objects with the texts `name` and `value` and the number `type`.
/// - `passwordHistory` is a list of objects with a date `lastUsedDate` and a text `password`.
///
/// # Errors
///
/// In this order: [`BitwardenFail::JsonForm`], [`BitwardenFail::Encrypted`],
/// [`BitwardenFail::FolderForm`], [`BitwardenFail::Member`], [`BitwardenFail::NilId`].
/// [`BitwardenFail::NoMemory`] where memory runs out.
pub fn read_export(alloc: Global, bytes: &[u8]) -> Result<Value, BitwardenFail>
    ensures { Returns view result (spec.export_of bytes.now) }
{
    let value = json_of(alloc, bytes)?;
    match refuse_export(&value) {
        Ok(()) => Ok(value),
        Err(fail) => {
            drop(value);
            Err(fail)
        }
    }
}
