//! Which values of an export are of their kinds.

ghost use Rattle.std.specs.Prelude.{◌≡◌, map};
ghost use Rattle.std.specs.List.{list_all, list_any};
ghost use Rattle.bitwarden_forms.specs.Kinds as spec;
ghost use Rattle.serde_json.specs.View.{view};

use crate::dates::date;
use crate::json::{given_member, text};
use serde_json::Value;
use uuid_core::Uuid;

// The id that a value is.
fn id_in(value: &Value) -> Option<Uuid>
    ensures { result ≡ spec.id_in (view value.now) }
{
    match uuid::Uuid::try_parse(value.as_str()?) {
        Ok(id) => Some(Uuid::from_bytes(id.into_bytes())),
        Err(_) => None,
    }
}

// Reports whether a value is a date.
fn is_date(value: &Value) -> bool
    ensures { result ≡ spec.is_date (view value.now) }
{
    match value.as_str() {
        Some(text) => date(text.as_bytes()).is_some(),
        None => false,
    }
}

// Reports whether a member is missing, null or a text.
fn fits_text(value: &Value, name: &str) -> bool
    ensures { result ≡ spec.fits spec.is_text name.now (view value.now) }
{
    match given_member(value, name) {
        Some(member) => member.is_string(),
        None => true,
    }
}

// Reports whether a member is missing, null or a number.
fn fits_number(value: &Value, name: &str) -> bool
    ensures { result ≡ spec.fits spec.is_number name.now (view value.now) }
{
    match given_member(value, name) {
        Some(member) => member.is_number(),
        None => true,
    }
}

// Reports whether a member is missing, null or an object.
fn fits_object(value: &Value, name: &str) -> bool
    ensures { result ≡ spec.fits spec.is_object name.now (view value.now) }
{
    match given_member(value, name) {
        Some(member) => member.is_object(),
        None => true,
    }
}

/// Reports whether a member is missing, null or a list.
pub(crate) fn fits_list(value: &Value, name: &str) -> bool
    ensures { result ≡ spec.fits spec.is_list name.now (view value.now) }
{
    match given_member(value, name) {
        Some(member) => member.is_array(),
        None => true,
    }
}

// Reports whether a member is missing, null or a date.
fn fits_date(value: &Value, name: &str) -> bool
    ensures { result ≡ spec.fits spec.is_date name.now (view value.now) }
{
    match given_member(value, name) {
        Some(member) => is_date(member),
        None => true,
    }
}

// Reports whether a member is missing, null or an id.
fn fits_id(value: &Value, name: &str) -> bool
    ensures { result ≡ spec.fits spec.is_id name.now (view value.now) }
{
    match given_member(value, name) {
        Some(member) => id_in(member).is_some(),
        None => true,
    }
}

/// Reports whether a value is a folder: it has an id and a name.
pub(crate) fn is_folder(value: &Value) -> bool
    ensures { result ≡ spec.is_folder (view value.now) }
{
    value.get("id").and_then(Value::as_str).is_some()
        && value.get("name").and_then(Value::as_str).is_some()
}

/// Reports whether a folder has this id.
pub fn has_id(folder: &Value, id: &str) -> bool
    ensures { result ≡ spec.has_id id.now (view folder.now) }
{
    text(Some(folder), "id") == id
}

// Reports whether one of some folders has this id.
fn any_has_id(folders: &[Value], id: &str) -> bool
    ensures { result ≡ list_any (λ folder. spec.has_id id.now (view folder)) folders.now }
{
    folders.iter().any(|folder| has_id(folder, id))
}

// Reports whether a value is the id of one of some folders.
fn is_folder_id(folders: &[Value], value: &Value) -> bool
    ensures { result ≡ spec.is_folder_id (map view folders.now) (view value.now) }
{
    match value.as_str() {
        Some(id) => any_has_id(folders, id),
        None => false,
    }
}

// Reports whether a member is missing, null or the id of one of some folders.
fn fits_folder_id(folders: &[Value], value: &Value, name: &str) -> bool
    ensures { result ≡ spec.fits (spec.is_folder_id (map view folders.now)) name.now
        (view value.now) }
{
    match given_member(value, name) {
        Some(member) => is_folder_id(folders, member),
        None => true,
    }
}

// Reports whether a value is an address, as a login has them.
fn is_address(value: &Value) -> bool
    ensures { result ≡ spec.is_address (view value.now) }
{
    value.is_object() && fits_text(value, "uri")
}

// Reports whether all of some values are addresses.
fn all_addresses(values: &[Value]) -> bool
    ensures { result ≡ list_all (λ value. spec.is_address (view value)) values.now }
{
    values.iter().all(|value| is_address(value))
}

// Reports whether a value is a list of addresses.
fn are_addresses(value: &Value) -> bool
    ensures { result ≡ spec.is_list_of spec.is_address (view value.now) }
{
    match value.as_array() {
        Some(list) => all_addresses(list.as_slice()),
        None => false,
    }
}

// Reports whether a member is missing, null or a list of addresses.
fn fits_addresses(value: &Value, name: &str) -> bool
    ensures { result ≡ spec.fits (spec.is_list_of spec.is_address) name.now (view value.now) }
{
    match given_member(value, name) {
        Some(member) => are_addresses(member),
        None => true,
    }
}

// Reports whether a value is a login.
fn is_login(value: &Value) -> bool
    ensures { result ≡ spec.is_login (view value.now) }
{
    value.is_object()
        && fits_text(value, "username")
        && fits_text(value, "password")
        && fits_text(value, "totp")
        && fits_addresses(value, "uris")
}

// Reports whether a member is missing, null or a login.
fn fits_login(value: &Value, name: &str) -> bool
    ensures { result ≡ spec.fits spec.is_login name.now (view value.now) }
{
    match given_member(value, name) {
        Some(member) => is_login(member),
        None => true,
    }
}

// Reports whether a value is a field that a user made.
fn is_custom_field(value: &Value) -> bool
    ensures { result ≡ spec.is_custom_field (view value.now) }
{
    value.is_object()
        && fits_text(value, "name")
        && fits_text(value, "value")
        && fits_number(value, "type")
}

// Reports whether all of some values are fields that a user made.
fn all_custom_fields(values: &[Value]) -> bool
    ensures { result ≡ list_all (λ value. spec.is_custom_field (view value)) values.now }
{
    values.iter().all(|value| is_custom_field(value))
}

// Reports whether a value is a list of fields that a user made.
fn are_custom_fields(value: &Value) -> bool
    ensures { result ≡ spec.is_list_of spec.is_custom_field (view value.now) }
{
    match value.as_array() {
        Some(list) => all_custom_fields(list.as_slice()),
        None => false,
    }
}

// Reports whether a member is missing, null or a list of fields that a user made.
fn fits_custom_fields(value: &Value, name: &str) -> bool
    ensures { result ≡ spec.fits (spec.is_list_of spec.is_custom_field) name.now (view value.now) }
{
    match given_member(value, name) {
        Some(member) => are_custom_fields(member),
        None => true,
    }
}

// Reports whether a value is a password that an item had before.
fn is_earlier_password(value: &Value) -> bool
    ensures { result ≡ spec.is_earlier_password (view value.now) }
{
    value.is_object() && fits_date(value, "lastUsedDate") && fits_text(value, "password")
}

// Reports whether all of some values are passwords that an item had before.
fn all_earlier_passwords(values: &[Value]) -> bool
    ensures { result ≡ list_all (λ value. spec.is_earlier_password (view value)) values.now }
{
    values.iter().all(|value| is_earlier_password(value))
}

// Reports whether a value is a list of passwords that an item had before.
fn are_earlier_passwords(value: &Value) -> bool
    ensures { result ≡ spec.is_list_of spec.is_earlier_password (view value.now) }
{
    match value.as_array() {
        Some(list) => all_earlier_passwords(list.as_slice()),
        None => false,
    }
}

// Reports whether a member is missing, null or a list of passwords that an item had before.
fn fits_earlier_passwords(value: &Value, name: &str) -> bool
    ensures { result ≡ spec.fits (spec.is_list_of spec.is_earlier_password) name.now
        (view value.now) }
{
    match given_member(value, name) {
        Some(member) => are_earlier_passwords(member),
        None => true,
    }
}

/// Reports whether a value is an item, where these folders are.
pub(crate) fn is_item(folders: &[Value], value: &Value) -> bool
    ensures { result ≡ spec.is_item (map view folders.now) (view value.now) }
{
    value.is_object()
        && fits_id(value, "id")
        && fits_folder_id(folders, value, "folderId")
        && fits_text(value, "name")
        && fits_text(value, "notes")
        && fits_login(value, "login")
        && fits_custom_fields(value, "fields")
        && fits_object(value, "card")
        && fits_object(value, "identity")
        && fits_date(value, "creationDate")
        && fits_date(value, "revisionDate")
        && fits_earlier_passwords(value, "passwordHistory")
}

/// The id that an item gives, if it gives one.
pub fn given_id(item: &Value) -> Option<Uuid>
    ensures { result ≡ spec.given_id (view item.now) }
{
    id_in(item.get("id")?)
}

/// Reports whether an item gives no nil id.
pub(crate) fn is_not_nil(item: &Value) -> bool
    ensures { result ≡ spec.is_not_nil (view item.now) }
{
    match given_id(item) {
        Some(id) => !id.is_nil(),
        None => true,
    }
}
