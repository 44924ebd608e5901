//! The fields that an item says.

ghost use Rattle.std.specs.Prelude.{◌≡◌, [], ◌∷◌, ◌++◌, IfOk, OnOk, codes, map, string_bytes, true};
ghost use Rattle.std.specs.List.{list_all};
ghost use Rattle.bitwarden_fields.specs.Keys.{with_fields};
ghost use Rattle.bitwarden_fields.specs.Said as spec;
ghost use Rattle.bitwarden_fields.specs.Seen.{fields_seen};
ghost use Rattle.bitwarden_forms.specs.Seen.{lent_value};
ghost use Rattle.serde_json.specs.View.{view};
ghost use Rattle.vault_model.specs.Proper.{is_text_field};
ghost use Rattle.vault_model.specs.Seen.{bare_field};

use crate::fields::TextField;
use crate::keys::{add_field, by_key, numbered_key};
use crate::objects::add_object;
use bitwarden_forms::{text, values};
use outside_core::{List, NoMemory};
use serde_json::Value;
use std::alloc::Global;
use vault_model::Field;

/// The login of an item, if it has one.
pub fn login_of(item: &Value) -> Option<&Value>
    ensures { lent_value result ≡ spec.login_of (view item.now) }
{
    item.get("login")
}

/// The first address of a login, empty where there is none.
pub fn first_address<'a>(login: Option<&'a Value>) -> &'a str
    ensures { result.now ≡ spec.first_text (spec.addresses_of (lent_value login.entry)) }
{
    match values(login, "uris") {
        [address, ..] => text(Some(address), "uri"),
        [] => "",
    }
}

// Puts the address of a number after the other fields.
fn add_address(
    alloc: Global,
    fields: &mut Vec<TextField>,
    number: u64,
    address: &Value,
) -> Result<(), NoMemory>
    ensures { OnOk result (fields_seen fields.new.items ≡ with_fields
        (spec.address_field (number, view address.now) ∷ []) (fields_seen fields.old.items)) }
{
    let key = numbered_key(alloc, "URL", number)?;
    add_field(
        alloc,
        fields,
        key.as_str(),
        text(Some(address), "uri"),
        false,
    )
}

// Puts the addresses after the first after the other fields.
fn add_addresses(
    alloc: Global,
    fields: &mut Vec<TextField>,
    addresses: &[Value],
) -> Result<(), NoMemory>
    ensures { OnOk result (fields_seen fields.new.items ≡ with_fields
        (spec.more_addresses (map view addresses.now)) (fields_seen fields.old.items)) }
{
    for at in 1..addresses.len() {
        add_address(alloc, fields, at as u64 + 1, &addresses[at])?;
    }
    Ok(())
}

// The URI that begins so and has this secret.
fn code_uri(alloc: Global, secret: &str) -> Result<String, NoMemory>
    ensures { IfOk result (λ uri. string_bytes uri
        ≡ codes "otpauth://totp/?secret=" ++ secret.now) }
{
    let mut uri = String::from_str(alloc, "otpauth://totp/?secret=")?;
    uri.push_str(secret)?;
    Ok(uri)
}

// Puts where one-time codes come from after the other fields.
fn add_code(alloc: Global, fields: &mut Vec<TextField>, code: &str) -> Result<(), NoMemory>
    ensures { OnOk result (fields_seen fields.new.items
        ≡ with_fields (spec.code_field code.now) (fields_seen fields.old.items)) }
{
    if code.is_empty() {
        return Ok(());
    }
    if code.as_bytes().starts_with(b"otpauth://") {
        return add_field(alloc, fields, "otp", code, true);
    }
    let uri = code_uri(alloc, code)?;
    add_field(alloc, fields, "otp", uri.as_str(), true)
}

// Puts the fields of a login that each entry has after the other fields.
fn add_account(
    alloc: Global,
    fields: &mut Vec<TextField>,
    password: &str,
    login: Option<&Value>,
) -> Result<(), NoMemory>
    ensures { OnOk result (fields_seen fields.new.items
        ≡ with_fields (spec.account_fields password.now (lent_value login.entry))
        (fields_seen fields.old.items)) }
{
    add_field(alloc, fields, "UserName", text(login, "username"), false)?;
    add_field(alloc, fields, "Password", password, true)?;
    add_field(alloc, fields, "URL", first_address(login), false)
}

// Puts the fields of a login after the other fields.
fn add_login(
    alloc: Global,
    fields: &mut Vec<TextField>,
    password: &str,
    login: Option<&Value>,
) -> Result<(), NoMemory>
    ensures { OnOk result (fields_seen fields.new.items
        ≡ with_fields (spec.login_fields password.now (lent_value login.entry))
        (fields_seen fields.old.items)) }
{
    add_account(alloc, fields, password, login)?;
    add_addresses(alloc, fields, values(login, "uris"))?;
    add_code(alloc, fields, text(login, "totp"))
}

// Reports whether a field that a user made is hidden.
fn is_hidden(custom: &Value) -> bool
    ensures { result ≡ spec.is_hidden (view custom.now) }
{
    custom.get("type").and_then(Value::as_u64) == Some(1)
}

// Puts a field that a user made after the other fields.
fn add_custom(alloc: Global, fields: &mut Vec<TextField>, custom: &Value) -> Result<(), NoMemory>
    ensures { OnOk result (fields_seen fields.new.items
        ≡ with_fields (spec.custom_field (view custom.now) ∷ []) (fields_seen fields.old.items)) }
{
    let custom_field = Some(custom);
    let key = text(custom_field, "name");
    add_field(
        alloc,
        fields,
        key,
        text(custom_field, "value"),
        is_hidden(custom),
    )
}

// Puts fields that a user made after the other fields.
fn add_customs(
    alloc: Global,
    fields: &mut Vec<TextField>,
    customs: &[Value],
) -> Result<(), NoMemory>
    ensures { OnOk result (fields_seen fields.new.items
        ≡ with_fields (map spec.custom_field (map view customs.now))
        (fields_seen fields.old.items)) }
{
    for custom in customs {
        add_custom(alloc, fields, custom)?;
    }
    Ok(())
}

// Puts the title and the notes after the other fields.
fn add_title(alloc: Global, fields: &mut Vec<TextField>, item: &Value) -> Result<(), NoMemory>
    ensures { OnOk result (fields_seen fields.new.items
        ≡ with_fields (spec.title_fields (view item.now)) (fields_seen fields.old.items)) }
{
    add_field(alloc, fields, "Title", text(Some(item), "name"), false)?;
    add_field(alloc, fields, "Notes", text(Some(item), "notes"), false)
}

// Puts the fields of a card and of an identity after the other fields.
fn add_objects(alloc: Global, fields: &mut Vec<TextField>, item: &Value) -> Result<(), NoMemory>
    ensures { OnOk result (fields_seen fields.new.items
        ≡ with_fields (spec.objects_fields (view item.now)) (fields_seen fields.old.items)) }
{
    add_object(alloc, fields, item.get("card"), true)?;
    add_object(alloc, fields, item.get("identity"), false)
}

// Puts all that an item says with this password after the other fields.
fn add_said(
    alloc: Global,
    fields: &mut Vec<TextField>,
    password: &str,
    item: &Value,
) -> Result<(), NoMemory>
    ensures { OnOk result (fields_seen fields.new.items
        ≡ with_fields (spec.said_fields password.now (view item.now))
        (fields_seen fields.old.items)) }
{
    add_title(alloc, fields, item)?;
    add_login(alloc, fields, password, login_of(item))?;
    add_customs(alloc, fields, values(Some(item), "fields"))?;
    add_objects(alloc, fields, item)
}

// All that an item says with this password, under keys of which each occurs once.
fn gathered(alloc: Global, password: &str, item: &Value) -> Result<Vec<TextField>, NoMemory>
    ensures { IfOk result (λ fields. fields_seen fields.items
        ≡ with_fields (spec.said_fields password.now (view item.now)) []) }
{
    let mut fields = Vec::new(alloc);
    match add_said(alloc, &mut fields, password, item) {
        Ok(()) => Ok(fields),
        Err(fail) => {
            drop(fields);
            Err(fail)
        }
    }
}

/// The fields of an item with this password, by rising key: Title, Notes, UserName, Password, URL,
/// further addresses as `URL 2` and so on, `otp`, then the fields that a user made, and the texts of
/// `card` and `identity`. Where a key stands already, a number from 2 on comes after it.
pub fn fields_of(alloc: Global, password: &str, item: &Value) -> Result<List<Field>, NoMemory>
    ensures is { IfOk result (λ fields. map bare_field fields
        ≡ spec.fields_of password.now (view item.now)) }
    ensures texts { IfOk result (λ fields. list_all is_text_field (map bare_field fields)
        ≡ true) }
{
    match gathered(alloc, password, item) {
        Ok(fields) => by_key(alloc, fields),
        Err(fail) => Err(fail),
    }
}
