//! The fields of cards and identities.

ghost use Rattle.std.specs.Prelude.{◌≡◌, OnOk};
ghost use Rattle.bitwarden_fields.specs.Keys.{with_fields};
ghost use Rattle.bitwarden_fields.specs.Said as spec;
ghost use Rattle.bitwarden_fields.specs.Seen.{fields_seen};
ghost use Rattle.bitwarden_forms.specs.Seen.{lent_value};
ghost use Rattle.serde_json.specs.View.{members_view, view};

use crate::fields::TextField;
use crate::keys::add_field;
use outside_core::NoMemory;
use serde_json::{Map, Value};
use std::alloc::Global;

// Puts a member after the other fields, if it is a text.
fn add_member(
    alloc: Global,
    fields: &mut Vec<TextField>,
    name: &str,
    value: &Value,
    hidden: bool,
) -> Result<(), NoMemory>
    ensures { OnOk result (fields_seen fields.new.items
        ≡ with_fields (spec.member_field hidden name.now (view value.now))
        (fields_seen fields.old.items)) }
{
    match value {
        Value::String(text) => add_field(alloc, fields, name, text.as_str(), hidden),
        Value::Null => Ok(()),
        Value::Bool(_) => Ok(()),
        Value::Number(_) => Ok(()),
        Value::Array(_) => Ok(()),
        Value::Object(_) => Ok(()),
    }
}

// Reports whether a member of a card, or of an identity, is hidden.
fn is_secret(is_card: bool, name: &str) -> bool
    ensures { result ≡ spec.is_secret is_card name.now }
{
    is_card && (name == "number" || name == "code")
}

// Puts the members that are texts after the other fields.
fn add_members(
    alloc: Global,
    fields: &mut Vec<TextField>,
    members: &Map<String, Value>,
    is_card: bool,
) -> Result<(), NoMemory>
    ensures { OnOk result (fields_seen fields.new.items
        ≡ with_fields (spec.member_fields is_card (members_view members.now.entries))
        (fields_seen fields.old.items)) }
{
    for (key, value) in members.iter() {
        let name = key.as_str();
        add_member(alloc, fields, name, value, is_secret(is_card, name))?;
    }
    Ok(())
}

/// Puts the members of a card or an identity that are texts after the other fields, if there is one.
pub(crate) fn add_object(
    alloc: Global,
    fields: &mut Vec<TextField>,
    object: Option<&Value>,
    is_card: bool,
) -> Result<(), NoMemory>
    ensures { OnOk result (fields_seen fields.new.items
        ≡ with_fields (spec.object_fields is_card (lent_value object.entry))
        (fields_seen fields.old.items)) }
{
    match object {
        Some(Value::Object(members)) => add_members(alloc, fields, members, is_card),
        _ => Ok(()),
    }
}
