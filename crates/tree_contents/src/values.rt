//! Fields with the values that an entry is given.

ghost use Rattle.std.specs.Prelude.{◌≡◌, OnOk, map};
ghost use Rattle.vault_model.specs.Seen.{bare_field};
ghost use Rattle.tree_core.specs.NewNodes as spec;

use crate::fields::{remove_field, set_value};
use outside_core::{List, NoMemory};
use std::alloc::Global;
use tree_core::Values;
use vault_model::{Field, Protection};

// Gives the field of a key another value, where one is given.
fn set_given(
    alloc: Global,
    fields: &mut List<Field>,
    key: &str,
    value: Option<&[u8]>,
    hidden: bool,
) -> Result<(), NoMemory>
    ensures { OnOk result (map bare_field fields.new
        ≡ spec.with_given key.now hidden (spec.lent_value value.entry)
        (map bare_field fields.old)) }
{
    match value {
        Some(value) => set_value(alloc, fields, key, value, hidden),
        None => Ok(()),
    }
}

// The bytes of a text, where it is given.
fn bytes_of(text: Option<&str>) -> Option<&[u8]>
    ensures { spec.lent_value result ≡ spec.lent_value text.entry }
{
    match text {
        Some(text) => Some(text.as_bytes()),
        None => None,
    }
}

// Makes the field `otp` the text that is given, hidden, or takes it away where that is empty.
fn set_otp(alloc: Global, fields: &mut List<Field>, otp: Option<&[u8]>) -> Result<(), NoMemory>
    ensures { OnOk result (map bare_field fields.new
        ≡ spec.with_otp (spec.lent_value otp.entry) (map bare_field fields.old)) }
{
    let Some(text) = otp else {
        return Ok(());
    };
    remove_field(fields, "otp");
    if text.is_empty() {
        return Ok(());
    }
    set_value(alloc, fields, "otp", text, true)
}

// Gives the five fields that every new entry has the values that are given.
fn set_five(
    alloc: Global,
    fields: &mut List<Field>,
    protect: &Protection,
    values: &Values<'_>,
) -> Result<(), NoMemory>
    ensures { OnOk result (map bare_field fields.new
        ≡ spec.with_values protect.now (spec.given_values values.now)
        (map bare_field fields.old)) }
{
    set_given(
        alloc,
        fields,
        "Notes",
        bytes_of(values.notes),
        protect.notes,
    )?;
    set_given(alloc, fields, "Password", values.password, protect.password)?;
    set_given(
        alloc,
        fields,
        "Title",
        bytes_of(values.title),
        protect.title,
    )?;
    set_given(alloc, fields, "URL", bytes_of(values.url), protect.url)?;
    set_given(
        alloc,
        fields,
        "UserName",
        bytes_of(values.user),
        protect.user,
    )
}

/// Gives fields all values that are given.
pub(crate) fn set_values(
    alloc: Global,
    fields: &mut List<Field>,
    protect: &Protection,
    values: &Values<'_>,
) -> Result<(), NoMemory>
    ensures { OnOk result (map bare_field fields.new
        ≡ spec.edited_fields protect.now (spec.given_values values.now)
        (map bare_field fields.old)) }
{
    set_five(alloc, fields, protect, values)?;
    set_otp(alloc, fields, values.otp)
}
