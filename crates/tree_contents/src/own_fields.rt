//! Fields of one's own: those that get a value, and those that are taken away.

ghost use Rattle.std.specs.Prelude.{◌≡◌, ◌||◌, OnOk, map};
ghost use Rattle.std.specs.List.{zip};
ghost use Rattle.vault_model.specs.Bare.{BareField};
ghost use Rattle.vault_model.specs.Seen.{bare_field};
ghost use Rattle.tree_core.specs.FurtherChanges as spec;
ghost use Rattle.tree_contents.specs.Spots.{changed_nth};

use crate::fields::{field_spot, insert_at, new_field, remove_field};
use outside_core::{List, NoMemory, Text};
use secret_core::Secret;
use std::alloc::Global;
use tree_core::TreeFail;
use vault_model::Field;

// Gives the field at an index a value, and hides it where that is said.
fn replace_own_value(
    alloc: Global,
    fields: &mut List<Field>,
    at: usize,
    value: &Secret,
    protect: bool,
) -> Result<(), NoMemory>
    ensures { OnOk result (map bare_field fields.new ≡ changed_nth at (λ (f : BareField). record f {
      value = value.now.bytes;
      hidden = f.hidden || protect;
    }) (map bare_field fields.old)) }
{
    let value = value.copy(alloc)?;
    if let Some(field) = fields.get_mut(at) {
        field.value = value;
        field.hidden = field.hidden || protect;
    }
    Ok(())
}

// Gives the field of a name a value, and hides it where that is said; a field that was not there is
// put in its place by rising name.
fn set_own_value(
    alloc: Global,
    fields: &mut List<Field>,
    name: &str,
    value: &Secret,
    protect: bool,
) -> Result<(), NoMemory>
    ensures { OnOk result (map bare_field fields.new
        ≡ spec.with_own_value protect (name.now, value.now.bytes) (map bare_field fields.old)) }
{
    match field_spot(fields.as_slice(), name) {
        Ok(at) => replace_own_value(alloc, fields, at, value, protect),
        Err(at) => {
            let field = new_field(alloc, name, value.lend(0, value.len()), protect)?;
            insert_at(fields, at, field)
        }
    }
}

/// Gives the fields of these names these values, one after another, as long as there are both.
pub(crate) fn set_own_values(
    alloc: Global,
    fields: &mut List<Field>,
    names: &[Text],
    values: &[Secret],
    protect: bool,
) -> Result<(), NoMemory>
    ensures { OnOk result (map bare_field fields.new
        ≡ spec.with_own_values protect (zip names.now (map (λ value. value.bytes) values.now))
        (map bare_field fields.old)) }
{
    for (at, name) in names.iter().enumerate() {
        let Some(value) = values.get(at) else {
            return Ok(());
        };
        set_own_value(alloc, fields, name.as_str(), value, protect)?;
    }
    Ok(())
}

/// Takes the fields of these names away, as far as they are there.
pub(crate) fn remove_fields(fields: &mut List<Field>, names: &[Text])
    ensures { map bare_field fields.new
        ≡ spec.without_fields names.now (map bare_field fields.old) }
{
    for name in names {
        remove_field(fields, name.as_str());
    }
}

// Reports whether a field of this name is there.
fn has_field(fields: &[Field], name: &str) -> bool
    ensures { result ≡ spec.has_field name.now (map bare_field fields.now) }
{
    for field in fields {
        if name == field.key.as_str() {
            return true;
        }
    }
    false
}

/// Reports the place of the first of these names that is no field's, if there is one.
pub fn check_fields(fields: &[Field], names: &[Text]) -> Result<(), TreeFail>
    ensures { result ≡ spec.missing_from 0 names.now (map bare_field fields.now) }
{
    for (place, name) in names.iter().enumerate() {
        if !has_field(fields, name.as_str()) {
            return Err(TreeFail::NoField(place as u64));
        }
    }
    Ok(())
}
