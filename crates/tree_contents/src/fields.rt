//! Fields, new, with other values and taken away.

ghost use Rattle.std.specs.Prelude.{◌≡◌, [], ◌∷◌, ◌++◌, ◌≤◌, IfOk, OnOk, insert, length, map, slice_get, true};
ghost use Rattle.std.specs.List.{position_from};
ghost use Rattle.std.specs.Option.{option_map, unwrap_or};
ghost use Rattle.std.specs.Str.{bytes_eq};
ghost use Rattle.vault_model.specs.Orders.{bytes_cmp};
ghost use Rattle.vault_model.specs.Seen.{bare_field};
ghost use Rattle.tree_core.specs.NewNodes as spec;
ghost use Rattle.tree_contents.specs.Spots.{changed_nth, spot};
ghost use Rattle.vault_model.specs.Bare.{BareField};

use outside_core::{List, NoMemory, Text};
use secret_core::Secret;
use std::alloc::Global;
use std::cmp::Ordering;
use vault_model::Field;

// A secret of these bytes.
fn secret_of(alloc: Global, bytes: &[u8]) -> Result<Secret, NoMemory>
    ensures { IfOk result (λ secret. secret.bytes ≡ bytes.now) }
{
    let mut secret = Secret::with_room(alloc, bytes.len())?;
    secret.extend(bytes);
    Ok(secret)
}

/// A field of its own memory.
pub fn new_field(alloc: Global, key: &str, value: &[u8], hidden: bool) -> Result<Field, NoMemory>
    ensures { IfOk result (λ field. bare_field field ≡ spec.field key.now value.now hidden) }
{
    Ok(Field {
        key: Text::of(alloc, key)?,
        value: secret_of(alloc, value)?,
        hidden,
    })
}

/// Where the field of a key is, or where it is to be put.
pub(crate) fn field_spot(fields: &[Field], key: &str) -> Result<usize, usize>
    ensures { result ≡ spot (λ f. bytes_cmp key.now f.key) fields.now }
{
    for (at, field) in fields.iter().enumerate() {
        match key.cmp(field.key.as_str()) {
            Ordering::Less => return Err(at),
            Ordering::Equal => return Ok(at),
            Ordering::Greater => {}
        }
    }
    Err(fields.len())
}

// Gives the field at an index another value.
fn replace_value(
    alloc: Global,
    fields: &mut List<Field>,
    at: usize,
    value: &[u8],
) -> Result<(), NoMemory>
    ensures { OnOk result (map bare_field fields.new
        ≡ changed_nth at (λ (f : BareField). record f { value = value.now })
        (map bare_field fields.old)) }
{
    let value = secret_of(alloc, value)?;
    if let Some(field) = fields.get_mut(at) {
        field.value = value;
    }
    Ok(())
}

/// Puts an item before the one at an index. A refusal means that memory ran out.
pub fn insert_at<T: Drop>(list: &mut List<T>, at: usize, item: T) -> Result<(), NoMemory>
    requires { at ≤ length list.old }
    ensures { OnOk result (list.new ≡ insert list.old at item) }
{
    match list.insert(at, item) {
        Ok(()) => Ok(()),
        Err(_) => Err(NoMemory),
    }
}

/// Gives the field of a key another value; a field that was not there is put in its place by rising
/// key.
pub(crate) fn set_value(
    alloc: Global,
    fields: &mut List<Field>,
    key: &str,
    value: &[u8],
    hidden: bool,
) -> Result<(), NoMemory>
    ensures { OnOk result (map bare_field fields.new
        ≡ spec.with_value key.now hidden value.now (map bare_field fields.old)) }
{
    match field_spot(fields.as_slice(), key) {
        Ok(at) => replace_value(alloc, fields, at, value),
        Err(at) => {
            let field = new_field(alloc, key, value, hidden)?;
            insert_at(fields, at, field)
        }
    }
}

// Where the first field of a key is, if there is one.
fn field_index(fields: &[Field], key: &str) -> Option<usize>
    ensures { result ≡ position_from (λ f. bytes_eq key.now f.key) 0 fields.now }
{
    for (at, field) in fields.iter().enumerate() {
        if key == field.key.as_str() {
            return Some(at);
        }
    }
    None
}

/// Takes the field of a key away, where there is one.
pub(crate) fn remove_field(fields: &mut List<Field>, key: &str)
    ensures { map bare_field fields.new ≡ spec.without_field key.now (map bare_field fields.old) }
{
    if let Some(at) = field_index(fields.as_slice(), key) {
        drop(fields.remove(at));
    }
}
