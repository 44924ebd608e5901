//! What the fields of a record say: the last of each type that says something.
ghost use Rattle.std.specs.Prelude.{◌≡◌};
ghost use Rattle.std.specs.Option.{option_map};
ghost use Rattle.psafe_core.specs.Records as spec;
ghost use Rattle.psafe_core.specs.Records.{id_in, last_of, moment_in, text_in};
ghost use Rattle.psafe_file.specs.SeenFields.{field_seen, fields_seen};

use psafe_file::{SafeField, kind, moment_of, text_of};
use uuid_core::Uuid;
use vault_model::Stamp;

// The text that a field of this type says.
fn text_in<'a>(kind: u8, field: &SafeField<'a>) -> Option<&'a str>
    ensures { option_map (λ t. t.now) result ≡ text_in kind (field_seen field.now) }
{
    if field.kind != kind {
        return None;
    }
    text_of(field.content)
}

// The moment that a field of this type says.
fn moment_in(kind: u8, field: &SafeField) -> Option<Stamp>
    ensures { result ≡ moment_in kind (field_seen field.now) }
{
    if field.kind != kind {
        return None;
    }
    moment_of(field.content)
}

// The id that a field says.
fn id_in(field: &SafeField) -> Option<Uuid>
    ensures { result ≡ id_in (field_seen field.now) }
{
    if field.kind != kind::ID || field.content.len() != 16 {
        return None;
    }
    let mut bytes = [0; 16];
    bytes.copy_from_slice(field.content);
    Some(Uuid::from_bytes(bytes))
}

/// The text of the last field of this type, if there is one.
pub(crate) fn last_text<'a>(kind: u8, record_fields: &[SafeField<'a>]) -> Option<&'a str>
    ensures { option_map (λ t. t.now) result
        ≡ last_of (text_in kind) (fields_seen record_fields.now) }
{
    let mut last = None;
    for field in record_fields {
        last = text_in(kind, field).or(last);
    }
    last
}

// The moment of the last field of this type that says one.
fn last_moment(kind: u8, record_fields: &[SafeField]) -> Option<Stamp>
    ensures { result ≡ last_of (moment_in kind) (fields_seen record_fields.now) }
{
    let mut last = None;
    for field in record_fields {
        last = moment_in(kind, field).or(last);
    }
    last
}

/// The id that a record has, if it has one.
#[tactic(auto, unfolding(crate::specs::Records::own_id))]
pub(crate) fn own_id(record_fields: &[SafeField]) -> Option<Uuid>
    ensures { result ≡ spec.own_id (fields_seen record_fields.now) }
{
    let mut last = None;
    for field in record_fields {
        last = id_in(field).or(last);
    }
    last
}

/// A time of a record, or else this moment.
pub(crate) fn time_of(kind: u8, now: Stamp, record_fields: &[SafeField]) -> Stamp
    ensures { result ≡ spec.time_of kind now (fields_seen record_fields.now) }
{
    last_moment(kind, record_fields).unwrap_or(now)
}
