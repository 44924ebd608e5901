//! The first fault in the deciphered bytes.
ghost use Rattle.std.specs.Prelude.{◌≡◌};
ghost use Rattle.outside_core.specs.Results.{Returns};
ghost use Rattle.psafe_file.specs.Faults.{first_fault, first_faulty, sound_fields};
ghost use Rattle.psafe_file.specs.Fields.{is_ended};
ghost use Rattle.psafe_file.specs.SeenFields.{fields_seen, meaning_of, table_seen};

use crate::contents::{is_faulty, kind};
use crate::fields::{FieldTable, SafeField, cut_fields};
use crate::records::after_header;
use outside_core::{List, NoMemory};
use std::alloc::Global;

/// Why deciphered bytes give no fields.
#[derive(Clone, Copy)]
pub enum FieldsFail {
    /// The bytes are malformed at this offset: a field of a record that begins there has not the
    /// form of its type, a field that begins there passes the end, or the header or a record is not
    /// ended, and the offset is the number of bytes.
    FieldForm(u64),
    /// Memory ran out.
    NoMemory,
}

impl From<NoMemory> for FieldsFail {
    ghost use Rattle.psafe_file.specs.declared.faults.FieldsFail.TheVariants as fail;

    ghost from_gives = { λ _ e. e ≡ fail.NoMemory };

    fn from(_none: NoMemory) -> FieldsFail {
        FieldsFail::NoMemory
    }
}

// The place of the first faulty field of records.
fn first_faulty(fields: &[SafeField]) -> Option<usize>
    ensures { result ≡ first_faulty (fields_seen fields.now) }
{
    for field in fields {
        if is_faulty(field.kind, field.content) {
            return Some(field.offset);
        }
    }
    None
}

// Reports whether the last field ends the header or a record.
fn is_ended(fields: &[SafeField]) -> bool
    ensures { result ≡ is_ended (fields_seen fields.now) }
{
    match fields.last() {
        Some(field) => field.kind == kind::END,
        None => false,
    }
}

// The place of the first fault in the fields of so many bytes.
fn first_fault(len: usize, table: &FieldTable) -> Option<usize>
    ensures { result ≡ first_fault len (table_seen table.now) }
{
    let fields = table.fields.as_slice();
    if let Some(place) = first_faulty(after_header(fields)) {
        return Some(place);
    }
    if let Some(place) = table.cut_off {
        return Some(place);
    }
    if is_ended(fields) { None } else { Some(len) }
}

/// The fields of the deciphered bytes, header and records, which lend their contents.
///
/// # Errors
///
/// [`FieldsFail::FieldForm`] with the place of the first fault: of a record, a text that is not
/// UTF-8, an id that has not 16 bytes, or a time of 4, 5 or 8 bytes that is after the year 9999; a
/// field that passes the end; or a header or record that is not ended. Of the header's fields no
/// content is tested. [`FieldsFail::NoMemory`] where memory runs out.
#[tactic(auto, unfolding(crate::specs::Faults::sound_fields))]
pub fn read_fields(alloc: Global, bytes: &[u8]) -> Result<List<SafeField>, FieldsFail>
    ensures { Returns meaning_of fields_seen result (sound_fields bytes.now) }
{
    let table = cut_fields(alloc, bytes)?;
    match first_fault(bytes.len(), &table) {
        Some(place) => Err(FieldsFail::FieldForm(place as u64)),
        None => Ok(table.fields),
    }
}
