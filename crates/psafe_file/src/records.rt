//! The header and the records that fields make up.
ghost use Rattle.std.specs.Prelude.{◌≡◌, ◌≤◌, [], ◌∷◌, ◌++◌, IfOk, OnOk, drop, length};
ghost use Rattle.std.specs.Option.{MatchOption};
ghost use Rattle.psafe_file.specs.Fields.{after_header, records_of};
ghost use Rattle.psafe_file.specs.SeenFields.{fields_seen, records_seen};
ghost use Rattle.psafe_file.specs.Ends.{AreUnended, EndsFirst};

use crate::contents::kind;
use crate::fields::SafeField;
use outside_core::{List, NoMemory};
use std::alloc::Global;

// The index of the first field that ends the header or a record.
fn first_end(fields: &[SafeField]) -> Option<usize>
    ensures { MatchOption result (AreUnended (fields_seen fields.now))
        (λ at. EndsFirst (fields_seen fields.now) at) }
{
    for at in 0..fields.len() {
        if fields[at].kind == kind::END {
            return Some(at);
        }
    }
    None
}

// How many fields the header takes, with the one that ends it.
fn header_len(fields: &[SafeField]) -> usize
    ensures after { after_header (fields_seen fields.now) ≡ drop result (fields_seen fields.now) }
    ensures within { result ≤ length fields.now }
{
    match first_end(fields) {
        Some(end) => end + 1,
        None => fields.len(),
    }
}

/// The fields after the header, which make up the records.
pub(crate) fn after_header<'a, 'b>(fields: &'b [SafeField<'a>]) -> &'b [SafeField<'a>]
    ensures { fields_seen result.now ≡ after_header (fields_seen fields.now) }
{
    &fields[header_len(fields)..]
}

// Puts a record after others.
fn add_record<'a, 'b>(
    records: &mut List<&'b [SafeField<'a>]>,
    record_fields: &'b [SafeField<'a>],
) -> Result<(), NoMemory>
    ensures { OnOk result (records_seen records.new
        ≡ records_seen records.old ++ fields_seen record_fields.now ∷ []) }
{
    match records.push(record_fields) {
        Ok(()) => Ok(()),
        Err(_) => Err(NoMemory),
    }
}

/// The records of all fields: the fields of each, without the one that ends it. The only refusal is
/// that memory ran out.
pub fn records_of<'a, 'b>(
    alloc: Global,
    fields: &'b [SafeField<'a>],
) -> Result<List<&'b [SafeField<'a>]>, NoMemory>
    ensures { IfOk result (λ records. records_seen records ≡ records_of (fields_seen fields.now)) }
{
    let mut records = List::new(alloc);
    let mut start = header_len(fields);
    while let Some(len) = first_end(&fields[start..]) {
        add_record(&mut records, &fields[start..start + len])?;
        start += len + 1;
    }
    Ok(records)
}
