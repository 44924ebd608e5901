//! The rows of a text.

ghost use Rattle.std.specs.Prelude.{◌≡◌, [], ◌∷◌, ◌++◌, IfOk, IsOkAnd, OnOk, map};
ghost use Rattle.csv.specs.Reading.{default_config, records, strip_bom};
ghost use Rattle.csv.specs.Records.{fields_of};

use csv::{Error, ReaderBuilder, StringRecord};
use outside_core::NoMemory;
use std::alloc::Global;

// Puts a row that was read after the others.
fn put_row(rows: &mut Vec<StringRecord>, row: Result<StringRecord, Error>) -> Result<(), NoMemory>
    ensures { OnOk result (IsOkAnd row (λ r. rows.new.items ≡ rows.old.items ++ r ∷ [])) }
{
    match row {
        Ok(row) => {
            rows.push(row)?;
            Ok(())
        }
        Err(_) => Err(NoMemory),
    }
}

/// The rows of a text of CSV (RFC 4180), with the settings of the crate `csv`: fields between
/// commas, which quotes may be around, and rows that end with CR, LF or both. A blank line is no
/// row, and a byte order mark at the start is dropped. The text is in UTF-8, so that the only refusal
/// is that memory ran out.
///
/// The rows, and what `csv` gathers them in, are in memory that is not wiped; so are the passwords in
/// them.
pub(crate) fn rows_of(alloc: Global, text: &[u8]) -> Result<Vec<StringRecord>, NoMemory>
    ensures { IfOk result (λ rows. map fields_of rows.items
        ≡ records default_config (strip_bom text.now)) }
{
    let reader = ReaderBuilder::new()
        .has_headers(false)
        .flexible(true)
        .from_reader(alloc, text);
    let mut rows = Vec::new(alloc);
    for row in reader.into_records() {
        if let Err(refusal) = put_row(&mut rows, row) {
            drop(rows);
            return Err(refusal);
        }
    }
    Ok(rows)
}
