//! The document of a table.

ghost use Rattle.std.specs.Prelude.{◌≡◌, ◌∷◌, IfOk, map};
ghost use Rattle.csv.specs.Records.{fields_of};
ghost use Rattle.table_reading.specs.Columns.{passed_in, passed_names, passed_over};
ghost use Rattle.table_reading.specs.Documents as spec;
ghost use Rattle.table_reading.specs.Refusals.{Returns};
ghost use Rattle.vault_model.specs.SeenDoc.{doc_seen};

use crate::columns::{Columns, columns_of, passed_over};
use crate::fails::TableFail;
use crate::records::rows_of;
use crate::rows::{Table, entries_of};
use csv::StringRecord;
use import_tree::imported_document;
use outside_core::{List, Text};
use std::alloc::Global;
use vault_model::{Doc, Stamp};

/// What a table is imported as: its document, and the names of the columns that are passed over, as
/// they stand in its first row and in their order.
#[derive(Drop)]
pub struct ImportedTable {
    pub doc: Doc,
    pub passed_over: List<Text>,
}

// The document of rows of which this is known.
fn table_document(alloc: Global, table: &Table, rows: &[StringRecord]) -> Result<Doc, TableFail>
    ensures { Returns doc_seen result (spec.table_document table.now (map fields_of rows.now)) }
{
    let entries = entries_of(alloc, table, rows)?;
    Ok(imported_document(alloc, table.moment, entries)?)
}

// Refuses a table without titles.
fn check_columns(columns: &Columns) -> Result<(), TableFail>
    ensures { result ≡ spec.refuse_untitled columns.now.title columns.now.url }
{
    if columns.title.is_none() && columns.url.is_none() {
        return Err(TableFail::ColumnMissing);
    }
    Ok(())
}

// What the rows give that come after the one of these names.
fn named_rows(
    alloc: Global,
    names: &StringRecord,
    rows: &[StringRecord],
    now: Stamp,
) -> Result<ImportedTable, TableFail>
    ensures doc { Returns (λ table. doc_seen table.doc) result
        (spec.rows_document now (fields_of names.now ∷ map fields_of rows.now)) }
    ensures passed { IfOk result (λ table. table.passed_over ≡ passed_names (fields_of names.now)) }
{
    let columns = columns_of(names);
    check_columns(&columns)?;
    let table = Table {
        columns,
        width: names.len(),
        moment: now,
    };
    let passed_over = passed_over(alloc, &columns, names)?;
    match table_document(alloc, &table, rows) {
        Ok(doc) => Ok(ImportedTable { doc, passed_over }),
        Err(fail) => {
            drop(passed_over);
            Err(fail)
        }
    }
}

// What all rows of a table give.
fn all_rows(alloc: Global, rows: &[StringRecord], now: Stamp) -> Result<ImportedTable, TableFail>
    ensures doc { Returns (λ table. doc_seen table.doc) result
        (spec.rows_document now (map fields_of rows.now)) }
    ensures passed { IfOk result (λ table. table.passed_over ≡ passed_in (map fields_of rows.now)) }
{
    match rows {
        [names, rows @ ..] => named_rows(alloc, names, rows, now),
        [] => Err(TableFail::ColumnMissing),
    }
}

// Refuses bytes that are not UTF-8.
fn check_bytes(bytes: &[u8]) -> Result<(), TableFail>
    ensures { result ≡ spec.checked_bytes bytes.now }
{
    match str::from_utf8(bytes) {
        Ok(_) => Ok(()),
        Err(fail) => Err(TableFail::NotUtf8(fail.valid_up_to() as u64)),
    }
}

/// What a table as CSV (RFC 4180) is imported as: an entry for each row after the first, which names
/// the columns. A blank line is no row, and a byte order mark at the start is dropped.
///
/// The names of columns are those that password managers write, as they are listed in the
/// definition; they are compared without the white space around them and without the case of ASCII
/// letters. Of several columns with one meaning the last counts, and the others are passed over.
/// Where no column has titles, the title is the host of the URL.
///
/// The group is a path of names with slashes between them; empty names are passed over, and then a
/// first name `Root`, which is the root. Groups are made as they come. Times are ISO, as
/// `2024-01-31T12:00:00Z`, and now where they are empty or have no column. Passwords are hidden, and
/// so is the source of one-time codes, which becomes the field `otp`. Ids are made of what entries
/// say and of the names of groups.
///
/// While it runs, the rows, and so the passwords in them, are in memory of the crate `csv` that is
/// not wiped.
///
/// # Errors
///
/// In this order: [`TableFail::NotUtf8`], [`TableFail::ColumnMissing`]; of the first row that has
/// one, [`TableFail::RowWidth`] or [`TableFail::BadTime`]; [`TableFail::DuplicateId`],
/// [`TableFail::TooDeep`]. [`TableFail::NoMemory`] where memory runs out.
pub fn import_csv(alloc: Global, bytes: &[u8], now: Stamp) -> Result<ImportedTable, TableFail>
    ensures doc { Returns (λ table. doc_seen table.doc) result (spec.csv_document bytes.now now) }
    ensures passed { IfOk result (λ table. table.passed_over ≡ passed_over bytes.now) }
{
    check_bytes(bytes)?;
    let rows = rows_of(alloc, bytes)?;
    all_rows(alloc, rows.as_slice(), now)
}
