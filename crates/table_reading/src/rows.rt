//! The entries of rows.

ghost use Rattle.std.specs.Prelude.{◌≡◌, [], ◌∷◌, ◌++◌, IfOk, OnOk, map};
ghost use Rattle.csv.specs.Records.{fields_of};
ghost use Rattle.import_tree.specs.SeenEntries.{imported_seen};
ghost use Rattle.table_reading.specs.Refusals.{Returns};
ghost use Rattle.table_reading.specs.Rows as spec;
ghost use Rattle.table_reading.specs.Steps.{AddsRow, AddsRows};

use crate::cells::{cell, otp_of, secret_cell, secret_of, time_of, title_of};
use crate::columns::Columns;
use crate::fails::TableFail;
use crate::groups::group_names;
use csv::StringRecord;
use import_tree::ImportedEntry;
use outside_core::NoMemory;
use std::alloc::Global;
use time_core::Stamp;

/// What is known of all rows: the columns that count, how many fields a row has, and the moment of
/// the import.
#[derive(Clone, Copy)]
pub(crate) struct Table {
    pub(crate) columns: Columns,
    pub(crate) width: usize,
    pub(crate) moment: Stamp,
}

// When an entry was made and changed.
#[derive(Clone, Copy)]
struct Times {
    created: Stamp,
    modified: Stamp,
}

// The time that this text of the row of this number is.
fn row_time(now: Stamp, number: u64, text: &str) -> Result<Stamp, TableFail>
    ensures { result ≡ spec.row_time now number text.now }
{
    time_of(text, now).ok_or(TableFail::BadTime(number))
}

// The times of the row of this number, of as many fields as each row has.
fn times_of(table: &Table, number: u64, row: &StringRecord) -> Result<Times, TableFail>
    ensures { result ≡ spec.row_times table.now number (fields_of row.now) }
{
    if row.len() != table.width {
        return Err(TableFail::RowWidth(number));
    }
    let created = row_time(table.moment, number, cell(row, table.columns.created))?;
    let modified = row_time(table.moment, number, cell(row, table.columns.modified))?;
    Ok(Times { created, modified })
}

// The entry of a row, with these times.
fn timed_entry(
    alloc: Global,
    columns: &Columns,
    row: &StringRecord,
    times: Times,
) -> Result<ImportedEntry, NoMemory>
    ensures { IfOk result (λ entry. imported_seen entry
        ≡ spec.timed_entry columns.now times (fields_of row.now)) }
{
    Ok(ImportedEntry {
        groups: group_names(alloc, cell(row, columns.group))?,
        id: None,
        title: secret_of(alloc, title_of(row, columns.title, columns.url))?,
        user: secret_cell(alloc, row, columns.user)?,
        password: secret_cell(alloc, row, columns.password)?,
        url: secret_cell(alloc, row, columns.url)?,
        notes: secret_cell(alloc, row, columns.notes)?,
        history: None,
        otp: otp_of(alloc, cell(row, columns.otp))?,
        created: times.created,
        modified: times.modified,
    })
}

// The entry of the row of this number.
fn entry_of(
    alloc: Global,
    table: &Table,
    number: u64,
    row: &StringRecord,
) -> Result<ImportedEntry, TableFail>
    ensures { Returns imported_seen result
        (spec.row_entry table.now number (fields_of row.now)) }
{
    let times = times_of(table, number, row)?;
    Ok(timed_entry(alloc, &table.columns, row, times)?)
}

// Puts an entry after others.
fn push_entry(entries: &mut Vec<ImportedEntry>, entry: ImportedEntry) -> Result<(), NoMemory>
    ensures { OnOk result (map imported_seen entries.new.items
        ≡ map imported_seen entries.old.items ++ imported_seen entry ∷ []) }
{
    entries.push(entry)?;
    Ok(())
}

// Puts the entry of the row of this number after others.
fn add_row(
    alloc: Global,
    table: &Table,
    entries: &mut Vec<ImportedEntry>,
    number: u64,
    row: &StringRecord,
) -> Result<(), TableFail>
    ensures { AddsRow table.now number (fields_of row.now) (map imported_seen entries.old.items)
        (map imported_seen entries.new.items) result }
{
    let entry = entry_of(alloc, table, number, row)?;
    Ok(push_entry(entries, entry)?)
}

// Puts the entries of rows after others.
fn add_rows(
    alloc: Global,
    table: &Table,
    entries: &mut Vec<ImportedEntry>,
    rows: &[StringRecord],
) -> Result<(), TableFail>
    requires { entries.old.items ≡ [] }
    ensures { AddsRows table.now (map fields_of rows.now) (map imported_seen entries.new.items)
        result }
{
    for at in 0..rows.len() {
        add_row(alloc, table, entries, at as u64 + 1, &rows[at])?;
    }
    Ok(())
}

/// The entries of rows.
pub(crate) fn entries_of(
    alloc: Global,
    table: &Table,
    rows: &[StringRecord],
) -> Result<Vec<ImportedEntry>, TableFail>
    ensures { Returns (λ entries. map imported_seen entries.items) result
        (spec.row_entries table.now 1 (map fields_of rows.now)) }
{
    let mut entries = Vec::new(alloc);
    match add_rows(alloc, table, &mut entries, rows) {
        Ok(()) => Ok(entries),
        Err(fail) => {
            drop(entries);
            Err(fail)
        }
    }
}
