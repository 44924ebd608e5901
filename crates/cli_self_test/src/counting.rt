//! How much is in a database.
ghost use Rattle.std.specs.Prelude.{◌≡◌, ◌+◌, IfOk, length};
ghost use Rattle.std.specs.FinMap.{entries, values};
ghost use Rattle.std.specs.List.{sum_by};
ghost use Rattle.vault_model.specs.SeenDoc.{doc_seen};
ghost use Rattle.vault_model.specs.Tree.{db_in};
ghost use Rattle.merge_tables.specs.Databases.{database};
ghost use Rattle.cli_self_test.specs.SelfTest.{counts_of, earlier_count};

use merge_reading::lending::database_of;
use merge_tables::databases::Database;
use merge_tables::tables::Table;
use merge_tables::versions::VersionTable;
use outside_core::NoMemory;
use std::alloc::Global;
use vault_model::Doc;

/// How many entries, earlier versions of them, groups and tombstones are in a database.
#[derive(Clone, Copy)]
pub(crate) struct Counts {
    pub entries: usize,
    pub history: usize,
    pub groups: usize,
    pub tombs: usize,
}

// A sum; more than there are of addresses is more than memory holds.
fn sum(count: usize, more: usize) -> Result<usize, NoMemory>
    ensures { IfOk result (λ sum. sum ≡ count + more) }
{
    match count.checked_add(more) {
        Some(sum) => Ok(sum),
        None => Err(NoMemory),
    }
}

// How many rows a table has.
fn rows_in<X>(table: &Table<X>) -> Result<usize, NoMemory>
    ensures { IfOk result (λ count. count ≡ length (entries table.now)) }
{
    let mut count = 0;
    for (_, value) in table.iter() {
        count = sum(count, 1)?;
    }
    Ok(count)
}

// How many versions the entries of a table have besides the newest of each.
fn history_in(table: &Table<VersionTable>) -> Result<usize, NoMemory>
    ensures { IfOk result (λ count. count ≡ sum_by earlier_count (values table.now)) }
{
    let mut count = 0;
    for (_, versions) in table.iter() {
        count = sum(count, versions.rows().len().saturating_sub(1))?;
    }
    Ok(count)
}

// How much is in a database.
fn counts_in(from: &Database) -> Result<Counts, NoMemory>
    ensures { IfOk result (λ counts. counts ≡ counts_of (database from.now)) }
{
    Ok(Counts {
        entries: rows_in(&from.entries)?,
        history: history_in(&from.entries)?,
        groups: rows_in(&from.groups)?,
        tombs: rows_in(&from.tombs)?,
    })
}

/// How much is in the database of a document.
pub(crate) fn counted(alloc: Global, doc: &Doc) -> Result<Counts, NoMemory>
    ensures { IfOk result (λ counts. counts ≡ counts_of (db_in (doc_seen doc.now))) }
{
    let read = database_of(alloc, doc, doc.root.id)?;
    let counts = counts_in(&read);
    drop(read);
    counts
}
