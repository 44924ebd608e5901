//! Entries by their ids, which documents lend.
ghost use Rattle.std.specs.Prelude.{◌≡◌, ◌++◌, IfOk, OnOk, map};
ghost use Rattle.std.specs.FinMap.{get};
ghost use Rattle.vault_model.specs.SeenDoc.{doc_seen};
ghost use Rattle.vault_model.specs.SeenNodes.{entry_record, entry_row, tree_seen};
ghost use Rattle.vault_model.specs.Tree.{entry_rows};
ghost use Rattle.merge_details.specs.Conflicts.{entry_in};

use crate::tables::table_of;
use merge_tables::tables::Table;
use outside_core::NoMemory;
use std::alloc::Global;
use std::marker::Model;
use uuid_core::Uuid;
use vault_model::{Doc, Entry, Group};

/// An entry, which a document lends.
#[derive(Drop)]
pub(crate) struct LentEntry<'a> {
    entry: &'a Entry,
}

impl<'a> Model for LentEntry<'a> {
    ghost use Rattle.vault_model.specs.Shape.{EntryRecord};
    ghost use Rattle.vault_model.specs.SeenNodes.{entry_record};
    ghost use Rattle.merge_nodes.specs.RecordCodes.{entry_code};

    ghost Value = { EntryRecord };

    ghost coded = { entry_code };

    ghost view = { λ lent. entry_record lent.entry.now };
}

impl<'a> LentEntry<'a> {
    /// The entry.
    pub(crate) fn entry(&self) -> &'a Entry
        ensures { entry_record result.now ≡ self.now }
    {
        self.entry
    }
}

/// The entries of a document beside their ids, in document order.
pub(crate) type EntryRows<'a> = Vec<(Uuid, LentEntry<'a>)>;

/// The entries of a document by their ids.
pub(crate) type Entries<'a> = Table<LentEntry<'a>>;

// Puts entries after others.
fn push_entries<'a>(rows: &mut EntryRows<'a>, entries: &'a [Entry]) -> Result<(), NoMemory>
    ensures { OnOk result (rows.new.items ≡ rows.old.items ++ map entry_row entries.now) }
{
    for entry in entries {
        match rows.push((entry.id, LentEntry { entry })) {
            Ok(()) => {}
            Err(_row) => return Err(NoMemory),
        }
    }
    Ok(())
}

// Puts the entries of a group and of all groups below it after others.
fn push_group<'a>(rows: &mut EntryRows<'a>, group: &'a Group) -> Result<(), NoMemory>
    ensures { OnOk result (rows.new.items ≡ rows.old.items ++ entry_rows (tree_seen group.now)) }
{
    push_entries(rows, group.entries.as_slice())?;
    for child in group.groups.as_slice() {
        push_group(rows, child)?;
    }
    Ok(())
}

/// The entries of a document beside their ids, in document order.
pub(crate) fn rows_of<'a>(alloc: Global, doc: &'a Doc) -> Result<EntryRows<'a>, NoMemory>
    ensures { IfOk result (λ rows. rows.items ≡ entry_rows (doc_seen doc.now).tree) }
{
    let mut rows = Vec::new(alloc);
    push_group(&mut rows, &doc.root)?;
    Ok(rows)
}

/// The entries of a document by their ids.
pub(crate) fn entries_of<'a>(alloc: Global, doc: &'a Doc) -> Result<Entries<'a>, NoMemory>
    ensures { IfOk result (λ entries. get entries ≡ entry_in (doc_seen doc.now)) }
{
    let rows = rows_of(alloc, doc)?;
    let entries = table_of(alloc, rows)?;
    Ok(entries)
}

/// The entries of some documents by their ids.
pub(crate) fn all_entries_of<'a>(
    alloc: Global,
    docs: &'a [Doc],
) -> Result<Vec<Entries<'a>>, NoMemory>
    ensures { IfOk result (λ all. map get all.items ≡ map entry_in (map doc_seen docs.now)) }
{
    let mut all = Vec::new(alloc);
    for doc in docs {
        let entries = entries_of(alloc, doc)?;
        match all.push(entries) {
            Ok(()) => {}
            Err(_entries) => return Err(NoMemory),
        }
    }
    Ok(all)
}
