//! The table of a document.

ghost use Rattle.std.specs.Prelude.{◌≡◌, IfOk, OnOk, length};
ghost use Rattle.table_core.specs.Rows.{table_of};
ghost use Rattle.vault_model.specs.SeenDoc.{doc_seen};

use crate::groups::put_group;
use crate::rows::put_header;
use crate::sinks::{Counter, TableSink};
use outside_core::NoMemory;
use secret_core::Secret;
use std::alloc::Global;
use vault_model::Doc;

/// Why a table was not read or written.
#[derive(Clone, Copy)]
pub enum TableFail {
    /// Memory ran out.
    NoMemory,
}

impl From<NoMemory> for TableFail {
    ghost use Rattle.table_core.specs.declared.export.TableFail.TheVariants as fail;

    ghost from_gives = { λ _ e. e ≡ fail.NoMemory };

    fn from(_none: NoMemory) -> TableFail {
        TableFail::NoMemory
    }
}

// Puts the table of a document.
fn put_table<O: TableSink>(alloc: Global, out: &mut O, doc: &Doc) -> Result<(), NoMemory>
    ensures { OnOk result (O.state out.new
        ≡ O.step (O.state out.old) (table_of (doc_seen doc.now))) }
{
    put_header(out)?;
    let name = doc.root.state.content.name.as_str().as_bytes();
    put_group(alloc, out, &[name], &doc.root)
}

// How many bytes the table of a document has.
fn table_len(alloc: Global, doc: &Doc) -> Result<usize, NoMemory>
    ensures { IfOk result (λ len. len ≡ length (table_of (doc_seen doc.now))) }
{
    let mut counter = Counter { len: 0 };
    put_table(alloc, &mut counter, doc)?;
    Ok(counter.len)
}

/// The table of a document as CSV: a row of names, and one for each entry with its current version,
/// in document order. Every field is in quotes, and each row ends with a line feed. The columns are
/// the names that lead to the entry's group from the root, with a slash between each two, the
/// values of its title, user name, password, URL and notes as they are kept, references not
/// replaced, and the times of its last change and of its creation.
///
/// The text, which has passwords, is counted before memory for it is taken, once and no more than
/// it needs.
///
/// # Errors
///
/// Only [`TableFail::NoMemory`].
pub fn export_csv(alloc: Global, doc: &Doc) -> Result<Secret, TableFail>
    ensures { IfOk result (λ text. text.bytes ≡ table_of (doc_seen doc.now)) }
{
    let mut text = Secret::with_room(alloc, table_len(alloc, doc)?)?;
    match put_table(alloc, &mut text, doc) {
        Ok(()) => Ok(text),
        Err(_none) => {
            drop(text);
            Err(TableFail::NoMemory)
        }
    }
}
