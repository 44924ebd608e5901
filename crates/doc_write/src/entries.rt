//! Entries with their histories.

ghost use Rattle.std.specs.List.{list_all};
ghost use Rattle.std.specs.Prelude.{◌≡◌, map, true};
ghost use Rattle.doc_sinks.specs.States.{after_piece, after_pieces};
ghost use Rattle.doc_spelling.specs.Entries as row;
ghost use Rattle.doc_spelling.specs.Pieces.{pieces_of};
ghost use Rattle.doc_spelling.specs.Ranges.{fits_entry, fits_version};
ghost use Rattle.vault_model.specs.SeenNodes.{bare_version, entry_record, entry_row};

use crate::versions::put_version;
use doc_sinks::{Mark, Pool, TextSink, close, open};
use vault_model::{DocForm, Entry, Version};

/// Puts an earlier version of an entry.
fn put_history_item<'a, O: TextSink>(
    out: &mut O,
    form: DocForm,
    pool: &Pool<'a>,
    entry: &Entry,
    version: &'a Version,
)
    ensures puts { O.state out.new ≡ after_piece O.step (O.state out.old)
        (row.history_item_piece form pool.now (entry_row entry.now) (bare_version version.now)) }
    ensures fits { fits_version (entry_record entry.now) (bare_version version.now) ≡ true }
{
    open(out, "Entry", Mark::Unmarked);
    put_version(out, form, pool, entry, version);
    close(out, "Entry");
}

/// Puts earlier versions of an entry.
fn put_history_items<'a, O: TextSink>(
    out: &mut O,
    form: DocForm,
    pool: &Pool<'a>,
    entry: &Entry,
    history: &'a [Version],
)
    ensures puts { O.state out.new ≡ after_pieces O.step (O.state out.old)
        (pieces_of (row.history_item_piece form pool.now (entry_row entry.now))
        (map bare_version history.now)) }
    ensures fits { list_all (fits_version (entry_record entry.now))
        (map bare_version history.now) ≡ true }
{
    for version in history {
        put_history_item(out, form, pool, entry, version);
    }
}

/// Puts `History`.
fn put_history<'a, O: TextSink>(out: &mut O, form: DocForm, pool: &Pool<'a>, entry: &'a Entry)
    ensures puts { O.state out.new ≡ after_piece O.step (O.state out.old)
        (row.history_piece form pool.now (entry_row entry.now)) }
    ensures fits { list_all (fits_version (entry_record entry.now))
        (entry_record entry.now).history ≡ true }
{
    open(out, "History", Mark::Unmarked);
    put_history_items(out, form, pool, entry, entry.history.as_slice());
    close(out, "History");
}

/// Puts an entry: its current version, and then its history.
fn put_entry<'a, O: TextSink>(out: &mut O, form: DocForm, pool: &Pool<'a>, entry: &'a Entry)
    ensures puts { O.state out.new ≡ after_piece O.step (O.state out.old)
        (row.entry_piece form pool.now (entry_row entry.now)) }
    ensures fits { fits_entry (entry_row entry.now) ≡ true }
{
    open(out, "Entry", Mark::Unmarked);
    put_version(out, form, pool, entry, &entry.current);
    put_history(out, form, pool, entry);
    close(out, "Entry");
}

/// Puts entries.
pub(crate) fn put_entries<'a, O: TextSink>(
    out: &mut O,
    form: DocForm,
    pool: &Pool<'a>,
    entries: &'a [Entry],
)
    ensures puts { O.state out.new ≡ after_pieces O.step (O.state out.old)
        (pieces_of (row.entry_piece form pool.now) (map entry_row entries.now)) }
    ensures fits { list_all fits_entry (map entry_row entries.now) ≡ true }
{
    for entry in entries {
        put_entry(out, form, pool, entry);
    }
}
