//! Times and custom items.

ghost use Rattle.std.specs.List.{list_all};
ghost use Rattle.std.specs.Prelude.{◌≡◌, true};
ghost use Rattle.doc_sinks.specs.States.{after_piece, after_pieces};
ghost use Rattle.doc_spelling.specs.Pieces.{pieces_of};
ghost use Rattle.doc_spelling.specs.Ranges.{fits_item, fits_times, is_stamp};
ghost use Rattle.doc_spelling.specs.Values as row;

use doc_forms::Times;
use doc_sinks::{Mark, TextSink, close, open, put_bool, put_number, put_text, put_time};
use vault_model::{DocForm, Item, Stamp};

/// Puts `Times`.
pub(crate) fn put_times<O: TextSink>(out: &mut O, form: DocForm, times: Times)
    ensures puts { O.state out.new
        ≡ after_piece O.step (O.state out.old) (row.times_piece form times) }
    ensures fits { fits_times times ≡ true }
{
    open(out, "Times", Mark::Unmarked);
    put_time(out, form, "LastModificationTime", times.modified);
    put_time(out, form, "CreationTime", times.created);
    put_time(out, form, "LastAccessTime", times.accessed);
    put_time(out, form, "ExpiryTime", times.expiry);
    put_bool(out, "Expires", times.expires);
    put_number(out, "UsageCount", times.usage);
    put_time(out, form, "LocationChanged", times.placed);
    close(out, "Times");
}

/// Puts the time of a change, where it is not 0.
pub(crate) fn put_change<O: TextSink>(out: &mut O, form: DocForm, changed: Stamp)
    ensures puts { O.state out.new
        ≡ after_pieces O.step (O.state out.old) (row.change_pieces form changed) }
    ensures fits { is_stamp changed ≡ true }
{
    if changed.seconds() != 0 {
        put_time(out, form, "LastModificationTime", changed);
    }
}

/// Puts a custom item.
fn put_item<O: TextSink>(out: &mut O, form: DocForm, item: &Item)
    ensures puts { O.state out.new
        ≡ after_piece O.step (O.state out.old) (row.item_piece form item.now) }
    ensures fits { fits_item item.now ≡ true }
{
    open(out, "Item", Mark::Unmarked);
    put_text(out, "Key", &item.key);
    put_text(out, "Value", &item.value);
    put_change(out, form, item.changed);
    close(out, "Item");
}

/// Puts custom items.
fn put_item_list<O: TextSink>(out: &mut O, form: DocForm, items: &[Item])
    ensures puts { O.state out.new
        ≡ after_pieces O.step (O.state out.old) (pieces_of (row.item_piece form) items.now) }
    ensures fits { list_all fits_item items.now ≡ true }
{
    for item in items {
        put_item(out, form, item);
    }
}

/// Puts `CustomData`.
pub(crate) fn put_items<O: TextSink>(out: &mut O, form: DocForm, items: &[Item])
    ensures puts { O.state out.new
        ≡ after_piece O.step (O.state out.old) (row.items_piece form items.now) }
    ensures fits { list_all fits_item items.now ≡ true }
{
    open(out, "CustomData", Mark::Unmarked);
    put_item_list(out, form, items);
    close(out, "CustomData");
}

/// Puts `CustomData`, where there are items.
pub(crate) fn put_any_items<O: TextSink>(out: &mut O, form: DocForm, items: &[Item])
    ensures puts { O.state out.new
        ≡ after_pieces O.step (O.state out.old) (row.items_pieces form items.now) }
    ensures fits { list_all fits_item items.now ≡ true }
{
    if !items.is_empty() {
        put_items(out, form, items);
    }
}
