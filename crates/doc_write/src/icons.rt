//! Icons, and the group in which a node was before.

ghost use Rattle.std.specs.List.{list_all};
ghost use Rattle.std.specs.Prelude.{◌≡◌, ◌&&◌, codes, true};
ghost use Rattle.doc_sinks.specs.States.{after_piece, after_pieces};
ghost use Rattle.doc_spelling.specs.Entries as row;
ghost use Rattle.doc_spelling.specs.Metas.{icon_piece};
ghost use Rattle.doc_spelling.specs.Pieces.{box, unless_empty, piece_if, pieces_of, text_piece};
ghost use Rattle.doc_spelling.specs.Ranges.{fits_icon, fits_u32, is_uuid, is_uuid_or_none};

use crate::items::put_change;
use doc_sinks::{Mark, TextSink, close, open, put_coded, put_id, put_number, put_text};
use outside_core::Text;
use uuid_core::Uuid;
use vault_model::{DocForm, Icon};

/// Puts a text, where it is not empty.
pub(crate) fn put_any_text<O: TextSink>(out: &mut O, name: &str, value: &Text)
    ensures { O.state out.new
        ≡ after_pieces O.step (O.state out.old)
        (piece_if (text_piece name.now) (unless_empty value.now)) }
{
    if value.len() != 0 {
        put_text(out, name, value);
    }
}

/// Puts the number of an icon, and the id of a picture that is shown in its place.
pub(crate) fn put_icon_names<O: TextSink>(out: &mut O, icon: u32, custom_icon: Option<Uuid>)
    ensures puts { O.state out.new
        ≡ after_pieces O.step (O.state out.old) (row.icon_pieces icon custom_icon) }
    ensures fits { (fits_u32 icon && is_uuid_or_none custom_icon) ≡ true }
{
    put_number(out, "IconID", icon as u64);
    match custom_icon {
        Some(id) => put_id(out, "CustomIconUUID", id),
        None => {}
    }
}

/// Puts the group in which a node was before, where it was in one.
pub(crate) fn put_previous<O: TextSink>(out: &mut O, previous: Uuid)
    ensures puts { O.state out.new
        ≡ after_pieces O.step (O.state out.old) (row.previous_pieces previous) }
    ensures fits { is_uuid previous ≡ true }
{
    if !previous.is_nil() {
        put_id(out, "PreviousParentGroup", previous);
    }
}

/// Puts a picture.
fn put_icon<O: TextSink>(out: &mut O, form: DocForm, icon: &Icon)
    ensures puts { O.state out.new
        ≡ after_piece O.step (O.state out.old) (icon_piece form icon.now) }
    ensures fits { fits_icon icon.now ≡ true }
{
    open(out, "Icon", Mark::Unmarked);
    put_id(out, "UUID", icon.id);
    put_coded(out, "Data", Mark::Unmarked, icon.bytes.as_slice());
    put_any_text(out, "Name", &icon.name);
    put_change(out, form, icon.changed);
    close(out, "Icon");
}

/// Puts pictures.
fn put_icon_list<O: TextSink>(out: &mut O, form: DocForm, icons: &[Icon])
    ensures puts { O.state out.new
        ≡ after_pieces O.step (O.state out.old) (pieces_of (icon_piece form) icons.now) }
    ensures fits { list_all fits_icon icons.now ≡ true }
{
    for icon in icons {
        put_icon(out, form, icon);
    }
}

/// Puts `CustomIcons`.
pub(crate) fn put_icons<O: TextSink>(out: &mut O, form: DocForm, icons: &[Icon])
    ensures puts { O.state out.new ≡ after_piece O.step (O.state out.old)
        (box (codes "CustomIcons") (pieces_of (icon_piece form) icons.now)) }
    ensures fits { list_all fits_icon icons.now ≡ true }
{
    open(out, "CustomIcons", Mark::Unmarked);
    put_icon_list(out, form, icons);
    close(out, "CustomIcons");
}
