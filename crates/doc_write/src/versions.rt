//! Versions of entries.

ghost use Rattle.std.specs.List.{list_all};
ghost use Rattle.std.specs.Prelude.{◌≡◌, codes, true};
ghost use Rattle.doc_sinks.specs.States.{after_piece, after_pieces};
ghost use Rattle.doc_spelling.specs.Entries as row;
ghost use Rattle.doc_spelling.specs.Pieces.{unless_true, piece_if, pieces_of};
ghost use Rattle.doc_spelling.specs.Ranges.{fits_attachment, fits_item, fits_u32, fits_version, is_uuid};
ghost use Rattle.doc_spelling.specs.Values.{bool_piece};
ghost use Rattle.vault_model.specs.Seen.{bare_content};
ghost use Rattle.vault_model.specs.SeenNodes.{bare_version, entry_record, entry_row};

use crate::attachments::{put_attachments, put_fields};
use crate::icons::{put_icon_names, put_previous};
use crate::items::{put_any_items, put_times};
use doc_forms::Times;
use doc_sinks::{Mark, Pool, TextSink, close, open, put_bool, put_id, put_number, put_text};
use vault_model::{Association, AutoType, Content, DocForm, Entry, Version};

/// Puts a window with its key strokes.
fn put_association<O: TextSink>(out: &mut O, pair: &Association)
    ensures { O.state out.new
        ≡ after_piece O.step (O.state out.old) (row.association_piece pair.now) }
{
    open(out, "Association", Mark::Unmarked);
    put_text(out, "Window", &pair.window);
    put_text(out, "KeystrokeSequence", &pair.keys);
    close(out, "Association");
}

/// Puts windows with their key strokes.
fn put_associations<O: TextSink>(out: &mut O, pairs: &[Association])
    ensures { O.state out.new
        ≡ after_pieces O.step (O.state out.old) (pieces_of row.association_piece pairs.now) }
{
    for pair in pairs {
        put_association(out, pair);
    }
}

/// Puts `AutoType`.
fn put_auto_type<O: TextSink>(out: &mut O, auto_type: &AutoType)
    ensures puts { O.state out.new
        ≡ after_piece O.step (O.state out.old) (row.auto_type_piece auto_type.now) }
    ensures fits { fits_u32 auto_type.now.obfuscation ≡ true }
{
    open(out, "AutoType", Mark::Unmarked);
    put_bool(out, "Enabled", auto_type.enabled);
    put_number(out, "DataTransferObfuscation", auto_type.obfuscation as u64);
    put_text(out, "DefaultSequence", &auto_type.sequence);
    put_associations(out, auto_type.pairs.as_slice());
    close(out, "AutoType");
}

/// Puts the quality of a version, where it is false.
fn put_quality<O: TextSink>(out: &mut O, quality: bool)
    ensures { O.state out.new ≡ after_pieces O.step (O.state out.old)
        (piece_if (bool_piece (codes "QualityCheck")) (unless_true quality)) }
{
    if !quality {
        put_bool(out, "QualityCheck", false);
    }
}

/// Puts the colours, the texts and the quality of a version.
fn put_texts<O: TextSink>(out: &mut O, content: &Content)
    ensures { O.state out.new
        ≡ after_pieces O.step (O.state out.old) (row.text_pieces (bare_content content.now)) }
{
    put_text(out, "ForegroundColor", &content.fore);
    put_text(out, "BackgroundColor", &content.back);
    put_text(out, "OverrideURL", &content.url_override);
    put_text(out, "Tags", &content.tags);
    put_quality(out, content.quality);
}

/// Puts what a version holds: its fields, attachments, auto-type and custom items.
fn put_held<'a, O: TextSink>(out: &mut O, form: DocForm, pool: &Pool<'a>, content: &'a Content)
    ensures puts { O.state out.new ≡ after_pieces O.step (O.state out.old)
        (row.held_pieces form pool.now (bare_content content.now)) }
    ensures attachments { list_all fits_attachment (bare_content content.now).attachments ≡ true }
    ensures obfuscation { fits_u32 content.now.auto_type.obfuscation ≡ true }
    ensures items { list_all fits_item content.now.items ≡ true }
{
    put_fields(out, form, content.fields.as_slice());
    put_attachments(out, pool, content.attachments.as_slice());
    put_auto_type(out, &content.auto_type);
    put_any_items(out, form, content.items.as_slice());
}

/// The times of a version of an entry.
fn version_times(entry: &Entry, version: &Version) -> Times
    ensures { result ≡ row.version_times (entry_record entry.now) (bare_version version.now) }
{
    Times {
        modified: version.modified,
        created: version.content.created,
        accessed: version.stats.accessed,
        expiry: version.content.expiry,
        expires: version.content.expires,
        usage: version.stats.usage,
        placed: entry.placed,
    }
}

/// Puts what an entry says of one of its versions.
pub(crate) fn put_version<'a, O: TextSink>(
    out: &mut O,
    form: DocForm,
    pool: &Pool<'a>,
    entry: &Entry,
    version: &'a Version,
)
    ensures puts { O.state out.new ≡ after_pieces O.step (O.state out.old)
        (row.version_pieces form pool.now (entry_row entry.now) (bare_version version.now)) }
    ensures id { is_uuid entry.now.id ≡ true }
    ensures previous { is_uuid entry.now.previous ≡ true }
    ensures fits { fits_version (entry_record entry.now) (bare_version version.now) ≡ true }
{
    put_id(out, "UUID", entry.id);
    put_icon_names(out, version.content.icon, version.content.custom_icon);
    put_texts(out, &version.content);
    put_previous(out, entry.previous);
    put_times(out, form, version_times(entry, version));
    put_held(out, form, pool, &version.content);
}
