//! Fields and attachments.

ghost use Rattle.std.specs.List.{list_all};
ghost use Rattle.std.specs.Prelude.{◌≡◌, map, true};
ghost use Rattle.doc_sinks.specs.States.{after_piece, after_pieces};
ghost use Rattle.doc_spelling.specs.Entries as row;
ghost use Rattle.doc_spelling.specs.Pieces.{pieces_of};
ghost use Rattle.doc_spelling.specs.Ranges.{fits_attachment};
ghost use Rattle.vault_model.specs.Seen.{bare_attachment, bare_field};

use doc_sinks::{Mark, Pool, TextSink, close, open, put_leaf, put_text, put_value};
use vault_model::{Attachment, DocForm, Field};

/// Puts a field.
fn put_field<O: TextSink>(out: &mut O, form: DocForm, field: &Field)
    ensures { O.state out.new
        ≡ after_piece O.step (O.state out.old) (row.field_piece form (bare_field field.now)) }
{
    open(out, "String", Mark::Unmarked);
    put_text(out, "Key", &field.key);
    put_value(out, form, "Value", &field.value, field.hidden);
    close(out, "String");
}

/// Puts fields.
pub(crate) fn put_fields<O: TextSink>(out: &mut O, form: DocForm, fields: &[Field])
    ensures { O.state out.new ≡ after_pieces O.step (O.state out.old)
        (pieces_of (row.field_piece form) (map bare_field fields.now)) }
{
    for field in fields {
        put_field(out, form, field);
    }
}

/// Puts an attachment.
fn put_attachment<'a, O: TextSink>(out: &mut O, pool: &Pool<'a>, file: &'a Attachment)
    ensures puts { O.state out.new ≡ after_piece O.step (O.state out.old)
        (row.attachment_piece pool.now (bare_attachment file.now)) }
    ensures fits { fits_attachment (bare_attachment file.now) ≡ true }
{
    open(out, "Binary", Mark::Unmarked);
    put_text(out, "Key", &file.name);
    put_leaf(out, "Value", Mark::Ref(pool.number_of(file)), b"");
    close(out, "Binary");
}

/// Puts attachments.
pub(crate) fn put_attachments<'a, O: TextSink>(
    out: &mut O,
    pool: &Pool<'a>,
    files: &'a [Attachment],
)
    ensures puts { O.state out.new ≡ after_pieces O.step (O.state out.old)
        (pieces_of (row.attachment_piece pool.now) (map bare_attachment files.now)) }
    ensures fits { list_all fits_attachment (map bare_attachment files.now) ≡ true }
{
    for file in files {
        put_attachment(out, pool, file);
    }
}
