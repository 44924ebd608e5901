//! Documents as wholes.

ghost use Rattle.std.specs.List.{list_all};
ghost use Rattle.std.specs.Option.{option_copied};
ghost use Rattle.std.specs.Prelude.{◌≡◌, ◌&&◌, true};
ghost use Rattle.doc_sinks.specs.Chunks.{plain};
ghost use Rattle.doc_sinks.specs.States.{after_piece, after_pieces};
ghost use Rattle.doc_spelling.specs.Documents as row;
ghost use Rattle.doc_spelling.specs.Pieces.{pieces_of};
ghost use Rattle.doc_spelling.specs.Ranges.{fits_doc, fits_tomb, fits_tree};
ghost use Rattle.doc_write.specs.Written.{front_text};
ghost use Rattle.vault_model.specs.SeenDoc.{doc_seen};
ghost use Rattle.vault_model.specs.SeenNodes.{tree_seen};

use crate::groups::put_group;
use crate::metas::put_meta;
use doc_sinks::{Mark, Pool, TextSink, close, open, put_id, put_time};
use vault_model::{Doc, DocForm, Tombstone};

/// Puts a tombstone.
fn put_tomb<O: TextSink>(out: &mut O, form: DocForm, tomb: &Tombstone)
    ensures puts { O.state out.new
        ≡ after_piece O.step (O.state out.old) (row.tomb_piece form tomb.now) }
    ensures fits { fits_tomb tomb.now ≡ true }
{
    open(out, "DeletedObject", Mark::Unmarked);
    put_id(out, "UUID", tomb.id);
    put_time(out, form, "DeletionTime", tomb.deleted);
    close(out, "DeletedObject");
}

/// Puts tombstones.
fn put_tomb_list<O: TextSink>(out: &mut O, form: DocForm, tombs: &[Tombstone])
    ensures puts { O.state out.new
        ≡ after_pieces O.step (O.state out.old) (pieces_of (row.tomb_piece form) tombs.now) }
    ensures fits { list_all fits_tomb tombs.now ≡ true }
{
    for tomb in tombs {
        put_tomb(out, form, tomb);
    }
}

/// Puts `DeletedObjects`.
fn put_tombs<O: TextSink>(out: &mut O, form: DocForm, tombs: &[Tombstone])
    ensures puts { O.state out.new
        ≡ after_piece O.step (O.state out.old) (row.tombs_piece form tombs.now) }
    ensures fits { list_all fits_tomb tombs.now ≡ true }
{
    open(out, "DeletedObjects", Mark::Unmarked);
    put_tomb_list(out, form, tombs);
    close(out, "DeletedObjects");
}

/// Puts `Root`.
fn put_root<'a, O: TextSink>(out: &mut O, form: DocForm, pool: &Pool<'a>, doc: &'a Doc)
    ensures puts { O.state out.new
        ≡ after_piece O.step (O.state out.old) (row.root_piece form pool.now (doc_seen doc.now)) }
    ensures fits { (fits_tree (tree_seen doc.now.root) && list_all fits_tomb doc.now.tombs)
        ≡ true }
{
    open(out, "Root", Mark::Unmarked);
    put_group(out, form, pool, &doc.root);
    put_tombs(out, form, doc.tombs.as_slice());
    close(out, "Root");
}

/// Puts `KeePassFile`.
fn put_file<'a, O: TextSink>(
    out: &mut O,
    form: DocForm,
    hash: Option<&[u8; 32]>,
    pool: &Pool<'a>,
    doc: &'a Doc,
)
    ensures puts { O.state out.new ≡ after_piece O.step (O.state out.old)
        (row.file_piece form (option_copied hash.entry) pool.now (doc_seen doc.now)) }
    ensures fits { fits_doc (doc_seen doc.now) ≡ true }
{
    open(out, "KeePassFile", Mark::Unmarked);
    put_meta(out, form, hash, pool, &doc.meta);
    put_root(out, form, pool, doc);
    close(out, "KeePassFile");
}

/// Puts the whole text of a document, with the hash of the header of its file and with its pool.
pub(crate) fn put_document<'a, O: TextSink>(
    out: &mut O,
    form: DocForm,
    hash: Option<&[u8; 32]>,
    pool: &Pool<'a>,
    doc: &'a Doc,
)
    ensures puts { O.state out.new
        ≡ after_piece O.step (O.step (O.state out.old) (plain front_text))
        (row.file_piece form (option_copied hash.entry) pool.now (doc_seen doc.now)) }
    ensures fits { fits_doc (doc_seen doc.now) ≡ true }
{
    out.put(b"<?xml version=\"1.0\" encoding=\"utf-8\"?>\n");
    put_file(out, form, hash, pool, doc);
}
