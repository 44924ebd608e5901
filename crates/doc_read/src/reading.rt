//! Reading a document.

ghost use Rattle.std.specs.Prelude.{◌≡◌, IfOk, map};
ghost use Rattle.stream_core.specs.InnerStream.{IsAt};
ghost use Rattle.doc_forms.specs.Documents as spec;
ghost use Rattle.doc_forms.specs.Refusals.{Returns};
ghost use Rattle.doc_forms.specs.SeenDocuments.{parts_seen, pool_item, read_seen};
ghost use Rattle.doc_forms.specs.SeenTexts.{setting_of};

use crate::document::read_document;
use doc_forms::{DocFail, DocParts, ReadDoc};
use doc_resolving::resolve;
use outside_core::List;
use std::alloc::Global;
use std::mem;
use stream_core::InnerStream;
use vault_model::{DocForm, PoolItem};

/// Reads what a text says in one form, up to its end, with the stream that hides its values, at its
/// start. The text may be dropped before [`resolve`] makes the document, so that the two need not be
/// in memory together. The stream is used up: it must not be used again.
///
/// # Errors
///
/// Those of [`read_doc`] that are reached before the end of the text.
pub fn read_parts(
    alloc: Global,
    text: &[u8],
    form: DocForm,
    stream: &mut InnerStream,
) -> Result<DocParts, DocFail>
    requires { IsAt stream.old 0 }
    ensures parts { Returns parts_seen result
        (spec.parts_in (setting_of form stream.old) text.now) }
    ensures form { IfOk result (λ parts. parts.form ≡ form) }
{
    let stream = mem::replace(stream, InnerStream::Clear);
    let file = read_document(alloc, text, form, stream)?;
    Ok(DocParts { form, file })
}

/// Reads the document that a text is, in one form, with the binaries that its file keeps apart
/// (which only KDBX 4 has) and the stream that hides its values, at its start. The stream is used
/// up: it must not be used again.
///
/// # Errors
///
/// The first of [`DocFail`] that the text earns, as it is read from its start to its end: each is
/// reached at the end of the element that it concerns, except for [`DocFail::Form`],
/// [`DocFail::Depth`] and [`DocFail::TooDeep`], which are reached at their offset. After the end of
/// the text come a missing `KeePassFile`, `Root` or `Group`, then an id that two nodes have, then a
/// reference to a binary that does not exist.
pub fn read_doc(
    alloc: Global,
    text: &[u8],
    form: DocForm,
    pool: &List<PoolItem>,
    stream: &mut InnerStream,
) -> Result<ReadDoc, DocFail>
    requires { IsAt stream.old 0 }
    ensures { Returns read_seen result
        (spec.document (setting_of form stream.old) (map pool_item pool.now) text.now) }
{
    let parts = read_parts(alloc, text, form, stream)?;
    resolve(alloc, pool, parts)
}
