//! Writing a document.

ghost use Rattle.std.specs.Option.{option_copied};
ghost use Rattle.std.specs.Prelude.{◌≡◌, ◌-◌, ◌≤◌, ◌^◌, ◌++◌, IfOk, length};
ghost use Rattle.doc_spelling.specs.Documents.{spelled_document};
ghost use Rattle.doc_spelling.specs.Pool.{pool_of};
ghost use Rattle.doc_spelling.specs.Ranges.{IsWritable};
ghost use Rattle.doc_write.specs.Written.{Measures, Writes, write_outcome};
ghost use Rattle.stream_core.specs.InnerStream.{IsAt, Keystream, keystream};
ghost use Rattle.vault_model.specs.SeenDoc.{doc_seen};

use crate::documents::put_document;
use crate::lengths::{apart_len, count_nodes};
use doc_sinks::{Pool, TextCounter, TextFiller};
use outside_core::NoMemory;
use secret_core::Secret;
use std::alloc::Global;
use std::mem;
use stream_core::InnerStream;
use vault_model::{Doc, DocForm};

/// How many nodes a written document has at most.
const NODES: u64 = 262_144;

/// How many bytes a written document has at most, in KDBX 4 with its pool.
const BYTES: usize = 134_086_656;

/// Why a document was not written.
#[derive(Clone, Copy)]
pub enum WriteFail {
    /// It has more than 262,144 groups, entries and history items: so many.
    TooMany(u64),
    /// Its text, in KDBX 4 with its pool, would have more than 134,086,656 bytes: so many.
    TooLarge(u64),
    /// Memory ran out.
    NoMemory,
}

impl From<NoMemory> for WriteFail {
    ghost use Rattle.doc_write.specs.declared.writing.WriteFail.TheVariants as fail;

    ghost from_gives = { λ _ e. e ≡ fail.NoMemory };

    fn from(_none: NoMemory) -> WriteFail {
        WriteFail::NoMemory
    }
}

/// How many bytes the text of a document has in one form, with the hash of the header of its file
/// (which only KDBX 3.1 has in its document). No memory is taken.
///
/// # Errors
///
/// The first of [`WriteFail`] that the document earns; NoMemory is none of them.
pub fn doc_len<'a>(
    doc: &'a Doc,
    form: DocForm,
    header_hash: Option<&[u8; 32]>,
    pool: &Pool<'a>,
) -> Result<usize, WriteFail>
    requires { pool.now ≡ pool_of (doc_seen doc.now) }
    ensures text { (k : Keystream)
        → Measures form k (option_copied header_hash.entry) (doc_seen doc.now) result }
    ensures writable { IfOk result (λ _. IsWritable (doc_seen doc.now)) }
{
    let nodes = count_nodes(0, &doc.root);
    if nodes > NODES {
        return Err(WriteFail::TooMany(nodes));
    }
    let mut counter = TextCounter { len: 0 };
    put_document(&mut counter, form, header_hash, pool, doc);
    let len = counter.len.saturating_add(apart_len(form, pool));
    if len > BYTES {
        return Err(WriteFail::TooLarge(len as u64));
    }
    Ok(counter.len)
}

/// Puts the text of a document at the end of a secret that has room for it: in one form, with the
/// hash of the header of its file and with the stream that hides its values, at its start.
pub fn append_doc<'a>(
    out: Secret,
    doc: &'a Doc,
    form: DocForm,
    header_hash: Option<&[u8; 32]>,
    pool: &Pool<'a>,
    stream: InnerStream,
) -> Secret
    requires start { IsAt stream 0 }
    requires pool { pool.now ≡ pool_of (doc_seen doc.now) }
    requires limit { length (spelled_document form (keystream stream)
        (option_copied header_hash) (doc_seen doc.now)) ≤ 2 ^ 38 }
    requires room { length (spelled_document form (keystream stream)
        (option_copied header_hash) (doc_seen doc.now)) ≤ out.spare }
    ensures bytes { result.bytes ≡ out.bytes ++ spelled_document form (keystream stream)
        (option_copied header_hash.entry) (doc_seen doc.now) }
    ensures spare { result.spare ≡ out.spare - length (spelled_document form (keystream stream)
        (option_copied header_hash.entry) (doc_seen doc.now)) }
{
    let mut filler = TextFiller {
        text: out,
        stream,
        offset: 0,
    };
    put_document(&mut filler, form, header_hash, pool, doc);
    let TextFiller {
        text,
        stream: _,
        offset: _,
    } = filler;
    text
}

/// Writes a document in one form, with the hash of the header of its file (which only KDBX 3.1 has
/// in its document) and the stream that hides its values, at its start. The stream is used up: it
/// must not be used again.
///
/// The text is counted before memory for it is taken, once and no more than it needs.
///
/// # Errors
///
/// The first of [`WriteFail`] that the document earns.
pub fn write_doc(
    alloc: Global,
    doc: &Doc,
    form: DocForm,
    header_hash: Option<&[u8; 32]>,
    stream: &mut InnerStream,
) -> Result<Secret, WriteFail>
    requires { IsAt stream.old 0 }
    ensures text { Writes result (write_outcome form (keystream stream.old)
        (option_copied header_hash.entry) (doc_seen doc.now)) }
    ensures spare { IfOk result (λ text. text.spare ≡ 0) }
    ensures writable { IfOk result (λ _. IsWritable (doc_seen doc.now)) }
{
    let pool = Pool::of(alloc, doc)?;
    let len = match doc_len(doc, form, header_hash, &pool) {
        Ok(len) => len,
        Err(fail) => {
            drop(pool);
            return Err(fail);
        }
    };
    let text = match Secret::with_room(alloc, len) {
        Ok(text) => text,
        Err(NoMemory) => {
            drop(pool);
            return Err(WriteFail::NoMemory);
        }
    };
    let stream = mem::replace(stream, InnerStream::Clear);
    Ok(append_doc(text, doc, form, header_hash, &pool, stream))
}
