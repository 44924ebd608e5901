//! The plain document that a file holds, and the database that it is.
ghost use Rattle.std.specs.Prelude.{◌≡◌, ◌≢◌};
ghost use Rattle.doc_forms.specs.Refusals as reader;
ghost use Rattle.doc_forms.specs.SeenDocuments.{read_seen};
ghost use Rattle.cli_files.specs.Answers as spec;
ghost use Rattle.cli_files.specs.Files.{plain_document};

use cli_lines::kdbx_frame::Sealing;
use cli_messages::Reason;
use doc_read::{DocFail, ReadDoc, read_parts, resolve};
use outside_core::{List, Text};
use secret_core::Secret;
use std::alloc::Global;
use stream_core::InnerStream;
use vault_model::{Doc, DocForm};

/// A database that was opened.
pub struct Opened {
    /// Its document.
    pub doc: Doc,
    /// What its file is sealed with, unless it is a plain document.
    pub sealing: Option<Sealing>,
    /// The names of the columns that were passed over, where it was made of a table.
    pub passed_over: List<Text>,
}

/// The answer that a refusal of the document's reader is.
pub fn document_answer(fail: DocFail) -> Reason
    ensures is { result ≡ spec.document_answer fail }
    ensures there { result ≢ Reason.NoSuchFile }
{
    match fail {
        DocFail::Form(at) => Reason::Form(at),
        DocFail::Depth(_) => Reason::Depth,
        DocFail::BadValue(at) => Reason::BadValue(at),
        DocFail::Compressed(_) => Reason::Compressed,
        DocFail::TooDeep(_) => Reason::TooDeep,
        DocFail::TooMany(_) => Reason::TooMany,
        DocFail::NilId(at) => Reason::NilId(at),
        DocFail::MissingElement(_, at) => Reason::MissingElement(at),
        DocFail::DuplicateId(id) => Reason::DuplicateId(id),
        DocFail::BinaryRef(number) => Reason::BinaryRef(number),
        DocFail::NoMemory => Reason::OutOfMemory,
    }
}

/// The plain document that a text is, which is dropped before the document is made.
#[tactic(auto, unfolding(crate::specs::Files::plain_document))]
pub fn read_plain(alloc: Global, text: Secret) -> Result<ReadDoc, DocFail>
    ensures { reader.Returns read_seen result (plain_document text.bytes) }
{
    let mut stream = InnerStream::Clear;
    let parts = read_parts(alloc, text.lend(0, text.len()), DocForm::Plain, &mut stream)?;
    drop(text);
    resolve(alloc, &List::new(alloc), parts)
}
