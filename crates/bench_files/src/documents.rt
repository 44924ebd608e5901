//! Documents by themselves, as they are read and changed.

use crate::fault::Fault;
use doc_read::{DocFail, DocParts, ReadDoc, read_parts, resolve};
use outside_core::List;
use std::alloc::Global;
use std::fs::{self, Files};
use stream_core::InnerStream;
use time_core::Stamp;
use tree_core::Values;
use tree_edits::add;
use uuid_core::Uuid;
use vault_model::{Doc, DocForm};

// The parts of the document that a text by itself is. The text is dropped.
fn parts_of(alloc: Global, text: Vec<u8>) -> Result<DocParts, DocFail> {
    read_parts(
        alloc,
        text.as_slice(),
        DocForm::Plain,
        &mut InnerStream::Clear,
    )
}

// The document of its parts.
fn made_of(alloc: Global, parts: DocParts) -> Result<Doc, Fault> {
    match resolve(alloc, &List::new(alloc), parts) {
        Ok(
            ReadDoc {
                doc,
                header_hash: _,
            },
        ) => Ok(doc),
        Err(fail) => Err(Fault::NotRead(fail)),
    }
}

/// The document that a text by itself is. The text is dropped before the document is made.
pub fn read(alloc: Global, text: Vec<u8>) -> Result<Doc, Fault> {
    match parts_of(alloc, text) {
        Ok(parts) => made_of(alloc, parts),
        Err(fail) => Err(Fault::NotRead(fail)),
    }
}

/// The document that a file holds by itself.
pub fn read_file(rt: &(impl Files + AllocGlobal), name: &str) -> Result<Doc, Fault> {
    match fs::read(rt, name) {
        Ok(text) => read(rt.alloc(), text),
        Err(_) => Err(Fault::NoFile),
    }
}

/// Puts one entry more after the others of the root.
pub fn put_another(alloc: Global, doc: &mut Doc) -> Result<(), Fault> {
    let Some(now) = Stamp::of(0) else {
        return Err(Fault::NotAdded);
    };
    let values = Values {
        title: None,
        user: None,
        password: None,
        url: None,
        notes: None,
        otp: None,
    };
    let id = Uuid::from_bytes([255; 16]);
    match add(alloc, doc, "Another", id, &values, now) {
        Ok(()) => Ok(()),
        Err(_) => Err(Fault::NotAdded),
    }
}
