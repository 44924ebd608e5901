//! Documents that are written as texts.

ghost use Rattle.stream_core.specs.InnerStream.{IsAt};

use crate::documents::put_another;
use crate::fault::Fault;
use crate::sums::Sum;
use doc_read::{DocFail, ReadDoc, read_doc};
use doc_write::{WriteFail, pool_of, write_doc};
use outside_core::List;
use secret_core::Secret;
use std::alloc::Global;
use std::rc::Rc;
use stream_core::InnerStream;
use vault_making::copy_version;
use vault_model::{Doc, DocForm, PoolItem};

/// The key of the stream that hides values.
const STREAM_KEY: &[u8] = b"stream key";

/// The hash of a header, where a document names one.
const HASH: [u8; 32] = [0; 32];

// How a document is written: its form, and whether a stream hides its values, or the clear one.
#[derive(Clone, Copy)]
struct Manner {
    form: DocForm,
    hidden: bool,
}

/// A document by itself.
const PLAIN: Manner = Manner {
    form: DocForm::Plain,
    hidden: false,
};

/// A document within a file of KDBX 4, whose values a stream hides.
const HIDDEN: Manner = Manner {
    form: DocForm::V4,
    hidden: true,
};

// What is to be written of a document.
#[derive(Clone, Copy)]
enum Task {
    Nothing,
    Written(Manner),
    Again,
    Another,
}

// How a document is written within a file.
fn within(form: DocForm, hidden: bool) -> Result<Task, Fault> {
    Ok(Task::Written(Manner { form, hidden }))
}

// The task of a word.
fn task_of(word: &str) -> Result<Task, Fault> {
    match word {
        "read" => Ok(Task::Nothing),
        "text" | "length" | "plain" => Ok(Task::Written(PLAIN)),
        "v3" => within(DocForm::V3, false),
        "v4" => within(DocForm::V4, false),
        "v3-hidden" => within(DocForm::V3, true),
        "v4-hidden" => within(DocForm::V4, true),
        "again" => Ok(Task::Again),
        "another" => Ok(Task::Another),
        _ => Err(Fault::BadWord),
    }
}

// The stream that hides values, which is ChaCha20, or the clear one.
fn stream_of(hidden: bool) -> InnerStream
    ensures { IsAt result 0 }
{
    if !hidden {
        return InnerStream::Clear;
    }
    match InnerStream::new(3, STREAM_KEY) {
        Ok(stream) => stream,
        Err(_) => InnerStream::Clear,
    }
}

// The text of a document.
fn write(alloc: Global, doc: &Doc, manner: Manner) -> Result<Secret, WriteFail> {
    let mut stream = stream_of(manner.hidden);
    write_doc(alloc, doc, manner.form, Some(&HASH), &mut stream)
}

// The document that a text is within a file of KDBX 4 with a pool, whose values a stream hides.
fn read_hidden(alloc: Global, pool: &List<PoolItem>, text: &[u8]) -> Result<ReadDoc, DocFail> {
    let mut stream = stream_of(HIDDEN.hidden);
    read_doc(alloc, text, HIDDEN.form, pool, &mut stream)
}

// The text by itself of what was read.
fn write_read(alloc: Global, read: &Result<ReadDoc, DocFail>) -> Result<Secret, Fault> {
    match read {
        Ok(read) => Ok(write(alloc, &read.doc, PLAIN)?),
        Err(fail) => Err(Fault::NotRead(*fail)),
    }
}

// The text by itself of the document that a hidden text is.
fn write_plainly(alloc: Global, pool: &List<PoolItem>, text: &[u8]) -> Result<Secret, Fault> {
    let read = read_hidden(alloc, pool, text);
    let text = write_read(alloc, &read);
    drop(read);
    text
}

// The text of a document by itself, once it was written with its values hidden and read again.
fn write_with_pool(alloc: Global, pool: &List<PoolItem>, doc: &Doc) -> Result<Secret, Fault> {
    match write(alloc, doc, HIDDEN) {
        Ok(text) => write_plainly(alloc, pool, text.lend(0, text.len())),
        Err(fail) => Err(Fault::NotWritten(fail)),
    }
}

// The text of a document by itself, once it was written for a file of KDBX 4, its values hidden, and
// read again with its pool.
fn write_again(alloc: Global, doc: &Doc) -> Result<Secret, Fault> {
    match pool_of(alloc, doc) {
        Ok(pool) => write_with_pool(alloc, &pool, doc),
        Err(_) => Err(Fault::NoMemory),
    }
}

// The text of a document by itself with one entry more, the last of the root.
fn write_with_another(alloc: Global, doc: &mut Doc) -> Result<Secret, Fault> {
    put_another(alloc, doc)?;
    Ok(write(alloc, doc, PLAIN)?)
}

// The text that a task makes of a document.
fn written(alloc: Global, task: Task, doc: &mut Doc) -> Result<Secret, Fault> {
    match task {
        Task::Nothing => Ok(Secret::with_room(alloc, 0)?),
        Task::Written(manner) => Ok(write(alloc, doc, manner)?),
        Task::Again => write_again(alloc, doc),
        Task::Another => write_with_another(alloc, doc),
    }
}

// What is printed of a text: the text, its length, or its length and SHA-256.
fn print_of(alloc: Global, word: &str, text: &[u8]) -> Result<String, Fault> {
    match word {
        "text" => Ok(String::from_utf8_lossy(alloc, text)?),
        "read" | "length" => Ok(format!(in alloc; "{}", text.len())?),
        _ => Sum::of(text).text(alloc),
    }
}

// How many own the bytes of the first attachment of the root's first entry once its version is copied.
fn owners_with_copy(alloc: Global, doc: &Doc) -> Result<usize, Fault> {
    let Some(entry) = doc.root.entries.get(0) else {
        return Err(Fault::NothingAttached);
    };
    let copy = copy_version(alloc, &entry.current)?;
    match copy.content.attachments.get(0) {
        Some(file) => Ok(Rc::strong_count(&file.bytes)),
        None => Err(Fault::NothingAttached),
    }
}

// That number for what was read, as it is printed.
fn owners_of(alloc: Global, doc: &Result<Doc, Fault>) -> Result<String, Fault> {
    match doc {
        Ok(doc) => {
            let count = owners_with_copy(alloc, doc)?;
            Ok(format!(in alloc; "{count}")?)
        }
        Err(fault) => Err(*fault),
    }
}

// The text that a word makes of what was read.
fn written_of(alloc: Global, word: &str, doc: &mut Result<Doc, Fault>) -> Result<Secret, Fault> {
    let task = task_of(word)?;
    match doc {
        Ok(doc) => written(alloc, task, doc),
        Err(fault) => Err(*fault),
    }
}

/// Writes the document that was read as a word says, and gives what is to be printed of its text.
pub fn answer(alloc: Global, word: &str, doc: &mut Result<Doc, Fault>) -> Result<String, Fault> {
    if word == "owners" {
        return owners_of(alloc, doc);
    }
    match written_of(alloc, word, doc) {
        Ok(text) => print_of(alloc, word, text.lend(0, text.len())),
        Err(fault) => Err(fault),
    }
}
