//! What goes wrong.

use doc_read::DocFail;
use doc_write::WriteFail;
use kdbx_open::OpenFail;
use kdbx_seal::SealFail;
use outside_core::NoMemory;
use std::alloc::{AllocError, Global};

/// Why a document is not written or sealed, or its file is not what it must be.
#[derive(Clone, Copy)]
pub enum Fault {
    /// A word is missing, or is not written as it must be.
    BadWord,
    /// The file with the document could not be read.
    NoFile,
    /// The text is no document.
    NotRead(DocFail),
    /// The document takes no further entry.
    NotAdded,
    /// The root has no entry, or nothing is attached to its first one.
    NothingAttached,
    /// The document is not written.
    NotWritten(WriteFail),
    /// The document needs a later version than the one that was asked for.
    TooOld,
    /// There were no random bytes.
    NoBytes,
    /// The document is not sealed.
    NotSealed(SealFail),
    /// The file is not opened.
    NotOpened(OpenFail),
    /// The file that was there before was changed, though the document was not sealed.
    Changed,
    /// The document that the file holds is not sealed again.
    NotSealedAgain(SealFail),
    /// The document that the file holds does not make the same file again.
    NotTheSame,
    /// There was no memory left.
    NoMemory,
}

impl Fault {
    /// The fault in words. Of a text that is no document, and of a file that is not opened, they
    /// say no more than whether memory ran out.
    pub fn words(self, alloc: Global) -> Result<String, AllocError> {
        match self {
            Fault::NotWritten(fail) => writing_words(alloc, fail),
            Fault::NotSealed(fail) => sealing_words(alloc, "NotSealed", fail),
            Fault::NotSealedAgain(fail) => sealing_words(alloc, "NotSealedAgain", fail),
            other => String::from_str(alloc, other.plain_words()),
        }
    }

    // The words of a fault, without those of a refusal to write or to seal.
    fn plain_words(self) -> &'static str {
        match self {
            Fault::BadWord => "BadWord",
            Fault::NoFile => "NoFile",
            Fault::NotRead(DocFail::NoMemory) => "NotRead(NoMemory)",
            Fault::NotRead(_) => "NotRead",
            Fault::NotAdded => "NotAdded",
            Fault::NothingAttached => "NothingAttached",
            Fault::NotWritten(_) => "NotWritten",
            Fault::TooOld => "TooOld",
            Fault::NoBytes => "NoBytes",
            Fault::NotSealed(_) => "NotSealed",
            Fault::NotOpened(OpenFail::NoMemory) => "NotOpened(NoMemory)",
            Fault::NotOpened(_) => "NotOpened",
            Fault::Changed => "Changed",
            Fault::NotSealedAgain(_) => "NotSealedAgain",
            Fault::NotTheSame => "NotTheSame",
            Fault::NoMemory => "NoMemory",
        }
    }
}

// Why a document is not written.
fn writing_words(alloc: Global, fail: WriteFail) -> Result<String, AllocError> {
    match fail {
        WriteFail::TooMany(n) => format!(in alloc; "NotWritten(TooMany({n}))"),
        WriteFail::TooLarge(n) => format!(in alloc; "NotWritten(TooLarge({n}))"),
        WriteFail::NoMemory => String::from_str(alloc, "NotWritten(NoMemory)"),
    }
}

// Why a document is not sealed, after what is not done.
fn sealing_words(alloc: Global, what: &str, fail: SealFail) -> Result<String, AllocError> {
    match fail {
        SealFail::TooMany(n) => format!(in alloc; "{what}(TooMany({n}))"),
        SealFail::TooLarge(n) => format!(in alloc; "{what}(TooLarge({n}))"),
        SealFail::FileFault => format!(in alloc; "{what}(FileFault)"),
        SealFail::NoMemory => format!(in alloc; "{what}(NoMemory)"),
    }
}

impl From<AllocError> for Fault {
    fn from(_none: AllocError) -> Fault {
        Fault::NoMemory
    }
}

impl From<NoMemory> for Fault {
    fn from(_none: NoMemory) -> Fault {
        Fault::NoMemory
    }
}

impl From<DocFail> for Fault {
    fn from(fail: DocFail) -> Fault {
        Fault::NotRead(fail)
    }
}

impl From<WriteFail> for Fault {
    fn from(fail: WriteFail) -> Fault {
        Fault::NotWritten(fail)
    }
}
