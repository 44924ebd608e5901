//! Why a line is not obeyed.

use outside_core::{FileFail, NoMemory, SinkFail};
use std::alloc::{AllocError, AllocFailed};
use std::io;

/// Why a line is not obeyed.
#[derive(Clone, Copy, Debug)]
pub enum Fault {
    /// No line begins with this word.
    NoSuchLine,
    /// A word is missing, or is not written as it must be.
    BadWord,
    /// There is no text, or no file, of this name.
    NoSuchName,
    /// The file has no such place.
    NoSuchPlace,
    /// There was no memory left.
    NoMemory,
    /// Nothing could be printed.
    NotPrinted,
}

impl From<AllocError> for Fault {
    fn from(_none: AllocError) -> Fault {
        Fault::NoMemory
    }
}

impl<T: Drop> From<AllocFailed<T>> for Fault {
    fn from(_none: AllocFailed<T>) -> Fault {
        Fault::NoMemory
    }
}

impl From<NoMemory> for Fault {
    fn from(_none: NoMemory) -> Fault {
        Fault::NoMemory
    }
}

impl From<SinkFail> for Fault {
    fn from(_none: SinkFail) -> Fault {
        Fault::NoMemory
    }
}

impl From<FileFail> for Fault {
    fn from(_none: FileFail) -> Fault {
        Fault::NoMemory
    }
}

impl From<io::Error> for Fault {
    fn from(_error: io::Error) -> Fault {
        Fault::NotPrinted
    }
}
