//! The forms of documents, the versions of files, and the binaries that a file keeps apart from its
//! document.

use secret_core::Secret;
use std::rc::Rc;

/// In which form a document is written: by itself, or within a KDBX file of version 3.1 or 4.
#[derive(Clone, Copy)]
pub enum DocForm {
    Plain,
    V3,
    V4,
}

/// The version of a KDBX file, the older below the newer.
#[derive(Clone, Copy, PartialEq, Eq, PartialOrd, Ord)]
pub enum FileVersion {
    V31,
    V40,
    V41,
}

/// An attachment's bytes as a file keeps them apart from its entries, which refer to them by
/// number.
#[derive(Drop)]
pub struct PoolItem {
    pub bytes: Rc<Secret>,
    pub hidden: bool,
}
