//! The keys of a vault file: from a password and a key file to the keys of its cipher and its MACs.
#![tactic(auto)]

mod composition;
mod digests;
mod files;
mod kdf;
mod key_document;
mod key_file;
mod key_texts;
mod reading;
mod transformation;

pub use argon_core;
pub use argon_core::ArgonKind;
pub use composition::composite;
pub use files::{FileKeys, file_keys};
pub use kdf::{Kdf, KdfFail, KdfField, check_kdf};
pub use key_file::{KeyFileFail, read_key_file};
pub use transformation::transform;
