//! Reading the document of a vault: from markup to the tree of groups and entries. `document_laws`
//! and `reading_laws` are the laws that what a text says, and what is read of it, is a document:
//! functions whose contracts are these laws, and no code.
#![tactic(auto)]

mod document;
pub mod document_laws;
mod outermost;
mod reading;
pub mod reading_laws;

pub use doc_forms::{DocFail, DocParts, ReadDoc, RequiredElement};
pub use doc_resolving::resolve;
pub use reading::{read_doc, read_parts};
