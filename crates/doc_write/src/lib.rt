//! Documents, written as texts.
#![tactic(auto)]

mod attachments;
mod documents;
mod entries;
mod groups;
mod icons;
mod items;
mod lengths;
mod metas;
mod versions;
mod writing;

pub use doc_sinks::{Pool, pool_of};
pub use writing::{WriteFail, append_doc, doc_len, write_doc};
