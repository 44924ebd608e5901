//! Entries as a document says them, with their history, before the bytes of their attachments are
//! resolved.
#![tactic(auto)]

mod attachments;
mod auto_types;
mod builders;
mod entries;
mod fields;
mod histories;
mod nodes;
mod versions;

pub use doc_walk;
pub use doc_walk::{doc_values, markup_core};
pub use entries::entry;
pub use nodes::node_id;
