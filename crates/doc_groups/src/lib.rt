//! The tree of a document, and its tombstones.
#![tactic(auto)]

mod group_children;
mod groups;
mod new_groups;
mod roots;
mod tombs;

pub use doc_entries::{doc_walk, markup_core};
pub use roots::root;
