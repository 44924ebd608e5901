//! The bytes of attachments: those of each attachment's own element, or of the binary to which it
//! refers, and the first reference to a binary that does not exist.
#![tactic(auto)]

mod missing;
mod pools;
mod resolving;
mod trees;

pub use trees::{ResolvedTree, resolve_tree};
