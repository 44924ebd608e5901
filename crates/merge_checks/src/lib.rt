//! What a merge looks for before it builds a document.
#![tactic(auto)]

pub mod copies;
pub mod cycles;
pub mod kinds;
pub mod levels;
pub mod roots;

pub use merge_changes;
pub use merge_join;
