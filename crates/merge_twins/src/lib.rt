//! Two copies of one database of any number of entries, made to be merged.
#![tactic(auto)]

mod entries;
mod groups;
pub mod laws;
mod making;
mod pairs;
mod rules;
mod versions;

pub use making::twins;
pub use pairs::Twins;
