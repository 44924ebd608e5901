//! The table of a document: one row for each entry.
#![tactic(auto)]

mod export;
mod groups;
pub mod laws;
mod rows;
mod sinks;

pub use export::{TableFail, export_csv};
