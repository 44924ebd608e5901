//! The laws of merging parts of an agreed set.
#![tactic(auto)]

pub mod laws;

pub use document_merge;
