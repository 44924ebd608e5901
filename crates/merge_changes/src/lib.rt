//! What changes when documents are merged, and whether two documents are equal.
#![tactic(auto)]

pub mod changes;
pub mod equality;
