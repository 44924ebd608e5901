//! Documents merged into one.
#![tactic(auto)]

pub mod merging;
