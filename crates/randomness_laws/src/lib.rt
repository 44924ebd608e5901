//! The laws that no byte that is drawn is used twice.
#![tactic(auto)]

pub mod laws;
