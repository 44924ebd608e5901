//! The laws of a source that is imported again: the later document takes the place of the other.
#![tactic(auto)]

pub mod laws;
