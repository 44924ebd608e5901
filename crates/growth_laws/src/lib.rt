//! The laws that commands only grow.
#![tactic(auto)]

pub mod laws;
