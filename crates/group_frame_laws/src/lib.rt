//! The laws that commands on groups leave all else as it is.
#![tactic(auto)]

pub mod laws;
