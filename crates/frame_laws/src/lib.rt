//! The laws that each command on entries leaves all else as it is, and what that means.
#![tactic(auto)]

pub mod laws;
