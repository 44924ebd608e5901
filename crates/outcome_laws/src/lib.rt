//! The laws that what a call results in depends on what its words name alone.
#![tactic(auto)]

pub mod laws;
