//! The laws that commands are carried out under the conditions that the pages name.
#![tactic(auto)]

pub mod laws;
