//! The laws that a call is carried out under the conditions that the pages name.
#![tactic(auto)]

pub mod laws;
