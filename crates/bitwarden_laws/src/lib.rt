//! The laws of what an export of Bitwarden is imported as.
#![tactic(auto)]

pub mod laws;
