//! The laws of what a command makes of its document: one that grew, or the merge with the sources.
#![tactic(auto)]

pub mod laws;
