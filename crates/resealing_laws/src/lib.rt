//! The law that a file that is written anew shows nothing of the seed or salt that it had before.
#![tactic(auto)]

pub mod laws;
