//! The law that a file that is written can be read again: it is within the limit of files that are
//! read.
#![tactic(auto)]

pub mod laws;
