//! The laws of commands that are typed on copies of one document, of merges among them and of copies:
//! what the copies hold in the end, and two edits of one entry.
#![tactic(auto)]

pub mod laws;
