//! The laws of an export of Bitwarden that is imported again: the two documents agree, and the later
//! one takes the place of the other.
#![tactic(auto)]

pub mod laws;
