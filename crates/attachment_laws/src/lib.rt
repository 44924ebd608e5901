//! The law that an attachment that was put into a file is taken out of it as it was.
#![tactic(auto)]

pub mod laws;
