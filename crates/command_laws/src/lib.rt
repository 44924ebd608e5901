//! The laws of the commands that change a document, where histories may be trimmed: each of them
//! grows in what is current, and those that delete nothing for good and move no group only add.
#![tactic(auto)]

pub mod laws;
