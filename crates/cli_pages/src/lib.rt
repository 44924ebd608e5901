//! The pages that the words of a call ask for: the help, the version, and why other words are no
//! command.
#![tactic(auto)]

pub mod laws;
mod lines;
mod near;
mod pages;

pub use pages::page_of;
