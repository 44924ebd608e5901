//! The laws of imports: what the documents of one source have in common, whenever it is imported.
#![tactic(auto)]

pub mod laws;
