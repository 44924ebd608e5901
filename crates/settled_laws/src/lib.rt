//! The laws of settled documents: a document is settled exactly where the versions of its entries
//! rise, and what an import gives is.
#![tactic(auto)]

pub mod laws;
