//! The database that an import makes: what its source is, under a key of its own.
#![tactic(auto)]

mod imports;
mod sources;

pub use imports::{import, new_sealing, refuse_existing};
