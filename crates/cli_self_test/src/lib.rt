//! What `selftest` does: two copies of a database are made and merged either way, and what comes of
//! it is counted and hashed.
#![tactic(auto)]

mod counting;
mod hashing;
mod merging;
mod reporting;
mod testing;

pub use testing::self_test;
