//! Documents read as databases, which lend all that they hold.
#![tactic(auto)]

pub mod lending;
pub mod reading;
