//! The law that passwords are generated under a condition on the dice.
#![tactic(auto)]

pub mod laws;
