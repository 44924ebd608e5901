//! Copies of one vault made one, plainly and slowly: a program whose contracts are the definitions
//! themselves.
#![tactic(auto)]

pub mod joins;
pub mod nodes;
