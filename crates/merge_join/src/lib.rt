//! Copies of one vault made one: the nodes that stay are marked once each, and each id that a copy
//! knows is looked up in each copy.
#![tactic(auto)]

pub mod joins;
pub mod marking;

pub use merge_parts;
