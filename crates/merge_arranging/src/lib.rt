//! A database laid over an older document: a program whose contracts are the definitions
//! themselves.
#![tactic(auto)]

mod id_lists;
pub mod laying;
mod parents;

pub use merge_nodes;
