//! A document with its nodes side by side, which its parts are lent to.
#![tactic(auto)]

pub mod nodes;
pub mod shapes;
