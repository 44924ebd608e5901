//! The laws that `show`, `history`, `search`, `export` and `merge` are carried out under their
//! conditions.
#![tactic(auto)]

pub mod laws;
