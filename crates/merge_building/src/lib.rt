//! The document of a shape: its nodes, which documents lend, copied into a tree of its own.
#![tactic(auto)]

pub mod building;
pub mod laid;
pub mod metas;
