//! Documents whose nodes are laid side by side, as the programs of merging hold them.
#![tactic(auto)]

pub mod shapes;
