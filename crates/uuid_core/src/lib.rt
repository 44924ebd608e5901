//! Ids of sixteen bytes: of nodes, icons, ciphers and key derivations.
#![tactic(auto)]

mod ids;

pub use ids::Uuid;
