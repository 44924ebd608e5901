//! Databases whose parts documents lend: tables by id, by version and by key, and the orders of
//! what they hold.
#![tactic(auto)]

pub mod databases;
pub mod icons;
pub mod ids;
pub mod metas;
pub mod placements;
mod rows;
pub mod states;
pub mod tables;
pub mod version_keys;
pub mod versions;
