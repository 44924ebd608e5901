//! BLAKE2b (RFC 7693) and Argon2 (RFC 9106), proved equal to their definitions in `specs/`.
#![tactic(auto)]

mod argon;
mod blake;
mod compression;
mod fill;
mod hashes;
mod memory;
mod pairs;
mod params;
mod words;

pub use argon::argon2;
pub use blake::blake2b;
pub use params::{
    ArgonFail, ArgonKind, ArgonParams, MAX_KIB, MAX_LANES, MAX_SALT, MIN_LANE_KIB, MIN_SALT,
};
