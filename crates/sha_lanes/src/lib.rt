//! SHA-256 (FIPS 180-4) of four messages of one length, side by side.
#![tactic(auto)]

mod blocks;
mod digests;
mod four;
mod lanes;
mod padding;
mod steps;
mod words;

pub use four::{States, finish, first_states, take_blocks};
