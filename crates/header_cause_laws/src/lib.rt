//! The laws that each refusal of a header, or of a key file, has its cause in the bytes.
#![tactic(auto)]

pub mod laws;
