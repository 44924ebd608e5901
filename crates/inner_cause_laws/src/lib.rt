//! The laws that each refusal of inner fields has its cause in the bytes.
#![tactic(auto)]

pub mod laws;
