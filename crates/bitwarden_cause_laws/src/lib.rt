//! The laws that each refusal to import an export of Bitwarden has its cause in its bytes.
#![tactic(auto)]

pub mod laws;
