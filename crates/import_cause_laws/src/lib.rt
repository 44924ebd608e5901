//! The laws that each refusal to import a file has its cause in the file's bytes.
#![tactic(auto)]

pub mod laws;
