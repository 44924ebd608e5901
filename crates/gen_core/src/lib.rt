//! Texts chosen by random bytes: passwords of the characters of an alphabet, each as likely as the
//! others.
#![tactic(auto)]

mod choosing;
pub mod laws;

pub use choosing::{GenFail, generate};
