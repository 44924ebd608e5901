//! The grammar of markup, as trees and byte by byte, and the laws that join the two.
#![tactic(auto)]

pub mod escape_laws;
pub mod laws;
pub mod meaning_laws;
pub mod refusal_laws;
pub mod utf8_laws;
