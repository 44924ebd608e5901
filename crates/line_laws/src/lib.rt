//! The laws of sessions as calls of the program: a line is a call in words, and a session that the
//! program opens is its lines.
#![tactic(auto)]

pub mod laws;
