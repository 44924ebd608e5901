//! The laws of sessions: a session is its lines as single calls of the program.
#![tactic(auto)]

pub mod laws;
