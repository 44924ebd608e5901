//! A worked case of the law of sessions: a session on a small plain document, which meets its
//! premises.
#![tactic(auto)]

pub mod laws;
