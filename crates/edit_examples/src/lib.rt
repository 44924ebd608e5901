//! Worked cases of edits: one that is carried out, a version that is restored after it, and two that
//! would drop the newest version, which the laws of histories leave out.
#![tactic(auto)]

pub mod laws;
