//! What a call or a line of a session prints, and the line on standard error that reports why it
//! stopped.
#![tactic(auto)]

mod reporting;

pub use reporting::{print, report};
