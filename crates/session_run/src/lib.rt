//! A session from its first line to its end: each line is carried out, and what it prints is printed.
#![tactic(auto)]

mod lines;

pub use lines::run_session;
pub use session_core;
pub use session_core::{call_run, cli_commands};
