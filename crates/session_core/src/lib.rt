//! A session: one database stays open, and each line of the input is a command on it. What a
//! session results in, as definitions; and one line of it, read and carried out.
#![tactic(auto)]

mod reading;
mod running;

pub use call_run;
pub use call_run::cli_commands;
pub use reading::{LineRequest, read_request};
pub use running::{LineEnd, Session, close, run_line};
