//! Carrying out what a call is to do: what its command makes of its database, and the file that is
//! written.
#![tactic(auto)]

mod carrying;

pub use carrying::{Request, carry_out, close, step};
pub use cli_commands;
pub use cli_files;
