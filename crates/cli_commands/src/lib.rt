//! What each command makes of its database, what it prints, and what it draws.
#![tactic(auto)]

mod ids;
mod output;
mod performing;

pub use cli_printing::cli_writing;
pub use output::{Change, Output, lend_text};
pub use performing::{CommandInput, may_store, may_write, perform};
