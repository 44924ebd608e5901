//! Sessions over one open database: which words open one, and which command the words of a line are.
#![tactic(auto)]

pub mod laws;
mod lines;
mod opening;

pub use lines::read_command;
pub use opening::{SessionDatabase, read_opening};
