//! One-time codes as commands show them and take them: the line of an entry's code, and what a text
//! or an entry is refused for.
#![tactic(auto)]

mod lines;
mod refusals;

pub use lines::code_line;
pub use refusals::{check_code, refused_code};
