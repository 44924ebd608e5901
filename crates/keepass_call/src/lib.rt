//! The one call of the program: from its arguments, and the objects of the outside, to its status;
//! and the file that it may write.
#![tactic(auto)]

mod run;
mod session;
mod standalone;
mod target;

pub use run::keepass;
pub use target::{file_to_write, session_file};
