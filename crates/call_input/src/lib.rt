//! What a call of the program is to do, from its words, its input and its files: the databases that
//! a command opens, or the one that it makes, are its part.
#![tactic(auto)]

mod attaching;
mod opening;
mod reading;

pub use attaching::attached_for;
pub use opening::open_for;
pub use reading::read_task;
