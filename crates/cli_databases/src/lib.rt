//! The databases of a call: what its files hold, by themselves or sealed.
#![tactic(auto)]

mod databases;
mod plain;

pub use cli_files;
pub use databases::{Databases, open, open_sealed};
