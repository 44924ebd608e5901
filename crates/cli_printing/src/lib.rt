//! What the commands that only read print of a document: the text of a listing, what `db-info`
//! prints of a database, and what `export` prints.
#![tactic(auto)]

mod counts;
mod exporting;
mod file;
pub mod laws;
mod lines;
mod listing;

pub use cli_writing;
pub use exporting::export;
pub use lines::info;
pub use listing::{Manner, add_group, group_listed};
