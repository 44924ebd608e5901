//! The database that a command makes empty, and the one whose file a command changes: what each is
//! sealed with.
#![tactic(auto)]

mod asked;
mod creating;
mod editing;

pub use cli_databases;
pub use cli_databases::cli_files;
pub use cli_importing;
pub use creating::create;
pub use editing::edit_file;
