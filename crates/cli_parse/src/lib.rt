//! The arguments of the program: which command they are.
#![tactic(auto)]

mod attachments;
mod bases;
mod commands;
mod entries;
mod fields;
mod files;
pub mod laws;
mod settings;

pub use bases::access_of;
pub use cli_needs;
pub use commands::{command_saying, format_named, import_format_named, read_words};
pub use entries::{has_change, version_numbered};
pub use fields::{expiry_named, is_own_name};
pub use settings::{
    cipher_named, has_argon_cost, has_file_change, is_argon, kdf_named, version_named,
};
