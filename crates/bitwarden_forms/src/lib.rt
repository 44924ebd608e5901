//! Unencrypted exports of Bitwarden in JSON, read: which bytes are one, and why others are not.
#![tactic(auto)]

mod dates;
mod export;
mod fails;
mod json;
mod kinds;

pub use dates::date;
pub use export::{folders_of, items_of, read_export};
pub use fails::BitwardenFail;
pub use json::{inner_member, text, values};
pub use kinds::{given_id, has_id};
pub use table_reading::import_tree;
