//! What entries say, changed in place: fields, tags, when they expire, and attachments.
#![tactic(auto)]

mod attachments;
mod contents;
mod fields;
mod own_fields;
mod texts;
mod values;

pub use attachments::{put_attachment, remove_attachment};
pub use contents::edit_content;
pub use fields::{insert_at, new_field};
pub use own_fields::check_fields;
pub use texts::values_are_utf8;
