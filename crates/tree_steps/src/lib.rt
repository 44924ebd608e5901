//! Searches by id in a document, and one group of its tree changed in place.
#![tactic(auto)]

pub mod changes;
pub mod entries;
pub mod named;
pub mod paths;
pub mod searches;
pub mod times;

pub use changes::{Change, change_at};
pub use entries::{put_entry, put_last, set_versions};
pub use named::{Held, attachment_in, attachment_of, entry_named};
pub use paths::{before_last, name_after, path_of_new};
pub use searches::{entry_of, group_of, has_group, holder, is_free, is_same};
pub use times::time_after;
