//! Paths in a document: which entry and which group a text names. What the commands that change a
//! document make of it, as definitions: the new document, or the first refusal. The code that does
//! it is in `tree_edits`, `tree_groups`, `tree_moves` and `tree_removals`.
#![tactic(auto)]

mod by_id;
pub mod fails;
mod finding;
mod path;
mod tags;
pub mod values;
mod versions;

pub use fails::{Removed, TreeFail};
pub use finding::{
    find_entry, find_group, find_group_at, is_entry_path, is_group_path, title, title_of_version,
};
pub use path::without_slashes;
pub use tags::{changed_tags, is_tag};
pub use values::{Attached, Expiry, FurtherChange, Values};
pub use versions::version_numbered;
