//! Entries and groups removed: put into the bin, or deleted, groups with all that is in them.
#![tactic(auto)]

mod burying;
mod deleting;
mod deleting_groups;
mod recycling;
mod recycling_groups;
mod removing;
mod removing_groups;
mod tombs;

pub use recycling::is_recycled;
pub use removing::remove_entry;
pub use removing_groups::remove_group;
pub use tombs::later;
pub use tree_moves;
pub use tree_moves::tree_groups;
