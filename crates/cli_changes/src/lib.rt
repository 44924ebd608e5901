//! What the commands that change a document make of it, and what they report: entries added and
//! changed, nodes moved and removed, and groups made.
#![tactic(auto)]

mod attachments;
mod entries;
mod fails;
mod groups;
mod ids;
mod moves;
mod removals;
mod reports;
mod texts;
mod versions;

pub use attachments::{AttachedFile, attach_file, attachment_of, detach_file, export_report};
pub use entries::{Given, add_entry, edit_entry, entry_title, time_of};
pub use fails::unchanged;
pub use groups::make_group_of;
pub use ids::new_id;
pub use moves::move_node;
pub use removals::{remove_entry_of, remove_group_of};
pub use tree_removals::tree_moves;
pub use versions::restore_entry;
