//! Entries and groups moved, and whether a bin has to be made.
#![tactic(auto)]

mod bins;
mod entries;
mod groups;
mod moving;
mod moving_groups;
mod parents;

pub use bins::needs_bin;
pub use entries::take_entry;
pub use groups::{fill_group, take_group};
pub use moving::{move_entry, move_in, move_to_place, no_entry};
pub use moving_groups::{move_found, move_group, move_group_to_place, time_of_move};
pub use parents::parent_of;
pub use tree_groups;
