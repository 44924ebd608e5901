//! Groups made, and how many levels are left below a group.
#![tactic(auto)]

mod groups;
mod levels;
mod making;
mod new_groups;
mod paths;

pub use groups::put_group;
pub use levels::{LEVELS, fits, levels_below};
pub use making::{make_group, name_of_new};
pub use new_groups::{new_bin, new_group};
pub use tree_steps;
