//! What a person looks at after a merge: the paths of nodes, and the entries of which the target's
//! version is no longer the current one though a source did not have it, with their lines, in
//! memory that is wiped.
#![tactic(auto)]

mod conflict_tables;
mod conflicts;
mod entries;
mod lines;
mod paths;
mod tables;
mod texts;

pub use conflict_tables::ConflictTable;
pub use conflicts::{MergedDocs, conflicts_of};
pub use lines::append_conflicts;
pub use paths::{Paths, path_at, paths_of};
pub use texts::append;
