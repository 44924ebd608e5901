//! `merge` on documents: what it makes of its target, and what it prints: the names or the paths of
//! the nodes that it changed, conflicts, and its sources, in memory that is wiped.
#![tactic(auto)]

mod counts;
mod details;
mod merging;
mod names;
mod reports;

pub use merging::{MergeGiven, MergeReport, merge_into};
pub use reports::{MergeFiles, MergeOutcome, MergeStyle, report};
