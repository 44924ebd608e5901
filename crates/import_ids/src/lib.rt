//! The ids of imported entries to which their source gives none: by what the entry says, and not by
//! its place.
#![tactic(auto)]

mod counts;
mod names;
mod numbered;

pub use counts::NameCounts;
pub use names::EntryTexts;
