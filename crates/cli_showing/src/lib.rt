//! What `show`, `history` and `search` print of a document.
#![tactic(auto)]

mod attachments;
mod changes;
mod coding;
mod history;
pub mod laws;
mod paths;
mod refusals;
mod searching;
mod showing;
mod texts;
mod values;

pub use coding::{CodeGiven, show_code};
pub use history::show_history;
pub use searching::search_entries;
pub use showing::{ShowGiven, show_entry};
