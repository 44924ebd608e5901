//! What the program answers by itself: why it refuses (reasons, their statuses and texts, and how a
//! phase of a call stops), and the pages that it prints where one word alone asks for one, its help
//! and its version.
#![tactic(auto)]

mod answers;
mod pages;
mod texts;

pub use answers::{NeededVersion, Reason, Refusal, Stop, line, refused, status, text_of_reason};
pub use pages::page_of;
