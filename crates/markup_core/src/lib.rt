//! A reader of markup: it gives the pieces of a text, each a slice of the text, and takes no
//! memory.
#![tactic(auto)]

mod attributes;
mod front;
mod piece;
mod reader;

pub use attributes::Attrs;
pub use piece::{MarkupFail, Piece};
pub use reader::Reader;
