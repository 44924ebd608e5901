//! The tokens of a text in the grammar of markup: tags, runs of text, and the end.
#![tactic(auto)]

mod aside;
mod bytes;
mod fronts;
mod lanes;
mod reference;
mod run;
mod tag;
mod token;

pub use fronts::after;
pub use tag::StartTag;
pub use token::{Token, token_at};
