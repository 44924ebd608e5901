//! Searching a document for the entries that terms match.
#![tactic(auto)]

mod folding;
mod matching;
mod searching;

pub use find_references::{FindFail, SearchField, Term, Terms, parse_terms, resolve};
pub use searching::{Ids, search};
