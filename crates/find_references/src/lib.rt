//! References in texts, replaced by the values of the entries that they name; and the terms of a
//! search, read from a text.
#![tactic(auto)]

mod fail;
mod fields;
mod indexing;
pub mod laws;
mod parsing;
mod parts;
mod reading;
mod resolving;
mod seeking;
mod terms;

pub use fail::FindFail;
pub use fields::{field_value, is_named_key};
pub use parsing::parse_terms;
pub use parts::{Part, Place};
pub use resolving::resolve;
pub use terms::{SearchField, Term, Terms};
