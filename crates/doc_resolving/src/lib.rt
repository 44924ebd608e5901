//! Resolving: the document that the parts of a text make at its end, or the first refusal that
//! comes then; and the ids of a tree, of which no two may be one.
#![tactic(auto)]

mod ids;
mod resolving;
mod tombs;

pub use ids::{IdSet, ids_of, lesser};
pub use resolving::resolve;
