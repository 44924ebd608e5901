//! The document that imported entries give: groups by their names, ids made of names.
#![tactic(auto)]

mod branches;
mod depths;
mod drafts;
mod entries;
mod fails;
mod growing;
mod imported;
mod importing;
mod naming;
mod outcome;
mod places;
mod putting;

pub use drafts::ImportedPlace;
pub use fails::TreeFail;
pub use imported::ImportedEntry;
pub use importing::{imported_document, placed_document};
