//! The document that an export of Bitwarden gives.
#![tactic(auto)]

mod folders;
mod import;
mod placing;

pub use bitwarden_forms::BitwardenFail;
pub use import::import_bitwarden;
