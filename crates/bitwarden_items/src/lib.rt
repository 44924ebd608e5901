//! The entries that items of Bitwarden give: their versions.
#![tactic(auto)]

mod entries;
mod passwords;
mod versions;

pub use bitwarden_fields;
pub use entries::entry_of;
