//! The fields of the entries that items of Bitwarden give.
#![tactic(auto)]

mod fields;
mod keys;
mod objects;
mod said;

pub use bitwarden_forms;
pub use said::{fields_of, first_address, login_of};
