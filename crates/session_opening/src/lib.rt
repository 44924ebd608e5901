//! What a session opens as it begins: its database, under the password that the first line of the
//! input is.
#![tactic(auto)]

mod opening;

pub use opening::{first_number, open_session};
