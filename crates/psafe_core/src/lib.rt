//! Importing a file of Password Safe V3 (formatV3.txt of the Password Safe project): its records as
//! the entries of a new document.
#![tactic(auto)]

mod entries;
mod import;
mod readings;

pub use import::import_psafe;
pub use psafe_file::PsafeFail;
