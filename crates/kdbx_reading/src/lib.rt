//! The payload of a KDBX file of a store, by the file's name and a composite key: the file is read
//! through one array, and what it hides is deciphered in the one secret that it is read into.
#![tactic(auto)]

mod reading;

pub use kdbx_payload;
pub use reading::read_payload;
