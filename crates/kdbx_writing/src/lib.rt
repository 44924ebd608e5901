//! Headers, and inner fields of KDBX 4.0 and 4.1: their written form, as definitions, what is drawn
//! for a file, the code that writes them, and the laws that what is written is read as what it was
//! written from.
#![tactic(auto)]

mod draws;
mod header;
mod inner;
mod kdf;
pub mod laws;

pub use draws::{Draws, draw, iv_len};
pub use header::write_header;
pub use inner::{inner_len, write_inner};
pub use kdf::with_salt;
