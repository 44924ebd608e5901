//! The inner fields at the start of a deciphered text of KDBX 4: the stream that hides values in
//! the document, and the attached files.
#![tactic(auto)]

mod inner;

pub use inner::{Inner, read_inner};
pub use kdbx_parts::FrameFail;
