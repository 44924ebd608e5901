//! The payload of a file of KDBX 3.1, 4.0 or 4.1: from the file's bytes and a composite key to its
//! settings, its attached files, and the text of its document with the stream that hides values in
//! it; or why not. Nothing here speaks of what the document says.
#![tactic(auto)]

mod content;
mod fail;
mod header_macs;
pub mod laws;
mod payload;
mod text;

pub use fail::PayloadFail;
pub use header_macs::header_mac;
pub use kdbx_frame;
pub use kdbx_frame::key_core;
pub use payload::{Payload, payload_in};
pub use text::TextReader;
