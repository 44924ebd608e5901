//! Message authentication: HMAC-SHA-256, and the authenticated blocks of a KDBX 4 file; and the
//! hashed blocks of a KDBX 3.1 file.
#![tactic(auto)]

pub use fail::BlockFail;
pub use hashed::{hashed_head, join_hashed};
pub use hmac::Hmac256;
pub use joining::join_blocks;
pub use reader::BlockReader;
pub use running_mac::block_key;
pub use writer::BlockWriter;

mod ahead;
mod fail;
mod four_macs;
mod hashed;
mod head;
mod hmac;
mod joining;
pub mod laws;
mod reader;
mod running_mac;
mod state;
mod writer;
