//! A content in blocks of a KDBX file: appended to a draft in the authenticated blocks of version 4,
//! or put into the hashed blocks of version 3.1 where it is.
#![tactic(auto)]

mod blocks;
mod hashing;

pub use blocks::append_blocks;
pub use hashing::{hashed_heads_len, put_hashed_room, split_hashed};
