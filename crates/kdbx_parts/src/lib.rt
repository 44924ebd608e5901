//! What headers, KDF dictionaries and inner fields are made of, why one of them is refused, and
//! which key derivation the KDF dictionary of a header of KDBX 4 describes.
#![tactic(auto)]

mod dictionary;
mod fail;
mod parts;

pub use dictionary::{KdfDescription, dictionary_of};
pub use fail::FrameFail;
pub use key_core;
pub use parts::{
    Field, LengthWidth, array_of, copy_of, field_head_len, field_of, out_of_bounds, required, same,
    split_bytes, u32_of, u64_of, unique, unique_of_length,
};
