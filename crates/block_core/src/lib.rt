//! Block ciphers with keys of 256 bits, AES and Twofish, with the chaining and the padding of
//! blocks.
#![tactic(auto)]

mod aes;
mod block;
mod cbc;
mod field;
pub mod laws;
mod padding;
mod twofish;

pub use aes::Aes256;
pub use block::Block16;
pub use cbc::{cbc_decrypt, cbc_encrypt};
pub use padding::{BadPadding, pad_len, unpad};
pub use twofish::Twofish256;
