//! ChaCha20 and Salsa20, stream ciphers whose keystream is XORed with a text in pieces of any
//! length.
#![tactic(auto)]

mod chacha;
mod chacha_blocks;
mod inner;
mod lanes;
pub mod laws;
mod salsa;
mod salsa_blocks;
mod state;
mod window;

pub use chacha::ChaCha20;
pub use inner::{InnerStream, StreamUnknown};
pub use salsa::Salsa20;
pub use secret_core;
pub use secret_core::outside_core;
