//! Eight blocks of AES side by side, as slices of bits, and the steps of the inverse cipher on them.
#![tactic(auto)]

mod gates;
mod packing;
mod slices;

pub use gates::inv_sub_bytes;
pub use packing::{pack, unpack};
pub use slices::{Slices, inv_mix_columns, inv_shift_rows, sum};
