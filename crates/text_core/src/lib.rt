//! Texts of markup as values: raw markup and the text that it stands for, both ways and without
//! memory; white space, words, base64, and escapes resolved into secret memory.
#![tactic(auto)]

mod decoding;
mod escapes;
mod fronts;
mod lanes;
mod raw_markup;
mod spaces;

pub use decoding::{decode_base64, decode_base64_array};
pub use escapes::{append_unescaped, spells_word, unescaped};
pub use raw_markup::{
    escape, escape_bytes, escaped_bytes_len, escaped_len, unescape, unescaped_len,
};
pub use spaces::{is_space, is_word, trim};
