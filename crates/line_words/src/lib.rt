//! The words of a typed line: it is cut at spaces, but for those in quotation marks.
#![tactic(auto)]

mod fail;
mod laws;
mod reading;

pub use fail::LineFail;
pub use laws::quoted_words_are_read;
pub use reading::split_line;
