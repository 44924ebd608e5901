//! The values of a document: how the text of an element is read by its kind, and lists in which a
//! key occurs once.
#![tactic(auto)]

mod keyed;
mod kinds;
mod marks;
mod values;

pub use keyed::{Keyed, KeyedList};
pub use kinds::{
    ChoiceValue, FalseUnlessTrue, HashOrNone, IdOrNone, IdValue, Kind, Number32, Number64,
    OpenBytes, OwnId, SecretBytes, SecretText, Signed32, Signed64, TextValue, TimeValue,
    TrueUnlessFalse,
};
pub use marks::{appended, base64_bytes, bytes_of, is_hidden, is_marked, no_text, resolved};
pub use markup_core;
pub use text_core;
pub use values::number64;
