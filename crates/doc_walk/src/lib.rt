//! A walk over the elements of a document: what each says, and what it uses up of the stream that
//! hides values.
#![tactic(auto)]

mod containers;
mod custom_items;
mod element_times;
mod walk;
mod whole_parts;

pub use containers::{Parts, contents, hold, read_counted, read_whole};
pub use custom_items::custom_data;
pub use doc_values;
pub use doc_values::markup_core;
pub use element_times::{never, no_times, times};
pub use walk::{Tag, Walk};
pub use whole_parts::{append, kept_with, known_after, put};
