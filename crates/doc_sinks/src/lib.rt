//! Where the text of a document is put: it is counted first, and then written into secret memory.
//! The bytes of a document's attachments, each once, with their numbers.
#![tactic(auto)]

mod attributes;
mod coding;
mod counting;
mod elements;
mod filling;
mod gathering;
mod pairs;
mod pool;
mod sink;
mod values;

pub use attributes::Mark;
pub use counting::TextCounter;
pub use elements::{close, open, put_coded, put_leaf, put_secret};
pub use filling::TextFiller;
pub use pool::{Pool, pool_of};
pub use sink::TextSink;
pub use values::{
    put_bool, put_id, put_number, put_signed, put_small_signed, put_text, put_time, put_tri,
    put_value, whole,
};
