//! Commands that need no database: what the words of a call say of them.
#![tactic(auto)]

mod counts;
mod standalone;

pub use counts::test_count;
pub use standalone::{Standalone, read_standalone};
