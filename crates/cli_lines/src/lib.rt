//! The lines that a call reads from its input.
#![tactic(auto)]

mod lines;

pub use cli_needs;
pub use cli_needs::{kdbx_frame, key_core};
pub use lines::{
    LastLines, Lines, number_after_last, reaches_end, read_last, read_line, read_lines,
    read_next_line,
};
