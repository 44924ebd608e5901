//! How much of a document has been read.

/// How many bytes of the inner stream have been used, and how many groups, entries and history
/// items have ended.
#[derive(Clone, Copy)]
pub struct Cursor {
    pub offset: u64,
    pub nodes: u64,
}
