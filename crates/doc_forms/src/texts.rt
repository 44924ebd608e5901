//! What an element says, in memory.

use stream_core::secret_core::Secret;

/// What an element says: its text, or the bytes that its text hid.
#[derive(Drop)]
pub struct ElementText {
    pub bytes: Secret,
    pub is_hidden: bool,
}
