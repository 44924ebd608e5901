//! Times as `Times` elements say them.

use vault_model::Stamp;

/// The times of a group or of a version of an entry.
#[derive(Clone, Copy)]
pub struct Times {
    pub modified: Stamp,
    pub created: Stamp,
    pub accessed: Stamp,
    pub expiry: Stamp,
    pub expires: bool,
    pub usage: u64,
    pub placed: Stamp,
}
