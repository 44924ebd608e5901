//! What a file is sealed with.
use crate::settings::Settings;
use vault_model::secret_core::Key;

/// What a file is sealed with, once it was opened.
pub struct Sealing {
    /// The settings of the file, which are in order.
    pub settings: Settings,
    /// The composite key that opened it, which must be cleared and released.
    pub composite: Key,
}

/// Clears and releases the composite key of a file, where it has one.
pub fn release_key(sealing: Option<Sealing>) {
    if let Some(
        Sealing {
            settings: _,
            mut composite,
        },
    ) = sealing
    {
        composite.clear();
        composite.release();
    }
}
