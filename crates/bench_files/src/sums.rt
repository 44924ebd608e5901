//! What is printed of a text and of a file.

use crate::fault::Fault;
use sha2::{Digest, Sha256};
use std::alloc::Global;

/// The length of a text or of a file, and its SHA-256.
#[derive(Clone, Copy)]
pub struct Sum {
    len: usize,
    digest: [u8; 32],
}

impl Sum {
    /// The sum of bytes.
    pub fn of(bytes: &[u8]) -> Sum {
        Sum {
            len: bytes.len(),
            digest: Sha256::digest(bytes),
        }
    }

    /// Whether two files have the same bytes, by their SHA-256.
    pub fn is_same(&self, other: &Sum) -> bool {
        self.digest == other.digest
    }

    /// The length, and the digits of the SHA-256.
    pub fn text(&self, alloc: Global) -> Result<String, Fault> {
        let len = self.len;
        let digits = hex::encode(alloc, &self.digest)?;
        Ok(format!(in alloc; "{len} {digits}")?)
    }
}
