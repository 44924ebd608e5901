//! Files of Password Safe V3.

use crate::question::{Fault, Question};
use crate::refusals::safe_refusal;
use psafe_file::{OpenedSafe, check_mac, open_safe};
use std::alloc::Global;

/// The deciphered bytes of a file, or why it is refused: file, password, contents of its fields.
pub fn opened(alloc: Global, question: &Question<'_>) -> Result<String, Fault> {
    let file = question.bytes(alloc, 1)?;
    let password = question.bytes(alloc, 2)?;
    let contents = question.bytes(alloc, 3)?;
    match open_safe(alloc, &file, &password) {
        Ok(safe) => {
            let OpenedSafe {
                bytes,
                mac,
                mut computed,
            } = safe;
            computed.update(&contents);
            match check_mac(&mac, computed) {
                Ok(()) => Ok(hex::encode(alloc, bytes.lend(0, bytes.len()))?),
                Err(fail) => safe_refusal(alloc, fail),
            }
        }
        Err(fail) => safe_refusal(alloc, fail),
    }
}
