//! Keys written as text.

ghost use Rattle.std.specs.Prelude.{◌≡◌, None, IfOk};
ghost use Rattle.key_core.specs.KeyTexts as texts;

use base64::engine::general_purpose::STANDARD;
use outside_core::NoMemory;
use secret_core::{Key, Secret};
use std::alloc::Global;
use text_core::is_space;

/// The text without any white space.
pub(crate) fn dense(alloc: Global, text: &[u8]) -> Result<Secret, NoMemory>
    ensures { IfOk result (λ secret. secret.bytes ≡ texts.without_spaces text.now) }
{
    let mut dense = Secret::with_room(alloc, text.len())?;
    'bytes: for byte in text {
        if !is_space(*byte) {
            dense.push(*byte);
        }
    }
    Ok(dense)
}

/// The key that 64 hexadecimal digits write.
#[tactic(auto, unfolding(crate::specs::KeyTexts::hexadecimal_key))]
pub(crate) fn hexadecimal_key(digits: &[u8]) -> Option<Key>
    ensures { result ≡ texts.hexadecimal_key digits.now }
{
    let mut key = Key::of(&[0; 32]);
    match hex::decode_to_slice(digits, key.bytes_mut()) {
        Ok(()) => Some(key),
        Err(_) => spent(key),
    }
}

/// The four bytes that eight hexadecimal digits write.
#[tactic(auto, unfolding(crate::specs::KeyTexts::hexadecimal_hash))]
pub(crate) fn hexadecimal_hash(digits: &[u8]) -> Option<[u8; 4]>
    ensures { result ≡ texts.hexadecimal_hash digits.now }
{
    let mut hash = [0; 4];
    match hex::decode_to_slice(digits, &mut hash) {
        Ok(()) => Some(hash),
        Err(_) => None,
    }
}

/// The key that a text writes in base64.
pub(crate) fn base64_key(text: &[u8]) -> Option<Key>
    ensures { result ≡ texts.base64_key text.now }
{
    let mut key = Key::of(&[0; 32]);
    match STANDARD.decode_slice(text, key.bytes_mut()) {
        Ok(32) => Some(key),
        Ok(_) => spent(key),
        Err(_) => spent(key),
    }
}

// Spends what was to become a key.
fn spent(mut key: Key) -> Option<Key>
    ensures { result ≡ None }
{
    key.clear();
    key.release();
    None
}
