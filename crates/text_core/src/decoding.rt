//! Base64 decoded into secret memory, or into an array.

ghost use Rattle.std.specs.Prelude.{◌≡◌, IfOk, length, option_map};
ghost use Rattle.text_forms.specs.Texts as texts;

use base64::decoded_len_estimate;
use base64::engine::general_purpose::STANDARD;
use secret_core::Secret;
use secret_core::outside_core::NoMemory;
use std::alloc::Global;

/// Secret memory that holds so many zeros.
fn zeros(alloc: Global, len: usize) -> Result<Secret, NoMemory>
    ensures { IfOk result (λ zeros. length zeros.bytes ≡ len) }
{
    let mut zeros = Secret::with_room(alloc, len)?;
    for _ in 0..len {
        zeros.push(0);
    }
    Ok(zeros)
}

/// The bytes that a text spells in base64, where it does.
#[tactic(auto, unfolding(text_forms::specs::Texts::base64_bytes))]
pub fn decode_base64(alloc: Global, text: &[u8]) -> Result<Option<Secret>, NoMemory>
    ensures { IfOk result (λ decoded. option_map (λ secret. secret.bytes) decoded
        ≡ texts.base64_bytes text.now) }
{
    let mut bytes = zeros(alloc, decoded_len_estimate(text.len()))?;
    match STANDARD.decode_slice_unchecked(text, bytes.lend_mut()) {
        Ok(len) => {
            bytes.cut(len);
            Ok(Some(bytes))
        }
        Err(_) => {
            drop(bytes);
            Ok(None)
        }
    }
}

/// The bytes that a text spells in base64, where they are so many.
pub fn decode_base64_array<const N: usize>(text: &[u8]) -> Option<[u8; N]>
    ensures { result ≡ texts.bytes_of_length N text.now }
{
    let mut bytes = [0; N];
    match STANDARD.decode_slice(text, &mut bytes) {
        Ok(len) if len == N => Some(bytes),
        Ok(_) => None,
        Err(_) => None,
    }
}
