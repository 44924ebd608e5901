//! A text under a cipher, enciphered in place.

ghost use Rattle.std.specs.Prelude.{◌≡◌, ◌≤◌, ◌%◌, ◌^◌, Some, length, take};
ghost use Rattle.block_core.specs.Cbc.{cbc_deciphered, cbc_enciphered};
ghost use Rattle.block_core.specs.Padding.{padded};
ghost use Rattle.stream_core.specs.ChaCha20.{chacha_byte};
ghost use Rattle.stream_core.specs.Stream.{xor_stream};
ghost use Rattle.kdbx_payload.specs.Ciphers.{cbc_text, deciphered_text};
ghost use Rattle.kdbx_seal.specs.Enciphered.{enciphered_text};

use block_core::{Aes256, Block16, Twofish256, cbc_encrypt, pad_len};
use kdbx_frame::Cipher;
use secret_core::{Key, Secret};
use stream_core::{ChaCha20, laws};

// Puts the padding at the end of a text.
fn pad(text: &mut Secret)
    requires { 16 ≤ text.old.spare }
    ensures { text.new.bytes ≡ padded text.old.bytes }
{
    let len = pad_len(text.len());
    let padding = [len as u8; 16];
    text.extend(&padding[..len]);
}

// Enciphers whole blocks.
fn encipher_blocks<B: Block16>(cipher: &B, iv: &[u8; 16], mut text: Secret) -> Secret
    requires { length text.bytes % 16 ≡ 0 }
    ensures bytes { result.bytes ≡ cbc_enciphered (B.enciphered cipher.now) iv.now text.bytes }
    ensures undone { cbc_deciphered (B.deciphered cipher.now) iv.now result.bytes ≡ text.bytes }
    ensures len { length result.bytes ≡ length text.bytes }
{
    cbc_encrypt(cipher, iv, text.lend_mut());
    text
}

// Enciphers a text with its padding, in chained blocks.
fn encipher_chained<B: Block16>(cipher: &B, iv: &[u8; 16], mut text: Secret) -> Secret
    requires { 16 ≤ text.spare }
    ensures bytes { result.bytes
        ≡ cbc_enciphered (B.enciphered cipher.now) iv.now (padded text.bytes) }
    ensures undone { cbc_text (B.deciphered cipher.now) iv.now result.bytes ≡ Some text.bytes }
{
    pad(&mut text);
    encipher_blocks(cipher, iv, text)
}

// Enciphers by ChaCha20, whose nonce is the first 12 bytes of the IV.
fn encipher_stream(key: &Key, iv: &[u8; 16], mut text: Secret) -> Secret
    requires { length text.bytes ≤ 2 ^ 38 }
    ensures bytes { result.bytes ≡ xor_stream (chacha_byte key.now (take 12 iv.now)) 0 text.bytes }
    ensures undone { xor_stream (chacha_byte key.now (take 12 iv.now)) 0 result.bytes ≡ text.bytes }
{
    laws::twice();
    let mut nonce = [0; 12];
    nonce.copy_from_slice(&iv[..12]);
    let mut stream = ChaCha20::new(key.bytes(), &nonce);
    stream.apply(text.lend_mut());
    text
}

/// A text under a cipher, enciphered in place; deciphered again it is the text.
pub fn encipher(cipher: Cipher, key: &Key, iv: &[u8; 16], text: Secret) -> Secret
    requires spare { 16 ≤ text.spare }
    requires limit { length text.bytes ≤ 2 ^ 38 }
    ensures bytes { result.bytes ≡ enciphered_text cipher key.now iv.now text.bytes }
    ensures undone { deciphered_text cipher key.now iv.now result.bytes ≡ Some text.bytes }
{
    match cipher {
        Cipher::Aes => encipher_chained(&Aes256::new(key), iv, text),
        Cipher::Twofish => encipher_chained(&Twofish256::new(key), iv, text),
        Cipher::ChaCha => encipher_stream(key, iv, text),
    }
}
