//! The inner stream of a KDBX file.

ghost use Rattle.std.specs.Prelude.{◌≡◌, ◌≢◌, ℕ, ◌+◌, Some, None, ◌↔◌, IfOk, IfErr, IsErr, length, take, drop};
ghost use Rattle.sha2.specs.Sha256.{sha256};
ghost use Rattle.sha2.specs.Sha512.{sha512};
ghost use Rattle.stream_core.specs.InnerStream.{kdbx_nonce};
ghost use Rattle.stream_core.specs.Stream.{xor_stream};

use crate::chacha::ChaCha20;
use crate::salsa::Salsa20;
use secret_core::{Key, Key64};
use sha2::{Digest, Sha256, Sha512};

// The nonce of Salsa20 as an inner stream.
const KDBX_NONCE: [u8; 8] = [0xe8, 0x30, 0x09, 0x4b, 0x97, 0x20, 0x5d, 0x2a];

/// The stream that hides the protected values of a document.
///
/// A contract sees which keystream it is, and the offset of the next byte.
#[derive(Drop)]
pub enum InnerStream {
    /// ChaCha20.
    ChaCha(ChaCha20),
    /// Salsa20.
    Salsa(Salsa20),
    /// No stream: nothing is hidden.
    Clear,
}

/// A file asks for an inner stream by a number that is neither 2, Salsa20, nor 3, ChaCha20. The
/// number is the one that was there.
#[derive(Clone, Copy, Debug)]
pub struct StreamUnknown(pub u32);

impl InnerStream {
    ghost use Rattle.stream_core.specs.InnerStream.{keystream_of, keystream, keystream_byte, IsAt, HasLeft};

    /// The inner stream that a file asks for by its number and its stream key, at the start.
    pub fn new(id: u32, stream_key: &[u8]) -> Result<InnerStream, StreamUnknown>
        ensures known { IfOk result (λ s. (keystream_of id stream_key.now ≡ Some (keystream s))
            × IsAt s 0) }
        ensures unknown { IfErr result (λ e. (keystream_of id stream_key.now ≡ None)
            × (e ≡ record { 0 = id })) }
        ensures exactly { IsErr result ↔ (id ≢ 2) × (id ≢ 3) }
    {
        match id {
            2 => Ok(InnerStream::Salsa(salsa_of(stream_key))),
            3 => Ok(InnerStream::ChaCha(chacha_of(stream_key))),
            _ => Err(StreamUnknown(id)),
        }
    }

    /// XORs a text with the next bytes of the stream. A clear stream changes nothing.
    pub fn apply(&mut self, text: &mut [u8])
        requires left { HasLeft self.old (length text.old) }
        ensures text { (place : ℕ) → IsAt self.old place
            → text.new ≡ xor_stream (keystream_byte (keystream self.old)) place text.old }
        ensures keystream { keystream self.new ≡ keystream self.old }
        ensures place { (place : ℕ) → IsAt self.old place
            → IsAt self.new (place + length text.old) }
        ensures clear { self.old ≡ InnerStream.Clear → text.new ≡ text.old }
    {
        match self {
            InnerStream::ChaCha(cipher) => cipher.apply(text),
            InnerStream::Salsa(cipher) => cipher.apply(text),
            InnerStream::Clear => {}
        }
    }
}

// Salsa20 under the SHA-256 of a stream key.
fn salsa_of(stream_key: &[u8]) -> Salsa20
    ensures { result ≡ record { key = sha256 stream_key.now; nonce = kdbx_nonce; position = 0 } }
{
    let mut key = Key::of(&[0; 32]);
    *key.bytes_mut() = Sha256::digest(stream_key);
    let cipher = Salsa20::new(key.bytes(), &KDBX_NONCE);
    key.clear();
    key.release();
    cipher
}

// ChaCha20 under the first 32 bytes of the SHA-512 of a stream key, with the next 12 as nonce.
fn chacha_of(stream_key: &[u8]) -> ChaCha20
    ensures { let digest = sha512 stream_key.now in
        result ≡ record { key = take 32 digest; nonce = take 12 (drop 32 digest); position = 0 } }
{
    let mut digest = Key64::of(&[0; 64]);
    *digest.bytes_mut() = Sha512::digest(stream_key);
    let cipher = cipher_of(digest.bytes());
    digest.clear();
    digest.release();
    cipher
}

// ChaCha20 under the first 32 bytes of a digest, with the next 12 as nonce; they are not copied
// but into the cipher.
fn cipher_of(digest: &[u8; 64]) -> ChaCha20
    ensures { result ≡ record
        { key = take 32 digest.now; nonce = take 12 (drop 32 digest.now); position = 0 } }
{
    let (key, rest) = digest.split_first_chunk::<32>().unwrap();
    let (nonce, _) = rest.split_first_chunk::<12>().unwrap();
    ChaCha20::new(key, nonce)
}
