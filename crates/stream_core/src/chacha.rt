//! ChaCha20 (RFC 8439).

ghost use Rattle.std.specs.Prelude.{◌≡◌, ℕ, ◌+◌, ◌^◌, ◌≤◌, length};
ghost use Rattle.stream_core.specs.ChaCha20.{chacha_byte, chacha_word};
ghost use Rattle.stream_core.specs.Stream.{StreamCipher, xor_stream, IsWindowAt};

use crate::chacha_blocks::four_blocks;
use crate::state::{BlockFunction, State};
use std::marker::Model;
use std::simd::{u8x16, u32x4};

/// ChaCha20 with a key of 32 bytes and a nonce of 12 (RFC 8439, 2.4), whose stream starts with
/// block 0.
///
/// A contract sees its key, its nonce and the position of the next byte of the stream. Its drop
/// zeroes the key, the nonce and the part of the stream that it keeps.
pub struct ChaCha20 {
    state: State<12>,
    position: u64,
}

impl Model for ChaCha20 {
    ghost Value = { StreamCipher };

    ghost view = { λ c. record { key = c.state.key; nonce = c.state.nonce; position = c.position } };

    ghost invariant = { λ c. IsWindowAt (chacha_byte c.state.key c.state.nonce) c.state.window
        c.position };
}

impl BlockFunction<12> for ChaCha20 {
    ghost word = { chacha_word };

    #[inline(always)]
    fn four_blocks(
        by_16: u8x16,
        by_8: u8x16,
        key: &[u8; 32],
        nonce: &[u8; 12],
        counter: u64,
    ) -> [u32x4; 16] {
        four_blocks(by_16, by_8, key, nonce, counter as u32)
    }
}

impl ChaCha20 {
    /// A cipher at the start of the stream of this key and nonce.
    pub fn new(key: &[u8; 32], nonce: &[u8; 12]) -> ChaCha20
        ensures { result ≡ record { key = key.now; nonce = nonce.now; position = 0 } }
    {
        ChaCha20 {
            state: State::new(key, nonce),
            position: 0,
        }
    }

    /// XORs a text with the next bytes of the stream. The stream has 2^38 bytes, the blocks of a
    /// 32-bit counter.
    pub fn apply(&mut self, text: &mut [u8])
        requires limit { self.old.position + length text.old ≤ 2 ^ 38 }
        ensures text { text.new ≡ xor_stream (chacha_byte self.old.key self.old.nonce)
            self.old.position text.old }
        ensures position { self.new ≡ record self.old
            { position = self.old.position + length text.old } }
    {
        self.state.apply::<ChaCha20>(self.position, text);
        self.position += text.len() as u64;
    }
}

impl Drop for ChaCha20 {
    fn drop(self) {
        let ChaCha20 {
            mut state,
            position: _,
        } = self;
        state.clear();
        state.release();
    }
}
