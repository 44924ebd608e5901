//! Salsa20 (Bernstein, "Salsa20 specification").

ghost use Rattle.std.specs.Prelude.{◌≡◌, ℕ, ◌+◌, ◌^◌, ◌≤◌, length};
ghost use Rattle.stream_core.specs.Salsa20.{salsa_byte, salsa_word};
ghost use Rattle.stream_core.specs.Stream.{StreamCipher, xor_stream, IsWindowAt};

use crate::salsa_blocks::four_blocks;
use crate::state::{BlockFunction, State};
use std::marker::Model;
use std::simd::{u8x16, u32x4};

/// Salsa20 with a key of 32 bytes and a nonce of 8 (Bernstein, "Salsa20 specification", section
/// 10), whose stream starts with block 0.
///
/// A contract sees its key, its nonce and the position of the next byte of the stream. Its drop
/// zeroes the key, the nonce and the part of the stream that it keeps.
pub struct Salsa20 {
    state: State<8>,
    position: u64,
}

impl Model for Salsa20 {
    ghost Value = { StreamCipher };

    ghost view = { λ c. record { key = c.state.key; nonce = c.state.nonce; position = c.position } };

    ghost invariant = { λ c. IsWindowAt (salsa_byte c.state.key c.state.nonce) c.state.window
        c.position };
}

impl BlockFunction<8> for Salsa20 {
    ghost word = { salsa_word };

    #[inline(always)]
    fn four_blocks(
        _: u8x16,
        _: u8x16,
        key: &[u8; 32],
        nonce: &[u8; 8],
        counter: u64,
    ) -> [u32x4; 16] {
        four_blocks(key, nonce, counter)
    }
}

impl Salsa20 {
    /// A cipher at the start of the stream of this key and nonce.
    pub fn new(key: &[u8; 32], nonce: &[u8; 8]) -> Salsa20
        ensures { result ≡ record { key = key.now; nonce = nonce.now; position = 0 } }
    {
        Salsa20 {
            state: State::new(key, nonce),
            position: 0,
        }
    }

    /// XORs a text with the next bytes of the stream. The stream has 2^38 bytes, the blocks of a
    /// 32-bit counter.
    pub fn apply(&mut self, text: &mut [u8])
        requires limit { self.old.position + length text.old ≤ 2 ^ 38 }
        ensures text { text.new ≡ xor_stream (salsa_byte self.old.key self.old.nonce)
            self.old.position text.old }
        ensures position { self.new ≡ record self.old
            { position = self.old.position + length text.old } }
    {
        self.state.apply::<Salsa20>(self.position, text);
        self.position += text.len() as u64;
    }
}

impl Drop for Salsa20 {
    fn drop(self) {
        let Salsa20 {
            mut state,
            position: _,
        } = self;
        state.clear();
        state.release();
    }
}
