//! The state of a stream cipher, and the part of its work in which ChaCha20 and Salsa20 are one: a
//! window of four blocks that is filled as the place in the stream goes on.

ghost use Rattle.std.specs.Prelude.{◌≡◌, ℕ, ◌+◌, ◌*◌, ◌/◌, ◌%◌, ◌^◌, ◌<◌, ◌≤◌, List, length, slice_index, replicate};
ghost use Rattle.stream_core.specs.Words.{byte_in};
ghost use Rattle.stream_core.specs.Lanes.{lane_word, AreTurns};
ghost use Rattle.stream_core.specs.Stream.{xor_stream, IsWindowAt};

use crate::lanes::turns;
use crate::window::put_blocks;
use std::simd::{u8x16, u32x4};

// A cipher's block function, on four blocks at a time: `word key nonce counter i` is word `i` of
// the block with that number. The turns of bytes are those of `lanes::turns`, for a cipher that
// rotates by them.
pub(crate) trait BlockFunction<const N: usize> {
    ghost word: { List ℕ → List ℕ → ℕ → ℕ → ℕ };

    fn four_blocks(
        by_16: u8x16,
        by_8: u8x16,
        key: &[u8; 32],
        nonce: &[u8; N],
        counter: u64,
    ) -> [u32x4; 16]
        requires turns { AreTurns by_16 by_8 }
        requires limit { counter + 4 ≤ 2 ^ 32 }
        ensures { (j i : ℕ) → j < 4 → i < 16 → lane_word result j i
            ≡ word key.now nonce.now (counter + j) i };
}

// The secrets of a stream cipher: its key, its nonce, and a window of 256 bytes of its stream. It
// can't be dropped: it is spent by `release`, which asks that every byte is 0.
//
// The window comes first, so that its rows of 16 bytes lie within lines of memory.
pub(crate) struct State<const N: usize> {
    pub(crate) window: [u8; 256],
    pub(crate) key: [u8; 32],
    pub(crate) nonce: [u8; N],
}

impl<const N: usize> State<N> {
    pub(crate) fn new(key: &[u8; 32], nonce: &[u8; N]) -> State<N>
        ensures key { result.key ≡ key.now }
        ensures nonce { result.nonce ≡ nonce.now }
    {
        State {
            key: *key,
            nonce: *nonce,
            window: [0; 256],
        }
    }

    // Makes every byte 0.
    pub(crate) fn clear(&mut self)
        ensures key { self.new.key ≡ replicate 32 0 }
        ensures nonce { self.new.nonce ≡ replicate N 0 }
        ensures window { self.new.window ≡ replicate 256 0 }
    {
        self.key = [0; 32];
        self.nonce.fill(0);
        self.window = [0; 256];
    }

    pub(crate) fn release(self)
        requires key { self.key ≡ replicate 32 0 }
        requires nonce { self.nonce ≡ replicate N 0 }
        requires window { self.window ≡ replicate 256 0 }
    {
        let State {
            key: _,
            nonce: _,
            window: _,
        } = self;
    }

    // Makes the window the one that `place` is in.
    fn prepare<B: BlockFunction<N>>(&mut self, by_16: u8x16, by_8: u8x16, place: u64)
        requires turns { AreTurns by_16 by_8 }
        requires limit { place < 2 ^ 38 }
        requires window { IsWindowAt (byte_in (B.word self.old.key self.old.nonce)) self.old.window
            place }
        ensures key { self.new.key ≡ self.old.key }
        ensures nonce { self.new.nonce ≡ self.old.nonce }
        ensures window { (i : ℕ) → i < 256
            → slice_index self.new.window i ≡ byte_in (B.word self.old.key self.old.nonce)
            (256 * (place / 256) + i) }
    {
        if place % 256 == 0 {
            let words = B::four_blocks(by_16, by_8, &self.key, &self.nonce, place / 64);
            put_blocks(&mut self.window, &words);
        }
    }

    // XORs a text with the stream from `place` on.
    pub(crate) fn apply<B: BlockFunction<N>>(&mut self, place: u64, text: &mut [u8])
        requires limit { place + length text.old ≤ 2 ^ 38 }
        requires window { IsWindowAt (byte_in (B.word self.old.key self.old.nonce)) self.old.window
            place }
        ensures text { text.new ≡ xor_stream (byte_in (B.word self.old.key self.old.nonce)) place
            text.old }
        ensures key { self.new.key ≡ self.old.key }
        ensures nonce { self.new.nonce ≡ self.old.nonce }
        ensures window { IsWindowAt (byte_in (B.word self.old.key self.old.nonce)) self.new.window
            (place + length text.old) }
    {
        let [by_16, by_8] = turns();
        let mut done = 0;
        'pieces: while done < text.len() {
            let at = place + done as u64;
            self.prepare::<B>(by_16, by_8, at);
            let from = (at % 256) as usize;
            let count = (text.len() - done).min(256 - from);
            xor_window(&mut text[done..done + count], &self.window, from);
            done += count;
        }
    }
}

// XORs a text with the bytes of a window from `from` on.
#[inline(always)]
fn xor_window(text: &mut [u8], window: &[u8; 256], from: usize)
    requires { from + length text.old ≤ 256 }
    ensures { text.new ≡ xor_stream (slice_index window.now) from text.old }
{
    'bytes: for i in 0..text.len() {
        text[i] ^= window[from + i];
    }
}
