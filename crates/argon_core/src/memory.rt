//! The memory of a computation, and single blocks beside it, which are all zero again before they
//! are given back.

ghost use Rattle.std.specs.Prelude.{◌≡◌, ◌/◌, ◌≤◌, IfOk, length, replicate, vec_len};
ghost use Rattle.argon_core.specs.Memory.{IsWiped};

use crate::compression::Block;
use std::alloc::{AllocError, Global};

// How many words stand before the first block. An allocator gives a large piece of memory from 16
// bytes after the start of a page on; with these words they are a block's length, so that no block
// lies across two pages, which would have to be looked for one after the other.
const WORDS_BEFORE: usize = 126;

// The blocks of all lanes, and the words before them. They are as secret as the password, so the
// memory must be spent, and it can be given up only once it is zero.
pub(crate) struct Memory {
    pub(crate) words: Vec<u64>,
}

// Zeroes every word.
fn zero(words: &mut [u64])
    ensures { IsWiped words.new }
{
    'each: for word in words.iter_mut() {
        *word = 0;
    }
}

impl Memory {
    /// A memory of `len` blocks.
    pub(crate) fn zeros(alloc: Global, len: usize) -> Result<Memory, AllocError>
        requires { len ≤ 1048576 }
        ensures { IfOk result (λ memory. vec_len memory.words / 128 ≡ len) }
    {
        let words = vec![in alloc; 0; 128 * len + WORDS_BEFORE]?;
        Ok(Memory { words })
    }

    /// Its blocks.
    pub(crate) fn blocks(&mut self) -> &mut [Block]
        ensures { length result.now ≡ vec_len self.old.words / 128 }
    {
        let (_, blocks) = self.words.as_rchunks_mut::<128>();
        blocks
    }

    /// Zeroes every word.
    pub(crate) fn wipe(&mut self)
        ensures { IsWiped self.new.words.items }
    {
        zero(&mut self.words);
    }

    /// Gives the memory up.
    pub(crate) fn release(self)
        requires { IsWiped self.words.items }
    {
        let Memory { words } = self;
        drop(words);
    }
}

/// A block beside the memory, which must be spent as the memory is.
pub(crate) struct SingleBlock {
    pub(crate) words: Block,
}

impl SingleBlock {
    /// A block of zeros.
    pub(crate) fn zeros() -> SingleBlock
        ensures { result.words ≡ replicate 128 0 }
    {
        SingleBlock { words: [0; 128] }
    }

    /// Zeroes every word.
    pub(crate) fn wipe(&mut self)
        ensures { self.new.words ≡ replicate 128 0 }
    {
        self.words = [0; 128];
    }

    /// Gives up a block that is zero.
    pub(crate) fn release(self)
        requires { self.words ≡ replicate 128 0 }
    {
        let SingleBlock { words: _ } = self;
    }
}

/// The bytes of a block, which must be spent as the memory is.
pub(crate) struct BlockBytes {
    pub(crate) bytes: [u8; 1024],
}

impl BlockBytes {
    /// Bytes that are all zero.
    pub(crate) fn zeros() -> BlockBytes
        ensures { result.bytes ≡ replicate 1024 0 }
    {
        BlockBytes { bytes: [0; 1024] }
    }

    /// Zeroes every byte.
    pub(crate) fn wipe(&mut self)
        ensures { self.new.bytes ≡ replicate 1024 0 }
    {
        self.bytes = [0; 1024];
    }

    /// Gives up bytes that are zero.
    pub(crate) fn release(self)
        requires { self.bytes ≡ replicate 1024 0 }
    {
        let BlockBytes { bytes: _ } = self;
    }
}
