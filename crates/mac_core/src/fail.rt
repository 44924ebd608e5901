//! How the reading of blocks fails.

/// Why a stream of blocks is refused.
#[derive(Clone, Copy, PartialEq, Eq)]
pub enum BlockFail {
    /// The file, or the text of hashed blocks, ends before its end block was read. The number is the
    /// offset after its last byte.
    Truncated(u64),
    /// A block is whole and its MAC is not the one that the key gives: the file was changed, or the
    /// key is another. The number is the block's index.
    BlockMac(u64),
    /// A hashed block is whole and its hash is not that of its content: the file was changed. The
    /// number is the block's index.
    BlockHash(u64),
    /// A hashed block is whole and its index is another than this one, which is due.
    BlockIndex(u64),
}
