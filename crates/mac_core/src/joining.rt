//! The contents of the blocks of a KDBX 4 file, joined in place.

ghost use Rattle.std.specs.Prelude.{◌≡◌, ℕ, ◌+◌, ◌<◌, ◌≤◌, ◌^◌, IfOk, length, take, drop};
ghost use Rattle.mac_core.specs.Contents.{block_at, contents_of, head_of_block};
ghost use Rattle.mac_core.specs.RightBlocks.{AreRight};
ghost use Rattle.outside_core.specs.Results.{Returns, exact};

use crate::BlockFail;
use crate::ahead::{right_ahead, size_at_start};
use crate::head::{HEAD, head_of};
use crate::running_mac::RunningMac;
use crate::state::is_same;
use secret_core::{Key64, Secret};

// The head that a block of this index and content has.
fn block_head(base: &[u8; 64], index: u64, content: &[u8]) -> [u8; HEAD]
    requires { length content.now < 2 ^ 32 }
    ensures { result ≡ head_of_block base.now index content.now }
{
    let size = content.len() as u32;
    let mut running = RunningMac::new(base, index);
    running.update(&size.to_le_bytes());
    running.update(content);
    head_of(&running.finish(), size)
}

// The length of the content of the block of this index, with which the rest of a file of `size`
// bytes begins.
fn content_len(base: &[u8; 64], size: u64, index: u64, rest: &[u8]) -> Result<usize, BlockFail>
    ensures gives { Returns exact
        (λ n. record { content = take n (drop 36 rest.now); rest = drop n (drop 36 rest.now) })
        result (block_at base.now size index rest.now) }
    ensures within { IfOk result (λ n. 36 + n ≤ length rest.now) }
{
    if rest.len() < HEAD {
        return Err(BlockFail::Truncated(size));
    }
    let len = size_at_start(rest) as usize;
    if rest.len() - HEAD < len {
        return Err(BlockFail::Truncated(size));
    }
    let head = block_head(base, index, &rest[HEAD..HEAD + len]);
    if !is_same(&rest[..HEAD], &head) {
        return Err(BlockFail::BlockMac(index));
    }
    Ok(len)
}

// How many of the first blocks of the rest are known to be right: those that were, or else those
// that are found to be.
fn known_ahead(base: &[u8; 64], index: u64, known: u64, rest: &[u8]) -> u64
    requires index { index < 2 ^ 63 }
    requires known { AreRight base.now known index rest.now }
    ensures { AreRight base.now result index rest.now }
{
    if known > 0 {
        return known;
    }
    right_ahead(base, index, rest)
}

// The length of the content of that block, where so many of the first blocks are known to be right.
fn next_len(
    base: &[u8; 64],
    size: u64,
    index: u64,
    known: u64,
    rest: &[u8],
) -> Result<usize, BlockFail>
    requires { AreRight base.now known index rest.now }
    ensures gives { Returns exact
        (λ n. record { content = take n (drop 36 rest.now); rest = drop n (drop 36 rest.now) })
        result (block_at base.now size index rest.now) }
    ensures within { IfOk result (λ n. 36 + n ≤ length rest.now) }
{
    if known == 0 {
        return content_len(base, size, index, rest);
    }
    Ok(size_at_start(rest) as usize)
}

// Moves the contents of the blocks at the end of a file of `size` bytes to the start of these, and
// gives their length.
fn join_at_start(base: &[u8; 64], size: u64, text: &mut [u8]) -> Result<usize, BlockFail>
    ensures gives { Returns exact (λ n. take n text.new) result
        (contents_of base.now size text.old) }
    ensures len { length text.new ≡ length text.old }
    ensures within { IfOk result (λ n. n ≤ length text.new) }
{
    let mut at = 0;
    let mut joined = 0;
    let mut known = 0;
    'each: for index in 0..text.len() {
        known = known_ahead(base, index as u64, known, &text[at..]);
        let len = next_len(base, size, index as u64, known, &text[at..])?;
        if len == 0 {
            return Ok(joined);
        }
        text.copy_within(at + HEAD..at + HEAD + len, joined);
        joined += len;
        at += HEAD + len;
        known = known.saturating_sub(1);
    }
    Err(BlockFail::Truncated(size))
}

/// Moves the contents of the blocks of a KDBX 4 file, which end a file of `size` bytes and are under
/// this MAC base, to their own start, and gives their length. What is after the contents then is
/// not to be read, nor is anything after a refusal.
///
/// The first block that is not right is refused: Truncated, with the file's size, where it is not
/// whole; BlockMac where its MAC is wrong. Bytes after the end block are passed over. Four blocks
/// of one length are checked side by side, in half of the time. Takes no memory.
pub fn join_blocks(base: &Key64, size: u64, blocks: &mut Secret) -> Result<usize, BlockFail>
    ensures gives { Returns exact (λ n. take n blocks.new.bytes) result
        (contents_of base.now size blocks.old.bytes) }
    ensures len { length blocks.new.bytes ≡ length blocks.old.bytes }
    ensures within { IfOk result (λ n. n ≤ length blocks.new.bytes) }
    ensures spare { blocks.new.spare ≡ blocks.old.spare }
{
    join_at_start(base.bytes(), size, blocks.lend_mut())
}
