//! The hashed blocks of a KDBX 3.1 file.

ghost use Rattle.std.specs.Prelude.{◌≡◌, ◌+◌, ◌≤◌, IfOk, length, take, drop};
ghost use Rattle.std.specs.Int.{w32, to_le_bytes, from_le_bytes};
ghost use Rattle.mac_core.specs.HashedBlocks.{content_hash, hashed_at, hashed_contents_of, hashed_head};
ghost use Rattle.outside_core.specs.Results.{Returns, exact};

use crate::BlockFail;
use crate::state::is_same;
use secret_core::Secret;
use sha2::{Digest, Sha256};

/// The length of a hashed block's head in bytes.
const HEAD: usize = 40;

// The hash that a block stores of its content: zeros where there is no content.
#[tactic(auto, unfolding(crate::specs::HashedBlocks::content_hash))]
fn content_hash(content: &[u8]) -> [u8; 32]
    ensures { result ≡ content_hash content.now }
{
    if content.is_empty() {
        [0; 32]
    } else {
        Sha256::digest(content)
    }
}

/// The head of the block of this index and content: index, hash and size. The end block has no
/// content, and zeros for a hash.
pub fn hashed_head(index: u32, piece: &[u8]) -> [u8; 40]
    requires { length piece.now ≤ 1048576 }
    ensures { result ≡ hashed_head index piece.now }
{
    let mut head = [0; HEAD];
    head[..4].copy_from_slice(&index.to_le_bytes());
    head[4..36].copy_from_slice(&content_hash(piece));
    head[36..].copy_from_slice(&(piece.len() as u32).to_le_bytes());
    head
}

// The number that is in the four bytes from an offset on.
fn number_at(bytes: &[u8], offset: usize) -> u32
    requires { offset + 4 ≤ length bytes.now }
    ensures number { result ≡ from_le_bytes w32 (take 4 (drop offset bytes.now)) }
    ensures bytes { to_le_bytes w32 result ≡ take 4 (drop offset bytes.now) }
{
    u32::from_le_bytes([
        bytes[offset],
        bytes[offset + 1],
        bytes[offset + 2],
        bytes[offset + 3],
    ])
}

// The length of the content of the block of this index, with which the rest of a text of `size`
// bytes begins.
fn content_len(size: u64, index: u64, rest: &[u8]) -> Result<usize, BlockFail>
    ensures gives { Returns exact
        (λ n. record { content = take n (drop 40 rest.now); rest = drop n (drop 40 rest.now) })
        result (hashed_at size index rest.now) }
    ensures within { IfOk result (λ n. 40 + n ≤ length rest.now) }
{
    if rest.len() < HEAD {
        return Err(BlockFail::Truncated(size));
    }
    let len = number_at(rest, 36) as usize;
    if rest.len() - HEAD < len {
        return Err(BlockFail::Truncated(size));
    }
    if !is_same(&rest[..4], &index.to_le_bytes()[..4]) {
        return Err(BlockFail::BlockIndex(index));
    }
    if !is_same(&rest[4..36], &content_hash(&rest[HEAD..HEAD + len])) {
        return Err(BlockFail::BlockHash(index));
    }
    Ok(len)
}

// Moves the contents of the blocks from an offset on to the start of a text, and gives their length.
fn join_from(text: &mut [u8], from: usize) -> Result<usize, BlockFail>
    requires { from ≤ length text.old }
    ensures gives { Returns exact (λ n. take n text.new) result
        (hashed_contents_of (length text.old) (drop from text.old)) }
    ensures len { length text.new ≡ length text.old }
    ensures within { IfOk result (λ n. n ≤ length text.new) }
{
    let size = text.len() as u64;
    let mut at = from;
    let mut joined = 0;
    'each: for index in 0..text.len() - from {
        let len = content_len(size, index as u64, &text[at..])?;
        if len == 0 {
            return Ok(joined);
        }
        text.copy_within(at + HEAD..at + HEAD + len, joined);
        joined += len;
        at += HEAD + len;
    }
    Err(BlockFail::Truncated(size))
}

/// Moves the contents of the hashed blocks of a KDBX 3.1 file to the start of a payload, and gives
/// their length. The first block is at the offset `from`. What is after the contents then is not to
/// be read, nor is anything after a refusal.
///
/// The first block that is not right is refused: Truncated, with the payload's length, where it is
/// not whole; BlockIndex where its index is not the one that is due; BlockHash where its hash is not
/// that of its content. Bytes after the end block are passed over. Takes no memory.
pub fn join_hashed(payload: &mut Secret, from: usize) -> Result<usize, BlockFail>
    requires { from ≤ length payload.old.bytes }
    ensures gives { Returns exact (λ n. take n payload.new.bytes) result
        (hashed_contents_of (length payload.old.bytes) (drop from payload.old.bytes)) }
    ensures len { length payload.new.bytes ≡ length payload.old.bytes }
    ensures within { IfOk result (λ n. n ≤ length payload.new.bytes) }
    ensures spare { payload.new.spare ≡ payload.old.spare }
{
    join_from(payload.lend_mut(), from)
}
