//! A text put into the hashed blocks of version 3.1 where it is.

ghost use Rattle.std.specs.Prelude.{◌≡◌, ◌+◌, ◌-◌, ◌≤◌, ◌^◌, ◌++◌, length, take, drop, replicate};
ghost use Rattle.mac_core.specs.HashedBlocks.{hashed_block};
ghost use Rattle.kdbx_blocks.specs.Pieces.{hashed_heads_len, hashed_to_end, pieces};

use crate::blocks::PIECE;
use mac_core::hashed_head;
use secret_core::Secret;

/// The length of a hashed block's head in bytes.
const HEAD: usize = 40;

/// How many bytes the heads of the hashed blocks of a text of this length take, with that of the end
/// block.
pub fn hashed_heads_len(len: usize) -> usize
    requires { len ≤ 2 ^ 38 }
    ensures { result ≡ hashed_heads_len len }
{
    HEAD * len.div_ceil(PIECE) + HEAD
}

/// Puts zeros at the end of a secret, in place of the heads of the hashed blocks of a text of this
/// length, which is to follow.
pub fn put_hashed_room(out: &mut Secret, len: usize)
    requires limit { len ≤ 2 ^ 38 }
    requires spare { hashed_heads_len len ≤ out.old.spare }
    ensures bytes { out.new.bytes ≡ out.old.bytes ++ replicate (hashed_heads_len len) 0 }
    ensures spare { out.new.spare ≡ out.old.spare - hashed_heads_len len }
{
    let count = len.div_ceil(PIECE);
    'heads: for _ in 0..count + 1 {
        out.extend(&[0; HEAD]);
    }
}

// Moves a piece of a text to the left, to where its block is to be, and writes the block's head
// before it.
fn move_to_block(text: &mut [u8], to: usize, at: usize, len: usize, index: u32)
    requires room { to + 40 ≤ at }
    requires within { at + len ≤ length text.old }
    requires piece { len ≤ 1048576 }
    ensures len { length text.new ≡ length text.old }
    ensures block { take (to + 40 + len) text.new
        ≡ take to text.old ++ hashed_block index (take len (drop at text.old)) }
    ensures rest { drop (at + len) text.new ≡ drop (at + len) text.old }
{
    let head = hashed_head(index, &text[at..at + len]);
    text.copy_within(at..at + len, to + HEAD);
    text[to..to + HEAD].copy_from_slice(&head);
}

// Puts the text of this length at the end into hashed blocks from an offset on, up to the end.
fn split_from(text: &mut [u8], from: usize, len: usize)
    requires limit { len ≤ 2 ^ 38 }
    requires room { length text.old ≡ from + hashed_heads_len len + len }
    ensures len { length text.new ≡ length text.old }
    ensures blocks { text.new ≡ take from text.old
        ++ hashed_to_end 0 (pieces (drop (from + hashed_heads_len len) text.old)) }
{
    let end = text.len();
    let mut to = from;
    let mut at = end - len;
    let mut index = 0;
    'pieces: while at < end {
        let piece = PIECE.min(end - at);
        move_to_block(text, to, at, piece, index);
        to += HEAD + piece;
        at += piece;
        index += 1;
    }
    move_to_block(text, to, end, 0, index);
}

/// Puts the text of this length at the end of a secret into hashed blocks where it is. They begin at
/// an offset, where there are as many bytes before the text as the heads take, and fill the secret
/// to its end.
///
/// `join_hashed` of `mac_core` gives the text back. Takes no memory.
pub fn split_hashed(payload: &mut Secret, from: usize, len: usize)
    requires limit { len ≤ 2 ^ 38 }
    requires room { length payload.old.bytes ≡ from + hashed_heads_len len + len }
    ensures blocks { payload.new.bytes ≡ take from payload.old.bytes
        ++ hashed_to_end 0 (pieces (drop (from + hashed_heads_len len) payload.old.bytes)) }
    ensures spare { payload.new.spare ≡ payload.old.spare }
{
    split_from(payload.lend_mut(), from, len);
}
