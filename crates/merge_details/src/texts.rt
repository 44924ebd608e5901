//! Texts that grow in memory that is wiped.
ghost use Rattle.std.specs.Prelude.{◌≡◌, ◌+◌, ◌≤◌, ◌++◌, length, IfOk, OnErr, OnOk};

use outside_core::NoMemory;
use secret_core::Secret;
use std::alloc::Global;

// How much room a full text gets for more bytes: twice as much as it has, or what it needs.
fn room_for(len: usize, more: usize) -> Result<usize, NoMemory>
    ensures { IfOk result (λ room. len + more ≤ room) }
{
    let Some(needed) = len.checked_add(more) else {
        return Err(NoMemory);
    };
    Ok(needed.max(len.saturating_mul(2)))
}

// A text with room for more bytes.
fn with_more_room(alloc: Global, text: &Secret, more: usize) -> Result<Secret, NoMemory>
    ensures bytes { IfOk result (λ roomy. roomy.bytes ≡ text.now.bytes) }
    ensures spare { IfOk result (λ roomy. more ≤ roomy.spare) }
{
    let mut roomy = Secret::with_room(alloc, room_for(text.len(), more)?)?;
    roomy.extend(text.lend(0, text.len()));
    Ok(roomy)
}

/// Puts a piece after a text, whose memory grows where it must. The only refusal is that memory ran
/// out, and it leaves the text as it was.
pub fn append(alloc: Global, text: &mut Secret, piece: &[u8]) -> Result<(), NoMemory>
    ensures put { OnOk result (text.new.bytes ≡ text.old.bytes ++ piece.now) }
    ensures kept { OnErr result (text.new.bytes ≡ text.old.bytes) }
{
    if piece.len() > text.spare() {
        *text = with_more_room(alloc, text, piece.len())?;
    }
    text.extend(piece);
    Ok(())
}
