//! Blocks of a KDBX 4 file that are found to be right side by side, before they are read.

ghost use Rattle.std.specs.Prelude.{◌≡◌, ℕ, ◌+◌, ◌*◌, ◌<◌, ◌≤◌, ◌^◌, ◌↔◌, ◌++◌, IsTrue, length, take, drop};
ghost use Rattle.std.specs.Int.{w32, to_le_bytes};
ghost use Rattle.mac_core.specs.Blocks.{size_in};
ghost use Rattle.mac_core.specs.RightBlocks.{AreRight};

use crate::four_macs::{FIRST, four_macs};
use crate::head::{HEAD, head_of, size_of};
use crate::state::is_same;

/// The size that the head gives with which these bytes begin.
pub fn size_at_start(bytes: &[u8]) -> u32
    requires { 36 ≤ length bytes.now }
    ensures { result ≡ size_in bytes.now }
{
    u32::from_le_bytes([bytes[32], bytes[33], bytes[34], bytes[35]])
}

// Whether the head at an offset gives this size.
fn has_size(bytes: &[u8], at: usize, len: usize) -> bool
    requires { at + 36 ≤ length bytes.now }
{
    size_at_start(&bytes[at..at + HEAD]) as usize == len
}

/// The length of the content of each of four blocks with which these bytes begin by their heads, if
/// there are four of one length, and it is one that is worth it; else 0.
fn four_len(bytes: &[u8]) -> usize
    ensures size { 0 < result → result ≡ size_in bytes.now }
    ensures long { 0 < result → 52 ≤ result }
    ensures short { result < 2 ^ 32 }
    ensures within { 0 < result → 4 * (36 + result) ≤ length bytes.now }
{
    if bytes.len() < HEAD {
        return 0;
    }
    let len = size_at_start(bytes) as usize;
    if len < FIRST || bytes.len() / 4 < HEAD + len {
        return 0;
    }
    let step = HEAD + len;
    if has_size(bytes, step, len)
        && has_size(bytes, 2 * step, len)
        && has_size(bytes, 3 * step, len)
    {
        return len;
    }
    0
}

// Whether the head at an offset has this MAC and this size.
fn has_head(bytes: &[u8], at: usize, mac: &[u8; 32], size: u32) -> bool
    requires { at + 36 ≤ length bytes.now }
    ensures { IsTrue result ↔ (take 36 (drop at bytes.now) ≡ mac.now ++ to_le_bytes w32 size) }
{
    is_same(&bytes[at..at + HEAD], &head_of(mac, size))
}

/// How many blocks, the first of them being block `index`, these bytes begin with that are right
/// and have contents: four, where four of one length are found to be so side by side, or 0.
pub fn right_ahead(base: &[u8; 64], index: u64, bytes: &[u8]) -> u64
    requires { index < 2 ^ 63 }
    ensures { AreRight base.now result index bytes.now }
{
    let len = four_len(bytes);
    if len == 0 {
        return 0;
    }
    let step = HEAD + len;
    let macs = four_macs(
        base,
        index,
        &bytes[HEAD..step],
        &bytes[step + HEAD..2 * step],
        &bytes[2 * step + HEAD..3 * step],
        &bytes[3 * step + HEAD..4 * step],
    );
    let size = len as u32;
    if has_head(bytes, 0, &macs[0], size)
        && has_head(bytes, step, &macs[1], size)
        && has_head(bytes, 2 * step, &macs[2], size)
        && has_head(bytes, 3 * step, &macs[3], size)
    {
        return 4;
    }
    0
}
