//! Deciphering eight blocks at once, in slices of bits (FIPS 197, section 5.3).
ghost use Rattle.std.specs.Prelude.{◌≡◌, ◌<◌, ℕ, [], slice_index_or};
ghost use Rattle.aes_slices.specs.Slices.{block};
ghost use Rattle.block_core.specs.Aes.{add_round_key, inv_sub_bytes, inv_shift_rows, inv_mix_columns, inv_cipher};
ghost use Rattle.block_core.specs.AesKeys.{AreSliced};

use super::schedule::RoundKeys;
use aes_slices::{Slices, inv_mix_columns, inv_shift_rows, inv_sub_bytes, pack, sum, unpack};

/// AddRoundKey.
#[inline(always)]
fn add_round_key(s: Slices, key: Slices) -> Slices
    ensures { (j : ℕ) → j < 8 → block result j ≡ add_round_key (block s j) (block key j) }
{
    sum(s, key)
}

/// InvShiftRows and InvSubBytes.
#[inline(always)]
fn inv_shift_and_sub(s: Slices) -> Slices
    ensures { (j : ℕ) → j < 8 → block result j ≡ inv_sub_bytes (inv_shift_rows (block s j)) }
{
    inv_sub_bytes(inv_shift_rows(s))
}

/// InvMixColumns.
#[inline(always)]
fn mix_back(s: Slices) -> Slices
    ensures { (j : ℕ) → j < 8 → block result j ≡ inv_mix_columns (block s j) }
{
    inv_mix_columns(s)
}

/// InvCipher, with the key schedule (FIPS 197, 5.3), of eight blocks.
#[inline(never)]
pub fn decipher_eight(keys: &RoundKeys, blocks: [[u8; 16]; 8]) -> [[u8; 16]; 8]
    requires { AreSliced keys.now.sliced keys.now.bytes }
    ensures { (j : ℕ) → j < 8
        → slice_index_or result j [] ≡ inv_cipher keys.now.bytes (slice_index_or blocks j []) }
{
    let mut s = add_round_key(pack(blocks), keys.round_slices(14));
    'inverse: for i in 0..13usize {
        s = mix_back(add_round_key(inv_shift_and_sub(s), keys.round_slices(13 - i)));
    }
    unpack(add_round_key(inv_shift_and_sub(s), keys.round_slices(0)))
}
