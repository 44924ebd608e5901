//! The parts of a file.

ghost use Rattle.std.specs.Prelude.{◌≡◌, ◌+◌, ◌*◌, ◌≤◌, ◌%◌, IfOk, IfSome, bytes_eq, length, slice_range, take};
ghost use Rattle.std.specs.Int.{w32, from_le_bytes};
ghost use Rattle.std.specs.List.{position};
ghost use Rattle.psafe_file.specs.Results.{Returns};
ghost use Rattle.psafe_file.specs.SafeFiles.{blocks_before_mark, end_mark, marked_file, preamble_of, safe_file, tag};
ghost use Rattle.psafe_file.specs.Seen.{file_seen, preamble_seen};

use crate::PsafeFail;

/// The four bytes that a file begins with.
const TAG: [u8; 4] = *b"PWS3";

/// The block that marks the end of the blocks.
const END_MARK: [u8; 16] = *b"PWS3-EOFPWS3-EOF";

/// The length of a block in bytes.
const BLOCK: usize = 16;

/// The length of what is before the blocks, in bytes.
const PREAMBLE: usize = 152;

/// The length of the mark and of the MAC after it, in bytes.
const MARK_AND_MAC: usize = 48;

/// What a file has before its blocks.
#[derive(Drop)]
pub(crate) struct Preamble<'a> {
    /// The salt, 32 bytes.
    pub(crate) salt: &'a [u8],
    /// How often the key is hashed again.
    pub(crate) iterations: u32,
    /// The hash of the stretched key.
    pub(crate) check: [u8; 32],
    /// The key of the blocks, in two blocks that are enciphered under the stretched key.
    pub(crate) enciphered_block_key: [u8; 32],
    /// The key of the MAC, in two such blocks.
    pub(crate) enciphered_mac_key: [u8; 32],
    /// The initialization vector of the blocks.
    pub(crate) iv: [u8; 16],
}

/// A file by its parts.
#[derive(Drop)]
pub(crate) struct SafeFile<'a> {
    /// What is before the blocks.
    pub(crate) preamble: Preamble<'a>,
    /// The enciphered blocks, without the mark of their end.
    pub(crate) blocks: &'a [u8],
    /// The MAC.
    pub(crate) mac: [u8; 32],
}

// The bytes from a place on, as an array.
fn array_at<const N: usize>(bytes: &[u8], at: usize) -> [u8; N]
    requires { at + N ≤ length bytes.now }
    ensures { result ≡ slice_range bytes.now at (at + N) }
{
    let mut array = [0; N];
    array.copy_from_slice(&bytes[at..at + N]);
    array
}

// What is before the blocks of a file.
fn preamble_of(bytes: &[u8]) -> Preamble<'_>
    requires { 152 ≤ length bytes.now }
    ensures { preamble_seen result ≡ preamble_of bytes.now }
{
    Preamble {
        salt: &bytes[4..36],
        iterations: u32::from_le_bytes(array_at(bytes, 36)),
        check: array_at(bytes, 40),
        enciphered_block_key: array_at(bytes, 72),
        enciphered_mac_key: array_at(bytes, 104),
        iv: array_at(bytes, 136),
    }
}

// Whether a block marks the end of the blocks.
fn is_end_mark(block: &[u8; 16]) -> bool
    ensures { result ≡ bytes_eq block.now end_mark }
{
    *block == END_MARK
}

// The place of the first block that marks the end.
fn end_mark_in(blocks: &[[u8; 16]]) -> Option<usize>
    ensures { result ≡ position (λ block. bytes_eq block end_mark) blocks.now }
{
    blocks.iter().position(|block| is_end_mark(block))
}

// How many blocks are before the first that is the mark.
fn blocks_before_mark(bytes: &[u8]) -> Option<usize>
    ensures is { result ≡ blocks_before_mark bytes.now }
    ensures within { IfSome result (λ n. 16 * n + 16 ≤ length bytes.now) }
{
    let (blocks, _part) = bytes.as_chunks::<BLOCK>();
    end_mark_in(blocks)
}

// The parts of a file whose blocks are marked after so many, if they are.
fn marked_file(bytes: &[u8], count: Option<usize>) -> Result<SafeFile<'_>, PsafeFail>
    requires preamble { 152 ≤ length bytes.now }
    requires mark { IfSome count (λ n. 152 + 16 * n + 16 ≤ length bytes.now) }
    ensures gives { Returns file_seen result (marked_file bytes.now count) }
    ensures preamble { IfOk result (λ f. preamble_seen f.preamble ≡ preamble_of bytes.now) }
    ensures whole { IfOk result (λ f. length f.blocks.now % 16 ≡ 0) }
{
    let size = bytes.len();
    let Some(count) = count else {
        return Err(PsafeFail::Truncated(size as u64));
    };
    let end = PREAMBLE + BLOCK * count;
    if size < end + MARK_AND_MAC {
        return Err(PsafeFail::Truncated(size as u64));
    }
    Ok(SafeFile {
        preamble: preamble_of(bytes),
        blocks: &bytes[PREAMBLE..end],
        mac: array_at(bytes, end + BLOCK),
    })
}

// Whether a file begins with the tag.
fn has_tag(bytes: &[u8]) -> bool
    ensures { result ≡ bytes_eq (take 4 bytes.now) tag }
{
    bytes.starts_with(&TAG)
}

/// The parts of a file, of which the bytes after the MAC are none.
///
/// # Errors
///
/// NotPsafe where the file has not the tag, else Truncated where it has not all parts.
#[tactic(auto, unfolding(crate::specs::SafeFiles::safe_file))]
pub(crate) fn safe_file(bytes: &[u8]) -> Result<SafeFile<'_>, PsafeFail>
    ensures gives { Returns file_seen result (safe_file bytes.now) }
    ensures preamble { IfOk result (λ f. preamble_seen f.preamble ≡ preamble_of bytes.now) }
    ensures whole { IfOk result (λ f. length f.blocks.now % 16 ≡ 0) }
{
    if !has_tag(bytes) {
        return Err(PsafeFail::NotPsafe);
    }
    if bytes.len() < PREAMBLE {
        return Err(PsafeFail::Truncated(bytes.len() as u64));
    }
    let (_preamble, rest) = bytes.split_at(PREAMBLE);
    marked_file(bytes, blocks_before_mark(rest))
}
