//! The blocks of a content, appended to a draft.

ghost use Rattle.std.specs.Prelude.{◌≡◌, ◌+◌, ◌-◌, ◌<◌, ◌≤◌, ◌^◌, ◌++◌, [], IfOk, IfSome, IsSome, IsErrOf, OnOk, length, take, drop};
ghost use Rattle.mac_core.specs.Blocks.{block};
ghost use Rattle.outside_core.specs.Counts.{HasCause};
ghost use Rattle.outside_core.specs.Reports.{StaysTruthful};
ghost use Rattle.kdbx_blocks.specs.Appending.{AreNext, GoesOn, IsStep, headed};
ghost use Rattle.kdbx_blocks.specs.Pieces.{blocks_to_end, pieces};

use mac_core::BlockWriter;
use outside_core::{FileFail, FileStore};
use secret_core::Key64;

/// How many bytes of a content a block has; the last may have fewer.
pub const PIECE: usize = 1_048_576;

/// How many bytes four pieces have.
const FOUR: usize = 4 * PIECE;

// The first piece of a content, and the bytes after it.
fn split_piece(left: &[u8]) -> (&[u8], &[u8])
    ensures piece { result.0.now ≡ take 1048576 left.now }
    ensures rest { result.1.now ≡ drop 1048576 left.now }
    ensures len { length result.0.now ≤ 1048576 }
{
    if left.len() < PIECE {
        (left, &[])
    } else {
        left.split_at(PIECE)
    }
}

// Appends a block: its head, and its content.
fn append_headed<F: FileStore>(files: &mut F, head: &[u8; 36], piece: &[u8]) -> Result<(), FileFail>
    requires { IsSome (F.draft_name files.old) }
    ensures bytes { OnOk result (IfSome (F.files files.old) (λ _. F.draft_bytes files.new
        ≡ F.draft_bytes files.old ++ (head.now ++ piece.now))) }
    ensures name { F.draft_name files.new ≡ F.draft_name files.old }
    ensures files { F.files files.new ≡ F.files files.old }
    ensures not_missing { ¬ IsErrOf result FileFail.NoSuchFile }
    ensures faults { HasCause FileFail.Failed (F.faults files.old) (F.faults files.new) result }
    ensures truthful { StaysTruthful (F.truthful files.old) (F.truthful files.new) }
    ensures absences { F.absences files.old ≤ F.absences files.new }
{
    files.append(head)?;
    files.append(piece)
}

// Appends the next block, which has this content.
fn append_block<F: FileStore>(
    files: &mut F,
    writer: &mut BlockWriter,
    piece: &[u8],
) -> Result<(), FileFail>
    requires draft { IsSome (F.draft_name files.old) }
    requires length { length piece.now ≤ 1048576 }
    requires index { writer.old.index < 2 ^ 64 - 1 }
    ensures base { writer.new.base ≡ writer.old.base }
    ensures index { writer.new.index ≡ writer.old.index + 1 }
    ensures bytes { OnOk result (IfSome (F.files files.old) (λ _. F.draft_bytes files.new
        ≡ F.draft_bytes files.old ++ block writer.old.base writer.old.index piece.now)) }
    ensures name { F.draft_name files.new ≡ F.draft_name files.old }
    ensures files { F.files files.new ≡ F.files files.old }
    ensures not_missing { ¬ IsErrOf result FileFail.NoSuchFile }
    ensures faults { HasCause FileFail.Failed (F.faults files.old) (F.faults files.new) result }
    ensures truthful { StaysTruthful (F.truthful files.old) (F.truthful files.new) }
    ensures absences { F.absences files.old ≤ F.absences files.new }
{
    let head = writer.head(piece);
    append_headed(files, &head, piece)
}

// The heads of the next four blocks, which have the first four pieces of what is left. Their MACs are
// computed side by side.
fn four_heads(writer: &mut BlockWriter, left: &[u8]) -> [[u8; 36]; 4]
    requires length { 4194304 ≤ length left.now }
    requires index { writer.old.index < 2 ^ 64 - 4 }
    ensures base { writer.new.base ≡ writer.old.base }
    ensures index { writer.new.index ≡ writer.old.index + 4 }
    ensures blocks { AreNext writer.old.base writer.old.index left.now
        (headed 4 0 result left.now) writer.new.index (drop 4194304 left.now) }
{
    let (a, rest) = split_piece(left);
    let (b, rest) = split_piece(rest);
    let (c, rest) = split_piece(rest);
    let (d, _) = split_piece(rest);
    writer.four_heads(a, b, c, d)
}

// Appends four blocks that have these heads and the first four pieces of what is left.
fn append_pieces<F: FileStore>(
    files: &mut F,
    heads: &[[u8; 36]; 4],
    left: &[u8],
) -> Result<(), FileFail>
    requires { IsSome (F.draft_name files.old) }
    ensures bytes { OnOk result (IfSome (F.files files.old) (λ _. F.draft_bytes files.new
        ≡ F.draft_bytes files.old ++ headed 4 0 heads.now left.now)) }
    ensures name { F.draft_name files.new ≡ F.draft_name files.old }
    ensures files { F.files files.new ≡ F.files files.old }
    ensures not_missing { ¬ IsErrOf result FileFail.NoSuchFile }
    ensures faults { HasCause FileFail.Failed (F.faults files.old) (F.faults files.new) result }
    ensures truthful { StaysTruthful (F.truthful files.old) (F.truthful files.new) }
    ensures absences { F.absences files.old ≤ F.absences files.new }
{
    let mut left = left;
    'heads: for index in 0..4 {
        let (piece, rest) = split_piece(left);
        append_headed(files, &heads[index], piece)?;
        left = rest;
    }
    Ok(())
}

// Appends the next four blocks, which have the first four pieces of what is left.
fn append_four<F: FileStore>(
    files: &mut F,
    writer: &mut BlockWriter,
    left: &[u8],
) -> Result<(), FileFail>
    requires draft { IsSome (F.draft_name files.old) }
    requires length { 4194304 ≤ length left.now }
    requires index { writer.old.index < 2 ^ 64 - 4 }
    ensures base { writer.new.base ≡ writer.old.base }
    ensures index { writer.new.index ≡ writer.old.index + 4 }
    ensures bytes { OnOk result (IfSome (F.files files.old) (λ _. GoesOn writer.old.base
        (F.draft_bytes files.old) writer.old.index left.now
        (F.draft_bytes files.new) writer.new.index (drop 4194304 left.now))) }
    ensures name { F.draft_name files.new ≡ F.draft_name files.old }
    ensures files { F.files files.new ≡ F.files files.old }
    ensures not_missing { ¬ IsErrOf result FileFail.NoSuchFile }
    ensures faults { HasCause FileFail.Failed (F.faults files.old) (F.faults files.new) result }
    ensures truthful { StaysTruthful (F.truthful files.old) (F.truthful files.new) }
    ensures absences { F.absences files.old ≤ F.absences files.new }
{
    let heads = four_heads(writer, left);
    append_pieces(files, &heads, left)
}

// Appends the blocks of the next pieces of what is left: of four where there are four whole ones,
// else of one. Gives how many bytes they have.
fn append_next<F: FileStore>(
    files: &mut F,
    writer: &mut BlockWriter,
    left: &[u8],
) -> Result<usize, FileFail>
    requires draft { IsSome (F.draft_name files.old) }
    requires some { 0 < length left.now }
    requires index { writer.old.index < 2 ^ 64 - 4 }
    ensures base { writer.new.base ≡ writer.old.base }
    ensures step { IfOk result (λ n. IsStep writer.old.index writer.new.index n (length left.now)) }
    ensures bytes { IfOk result (λ n. IfSome (F.files files.old) (λ _. GoesOn writer.old.base
        (F.draft_bytes files.old) writer.old.index left.now
        (F.draft_bytes files.new) writer.new.index (drop n left.now))) }
    ensures name { F.draft_name files.new ≡ F.draft_name files.old }
    ensures files { F.files files.new ≡ F.files files.old }
    ensures not_missing { ¬ IsErrOf result FileFail.NoSuchFile }
    ensures faults { HasCause FileFail.Failed (F.faults files.old) (F.faults files.new) result }
    ensures truthful { StaysTruthful (F.truthful files.old) (F.truthful files.new) }
    ensures absences { F.absences files.old ≤ F.absences files.new }
{
    if left.len() < FOUR {
        let (piece, _) = split_piece(left);
        append_block(files, writer, piece)?;
        return Ok(piece.len());
    }
    append_four(files, writer, left)?;
    Ok(FOUR)
}

/// Appends a content in blocks and the end block to the draft, under the file's MAC base.
pub fn append_blocks<F: FileStore>(
    files: &mut F,
    base: &Key64,
    content: &[u8],
) -> Result<(), FileFail>
    requires draft { IsSome (F.draft_name files.old) }
    ensures bytes { OnOk result (IfSome (F.files files.old) (λ _. F.draft_bytes files.new
        ≡ F.draft_bytes files.old ++ blocks_to_end base.now 0 (pieces content.now))) }
    ensures name { F.draft_name files.new ≡ F.draft_name files.old }
    ensures files { F.files files.new ≡ F.files files.old }
    ensures not_missing { ¬ IsErrOf result FileFail.NoSuchFile }
    ensures faults { HasCause FileFail.Failed (F.faults files.old) (F.faults files.new) result }
    ensures truthful { StaysTruthful (F.truthful files.old) (F.truthful files.new) }
    ensures absences { F.absences files.old ≤ F.absences files.new }
{
    let mut writer = BlockWriter::new(base);
    let mut at = 0;
    'pieces: while at < content.len() {
        at += append_next(files, &mut writer, &content[at..])?;
    }
    append_block(files, &mut writer, &[])
}
