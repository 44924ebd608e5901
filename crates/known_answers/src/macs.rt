//! HMAC, and the authenticated blocks of a KDBX 4 file.

ghost use Rattle.std.specs.Prelude.{◌≡◌, ℕ, ◌+◌, ◌<◌, ◌≤◌, ◌^◌, length};

use crate::question::{Fault, NO_MEMORY, Question};
use mac_core::{BlockFail, BlockReader, BlockWriter, Hmac256};
use secret_core::{Key64, Secret};
use std::alloc::Global;

/// A damaged file is not refused as it must be.
const NOT_REFUSED: Fault = Fault::Because("not refused");

/// The offset of the first block in the file that is read.
const OFFSET: u64 = 1000;

/// The most places at which a file is cut.
const CUTS: usize = 153;

/// The most words of a question about blocks.
const WORDS: usize = 1000;

/// The lengths of the pieces that a reader is fed with.
const SIZES: [usize; 3] = [1, 7, 4096];

/// The MAC of a text: key, text. By pieces of seven bytes it must be the same.
pub fn hmac(alloc: Global, question: &Question<'_>) -> Result<String, Fault> {
    let key = question.bytes(alloc, 1)?;
    let text = question.bytes(alloc, 2)?;
    let mut whole = Hmac256::new(&key);
    whole.update(&text);
    let mac = whole.finish();
    let mut by_pieces = Hmac256::new(&key);
    for piece in text.chunks(7) {
        by_pieces.update(piece);
    }
    if by_pieces.finish() != mac {
        return Err(Fault::NotTheSameCut(7));
    }
    Ok(hex::encode(alloc, &mac)?)
}

/// The heads of blocks with these contents and of the end block: MAC base, contents. The file of
/// the blocks must be read as the contents, however it is cut, and refused where its last MAC is
/// damaged.
pub fn blocks(alloc: Global, question: &Question<'_>) -> Result<String, Fault> {
    let mut base = Key64::of(&question.array(1)?);
    let answer = written_and_read(alloc, &base, question);
    base.clear();
    base.release();
    answer
}

// The heads under this base; the blocks are read again.
fn written_and_read(alloc: Global, base: &Key64, question: &Question<'_>) -> Result<String, Fault> {
    let mut file = File {
        bytes: Vec::new(alloc),
        heads: Vec::new(alloc),
        contents: Vec::new(alloc),
        last: 0,
    };
    write(alloc, base, question, &mut file)?;
    let Ok(mut out) = Secret::with_room(alloc, file.bytes.len().saturating_add(4)) else {
        return Err(NO_MEMORY);
    };
    read_at_cuts(base, &file, &mut out)?;
    read_damaged(base, &mut file, &mut out)?;
    Ok(hex::encode(alloc, file.heads.as_slice())?)
}

// A file of blocks, and what it is made of.
#[derive(Drop)]
struct File {
    bytes: Vec<u8>,
    heads: Vec<u8>,
    contents: Vec<u8>,
    // the index of the last block
    last: u64,
}

impl File {
    // Puts a block at the end.
    fn add(&mut self, head: &[u8; 36], content: &[u8]) -> Result<(), Fault> {
        put(&mut self.bytes, head)?;
        put(&mut self.bytes, content)?;
        put(&mut self.heads, head)?;
        put(&mut self.contents, content)
    }
}

// Adds bytes, of which nothing is promised, so that what is proved of its caller stays short.
fn put(out: &mut Vec<u8>, bytes: &[u8]) -> Result<(), Fault> {
    Ok(out.extend_from_slice(bytes)?)
}

// Writes the blocks of a question, and the end block.
fn write(
    alloc: Global,
    base: &Key64,
    question: &Question<'_>,
    file: &mut File,
) -> Result<(), Fault> {
    let end = question.len();
    if end > WORDS {
        return Err(Fault::BadWord(WORDS));
    }
    let mut writer = BlockWriter::new(base);
    'contents: for index in 2..end {
        let content = question.bytes(alloc, index)?;
        let head = writer.head(&content);
        file.add(&head, &content)?;
        file.last = index as u64 - 1;
    }
    let head = writer.head(b"");
    file.add(&head, b"")
}

// Feeds a reader by pieces of this size: what it answers to the last one. Nothing where it answers
// otherwise than with false to one before, or the output is full.
fn fed(
    reader: &mut BlockReader<'_>,
    bytes: &[u8],
    size: usize,
    out: &mut Secret,
) -> Option<Result<bool, BlockFail>>
    requires size { 0 < size }
    requires offset { reader.old.place + length bytes.now < 2 ^ 64 }
    ensures { reader.new.place ≤ reader.old.place + length bytes.now }
{
    let mut rest = bytes;
    'pieces: while rest.len() > size {
        let (piece, more) = rest.split_at(size);
        if piece.len() > out.spare() {
            return None;
        }
        if reader.feed(piece, out) != Ok(false) {
            return None;
        }
        rest = more;
    }
    if rest.len() > out.spare() {
        return None;
    }
    Some(reader.feed(rest, out))
}

// Whether a file that is cut here is read as these contents by pieces of this size: it is
// unfinished at the cut, and whole at its end and with more bytes after it.
fn is_read(base: &Key64, file: &File, cut: usize, size: usize, out: &mut Secret) -> bool
    requires size { 0 < size }
{
    if cut > file.bytes.len() || file.bytes.len() > 1_000_000 {
        return false;
    }
    let (front, back) = file.bytes.split_at(cut);
    out.cut(0);
    let mut reader = BlockReader::new(base, OFFSET);
    fed(&mut reader, front, size, out) == Some(Ok(false))
        && reader.end() == Err(BlockFail::Truncated(OFFSET + cut as u64))
        && fed(&mut reader, back, size, out) == Some(Ok(true))
        && fed(&mut reader, b"more", 4, out) == Some(Ok(true))
        && reader.end() == Ok(())
        && out.lend(0, out.len()) == file.contents.as_slice()
}

// Reads a file that is cut at each of its first places, and whole by pieces of each size.
fn read_at_cuts(base: &Key64, file: &File, out: &mut Secret) -> Result<(), Fault> {
    for size in SIZES {
        if !is_read(base, file, 0, size, out) {
            return Err(Fault::NotTheSameCut(size));
        }
    }
    for cut in 0..file.bytes.len().min(CUTS) {
        if !is_read(base, file, cut, SIZES[cut % 3], out) {
            return Err(Fault::NotTheSameCut(cut));
        }
    }
    Ok(())
}

// Damages the MAC of the last block of a file, which must then be refused, by pieces of each size
// and for ever.
fn read_damaged(base: &Key64, file: &mut File, out: &mut Secret) -> Result<(), Fault> {
    let len = file.bytes.len();
    if len < 36 || len > 1_000_000 {
        return Err(NOT_REFUSED);
    }
    file.bytes[len - 32] ^= 4;
    for size in SIZES {
        if !is_refused(base, file, size, out) {
            return Err(NOT_REFUSED);
        }
    }
    Ok(())
}

// Whether a file is refused for the MAC of its last block by pieces of this size, and then with
// more bytes too.
fn is_refused(base: &Key64, file: &File, size: usize, out: &mut Secret) -> bool
    requires { 0 < size }
{
    let len = file.bytes.len();
    if len > 1_000_000 {
        return false;
    }
    let refused = Some(Err(BlockFail::BlockMac(file.last)));
    out.cut(0);
    let mut reader = BlockReader::new(base, OFFSET);
    fed(&mut reader, &file.bytes, size, out) == refused
        && fed(&mut reader, b"more", 4, out) == refused
        && reader.end() == Err(BlockFail::Truncated(OFFSET + len as u64 + 4))
}
