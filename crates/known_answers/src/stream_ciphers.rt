//! Stream ciphers, and the inner stream of a KDBX file.

ghost use Rattle.std.specs.Prelude.{◌≡◌, ◌+◌, ◌≤◌, ◌^◌, length};
ghost use Rattle.stream_core.specs.InnerStream.{IsAt};

use crate::question::{Fault, Question};
use crate::refusals::numbered;
use std::alloc::Global;
use stream_core::{ChaCha20, InnerStream, Salsa20, StreamUnknown};

/// The lengths of the pieces in which a text is enciphered; the last piece is what is left.
const PIECES: [usize; 8] = [1, 7, 63, 64, 65, 0, 33, 128];

// XORs a text with the next bytes of a stream, whose offset this is.
fn apply_at(stream: &mut InnerStream, offset: usize, text: &mut [u8])
    requires at { IsAt stream.old offset }
    requires few { offset + length text.old ≤ 2 ^ 38 }
    ensures { IsAt stream.new (offset + length text.old) }
{
    stream.apply(text);
}

// The same in pieces.
fn apply_in_pieces(stream: &mut InnerStream, offset: usize, text: &mut [u8])
    requires at { IsAt stream.old offset }
    requires few { offset + length text.old ≤ 2 ^ 37 }
{
    let mut from = 0;
    'pieces: for len in PIECES {
        let to = from + len.min(text.len() - from);
        apply_at(stream, offset + from, &mut text[from..to]);
        from = to;
    }
    apply_at(stream, offset + from, &mut text[from..]);
}

// A text enciphered by a stream, of which so many bytes are passed over: the number is the word of
// this index, and the text the next one. In pieces under a second stream it must be enciphered as
// the same.
fn enciphered(
    alloc: Global,
    question: &Question<'_>,
    index: usize,
    mut whole: InnerStream,
    mut cut: InnerStream,
) -> Result<String, Fault>
    requires index { index ≤ 100 }
    requires whole { IsAt whole 0 }
    requires cut { IsAt cut 0 }
{
    let skip = question.short_number(index)? as usize;
    let mut text = question.bytes(alloc, index + 1)?;
    let mut again = text.clone()?;
    let mut skipped = vec![in alloc; 0; skip]?;
    apply_at(&mut whole, 0, &mut skipped);
    apply_at(&mut whole, skip, &mut text);
    apply_at(&mut cut, 0, &mut skipped);
    apply_in_pieces(&mut cut, skip, &mut again);
    if text != again {
        return Err(Fault::NotTheSameCut(skip));
    }
    Ok(hex::encode(alloc, text.as_slice())?)
}

/// A text under ChaCha20: key, nonce, bytes of the stream that are passed over, text.
pub fn chacha20(alloc: Global, question: &Question<'_>) -> Result<String, Fault> {
    let key: [u8; 32] = question.array(1)?;
    let nonce: [u8; 12] = question.array(2)?;
    let whole = InnerStream::ChaCha(ChaCha20::new(&key, &nonce));
    let cut = InnerStream::ChaCha(ChaCha20::new(&key, &nonce));
    enciphered(alloc, question, 3, whole, cut)
}

/// A text under Salsa20: key, nonce, bytes of the stream that are passed over, text.
pub fn salsa20(alloc: Global, question: &Question<'_>) -> Result<String, Fault> {
    let key: [u8; 32] = question.array(1)?;
    let nonce: [u8; 8] = question.array(2)?;
    let whole = InnerStream::Salsa(Salsa20::new(&key, &nonce));
    let cut = InnerStream::Salsa(Salsa20::new(&key, &nonce));
    enciphered(alloc, question, 3, whole, cut)
}

/// A text under an inner stream: the stream's number, or `clear`, stream key, bytes that are passed
/// over, text.
pub fn inner_stream(alloc: Global, question: &Question<'_>) -> Result<String, Fault> {
    if question.word(1) == "clear" {
        return enciphered(alloc, question, 3, InnerStream::Clear, InnerStream::Clear);
    }
    let id = question.short_number(1)?;
    let key = question.bytes(alloc, 2)?;
    match (InnerStream::new(id, &key), InnerStream::new(id, &key)) {
        (Ok(whole), Ok(cut)) => enciphered(alloc, question, 3, whole, cut),
        (Err(StreamUnknown(number)), _) | (_, Err(StreamUnknown(number))) => {
            numbered(alloc, "StreamUnknown", u64::from(number))
        }
    }
}
