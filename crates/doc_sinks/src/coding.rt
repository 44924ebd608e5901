//! Bytes in base64, and bytes that a stream hides, put into secret memory group by group: what is
//! clear is in no other memory.

ghost use Rattle.std.specs.Prelude.{◌≡◌, ◌+◌, ◌-◌, ◌^◌, ◌≤◌, ◌++◌, length, min};
ghost use Rattle.doc_sinks.specs.Chunks.{base64};
ghost use Rattle.doc_sinks.specs.Sinks as sink;
ghost use Rattle.doc_spelling.specs.Pieces.{hidden_text};
ghost use Rattle.stream_core.specs.InnerStream.{IsAt, keystream};

use base64::encoded_len;
use base64::engine::general_purpose::STANDARD;
use secret_core::Secret;
use stream_core::InnerStream;

/// How many bytes are written in base64 at once: a multiple of 3, so that no padding comes before
/// the end.
const GROUP: usize = 48;

/// How many bytes base64 takes, where that passes the last `usize` that number.
pub(crate) fn coded_len(bytes: usize) -> usize
    ensures { result ≡ min (sink.coded_len bytes) usize.MAX }
{
    match encoded_len(bytes, true) {
        Some(len) => len,
        None => usize::MAX,
    }
}

/// Puts at most 48 bytes in base64.
fn put_group(text: &mut Secret, bytes: &[u8])
    requires few { length bytes.now ≤ 48 }
    requires room { sink.coded_len (length bytes.now) ≤ text.old.spare }
    ensures bytes { text.new.bytes ≡ text.old.bytes ++ base64 bytes.now }
    ensures spare { text.new.spare ≡ text.old.spare - sink.coded_len (length bytes.now) }
{
    let mut buffer = [0; 64];
    let len = match STANDARD.encode_slice(bytes, &mut buffer) {
        Ok(len) => len,
        Err(_) => 0,
    };
    text.extend(&buffer[..len]);
}

/// Puts bytes in base64.
pub(crate) fn put_base64(text: &mut Secret, bytes: &[u8])
    requires { sink.coded_len (length bytes.now) ≤ text.old.spare }
    ensures bytes { text.new.bytes ≡ text.old.bytes ++ base64 bytes.now }
    ensures spare { text.new.spare ≡ text.old.spare - sink.coded_len (length bytes.now) }
{
    let mut rest = bytes;
    while !rest.is_empty() {
        let (group, more) = rest.split_at(rest.len().min(GROUP));
        put_group(text, group);
        rest = more;
    }
}

/// Hides at most 48 bytes, and puts them in base64.
fn hide_group(stream: &mut InnerStream, offset: u64, text: &mut Secret, bytes: &[u8])
    requires few { length bytes.now ≤ 48 }
    requires at { IsAt stream.old offset }
    requires left { offset + length bytes.now ≤ 2 ^ 38 }
    requires room { sink.coded_len (length bytes.now) ≤ text.old.spare }
    ensures bytes { text.new.bytes
        ≡ text.old.bytes ++ hidden_text (keystream stream.old) offset bytes.now }
    ensures spare { text.new.spare ≡ text.old.spare - sink.coded_len (length bytes.now) }
    ensures keystream { keystream stream.new ≡ keystream stream.old }
    ensures at { IsAt stream.new (offset + length bytes.now) }
{
    let mut buffer = [0; 48];
    let clear = &mut buffer[..bytes.len()];
    clear.copy_from_slice(bytes);
    stream.apply(clear);
    put_group(text, clear);
}

/// Hides bytes, and puts them in base64.
pub(crate) fn hide(stream: &mut InnerStream, offset: u64, text: &mut Secret, bytes: &[u8])
    requires at { IsAt stream.old offset }
    requires left { offset + length bytes.now ≤ 2 ^ 38 }
    requires room { sink.coded_len (length bytes.now) ≤ text.old.spare }
    ensures bytes { text.new.bytes
        ≡ text.old.bytes ++ hidden_text (keystream stream.old) offset bytes.now }
    ensures spare { text.new.spare ≡ text.old.spare - sink.coded_len (length bytes.now) }
    ensures keystream { keystream stream.new ≡ keystream stream.old }
    ensures at { IsAt stream.new (offset + length bytes.now) }
{
    let mut rest = bytes;
    let mut at = offset;
    while !rest.is_empty() {
        let (group, more) = rest.split_at(rest.len().min(GROUP));
        hide_group(stream, at, text, group);
        at += group.len() as u64;
        rest = more;
    }
}
