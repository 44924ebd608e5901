//! The sink that keeps the text.

ghost use Rattle.std.specs.Prelude.{◌≡◌, ◌<◌, ◌≤◌, ◌^◌, length, nat_le};
ghost use Rattle.doc_sinks.specs.Sinks.{TextState, with_chunk};
ghost use Rattle.doc_sinks.specs.StreamOffsets.{is_prop_at};
ghost use Rattle.markup_grammar.specs.Escapes as escapes;
ghost use Rattle.stream_core.specs.InnerStream.{IsAt, keystream};

use crate::coding::{coded_len, hide, put_base64};
use crate::sink::TextSink;
use secret_core::Secret;
use stream_core::InnerStream;
use text_core::{escape_bytes, escaped_bytes_len};

/// How many bytes a stream hides at most.
const STREAM: u64 = 274_877_906_944;

/// Whether a text has room as it is written. It is counted only where there are fewer than six
/// bytes for each of its bytes, which is the most that one takes.
fn has_room(text: &[u8], room: usize) -> bool
    requires { room < 2 ^ 63 }
    ensures { result ≡ nat_le (length (escapes.escaped text.now)) room }
{
    text.len() <= room / 6 || escaped_bytes_len(text) <= room
}

/// The text as far as it was put, the stream that hides bytes of it, and the offset of the stream's
/// next byte. What has no room is left out.
#[derive(Drop)]
pub struct TextFiller {
    pub text: Secret,
    pub stream: InnerStream,
    pub offset: u64,
    pub ghost at: { IsAt stream offset } by { Prim.hlevel is_prop_at },
    pub ghost within: { offset ≤ 2 ^ 38 },
    pub ghost small: { text.spare < 2 ^ 63 },
}

impl TextSink for TextFiller {
    ghost State = { TextState };

    ghost state = { λ f. record {
      bytes = f.text.bytes;
      spare = f.text.spare;
      key = keystream f.stream;
      offset = f.offset;
    } };

    ghost step = { with_chunk };

    #[tactic(auto, unfolding(crate::specs::Sinks::with_chunk))]
    fn put(&mut self, bytes: &[u8]) {
        if bytes.len() <= self.text.spare() {
            self.text.extend(bytes);
        }
    }

    #[tactic(auto, unfolding(crate::specs::Sinks::with_chunk))]
    fn put_escaped(&mut self, text: &[u8]) {
        if has_room(text, self.text.spare()) {
            escape_bytes(text, &mut self.text);
        }
    }

    #[tactic(auto, using(crate::proofs::Base64Groups::coded_length), unfolding(crate::specs::Sinks::with_chunk))]
    fn put_coded(&mut self, bytes: &[u8]) {
        if coded_len(bytes.len()) <= self.text.spare() {
            put_base64(&mut self.text, bytes);
        }
    }

    #[tactic(auto, unfolding(crate::specs::Sinks::with_chunk))]
    fn put_hidden(&mut self, bytes: &[u8]) {
        let len = bytes.len() as u64;
        if coded_len(bytes.len()) <= self.text.spare() && len <= STREAM - self.offset {
            hide(&mut self.stream, self.offset, &mut self.text, bytes);
            self.offset += len;
        }
    }
}
