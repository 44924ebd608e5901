//! The sink that counts.

ghost use Rattle.std.specs.Prelude.{ℕ};
ghost use Rattle.doc_sinks.specs.Sinks.{count_with};

use crate::coding::coded_len;
use crate::sink::TextSink;
use text_core::escaped_bytes_len;

/// How many bytes were put; the last number is given for every larger one.
#[derive(Drop)]
pub struct TextCounter {
    pub len: usize,
}

impl TextSink for TextCounter {
    ghost State = { ℕ };

    ghost state = { λ counter. counter.len };

    ghost step = { count_with };

    fn put(&mut self, bytes: &[u8]) {
        self.len = self.len.saturating_add(bytes.len());
    }

    fn put_escaped(&mut self, text: &[u8]) {
        self.len = self.len.saturating_add(escaped_bytes_len(text));
    }

    fn put_coded(&mut self, bytes: &[u8]) {
        self.len = self.len.saturating_add(coded_len(bytes.len()));
    }

    fn put_hidden(&mut self, bytes: &[u8]) {
        self.len = self.len.saturating_add(coded_len(bytes.len()));
    }
}
