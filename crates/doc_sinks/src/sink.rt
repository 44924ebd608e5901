//! What takes the text of a document.

ghost use Rattle.std.specs.Prelude.{◌≡◌};
ghost use Rattle.doc_sinks.specs.Chunks.{Chunk, base64, hidden, plain};
ghost use Rattle.markup_grammar.specs.Escapes as escapes;

/// What takes the text of a document chunk by chunk: it counts the bytes, or keeps them.
pub trait TextSink {
    /// What contracts see of it.
    ghost State: { Type 0 };

    ghost state: { Self → State };

    /// What a chunk makes of it.
    ghost step: { State → Chunk → State };

    /// Puts bytes as they are.
    fn put(&mut self, bytes: &[u8])
        ensures { state self.new ≡ step (state self.old) (plain bytes.now) };

    /// Puts a text as it is written in markup.
    fn put_escaped(&mut self, text: &[u8])
        ensures { state self.new ≡ step (state self.old) (plain (escapes.escaped text.now)) };

    /// Puts bytes in base64.
    fn put_coded(&mut self, bytes: &[u8])
        ensures { state self.new ≡ step (state self.old) (plain (base64 bytes.now)) };

    /// Puts bytes that the inner stream hides, in base64.
    fn put_hidden(&mut self, bytes: &[u8])
        ensures { state self.new ≡ step (state self.old) (hidden bytes.now) };
}
