//! Elements, by their tags and what is between them.

ghost use Rattle.std.specs.Prelude.{◌≡◌, [], ◌∷◌, ◌++◌, true};
ghost use Rattle.doc_sinks.specs.Attributes.{attributes};
ghost use Rattle.doc_sinks.specs.States.{after_start_tag, after_end_tag, after_piece};
ghost use Rattle.doc_spelling.specs.Pieces.{base64_piece, leaf, protected_attribute, secret};
ghost use Rattle.doc_spelling.specs.Ranges.{are_bytes};

use crate::attributes::{Mark, put_attribute, put_attributes};
use crate::sink::TextSink;

/// Puts a start tag.
pub fn open<O: TextSink>(out: &mut O, name: &str, mark: Mark)
    ensures { O.state out.new
        ≡ after_start_tag O.step (O.state out.old) name.now (attributes mark) }
{
    out.put(b"<");
    out.put(name.as_bytes());
    put_attributes(out, mark);
    out.put(b">");
}

/// Puts the start tag of an element with hidden bytes.
fn open_protected<O: TextSink>(out: &mut O, name: &str, mark: Mark)
    ensures { O.state out.new
        ≡ after_start_tag O.step (O.state out.old) name.now
        (attributes mark ++ protected_attribute ∷ []) }
{
    out.put(b"<");
    out.put(name.as_bytes());
    put_attributes(out, mark);
    put_attribute(out, "Protected", b"True");
    out.put(b">");
}

/// Puts an end tag.
#[tactic(auto, unfolding(crate::specs::States::after_end_tag))]
pub fn close<O: TextSink>(out: &mut O, name: &str)
    ensures { O.state out.new ≡ after_end_tag O.step (O.state out.old) name.now }
{
    out.put(b"</");
    out.put(name.as_bytes());
    out.put(b">");
}

/// Puts an element with a text.
pub fn put_leaf<O: TextSink>(out: &mut O, name: &str, mark: Mark, text: &[u8])
    ensures puts { O.state out.new
        ≡ after_piece O.step (O.state out.old) (leaf name.now (attributes mark) text.now) }
    ensures fits { are_bytes text.now ≡ true }
{
    open(out, name, mark);
    out.put_escaped(text);
    close(out, name);
}

/// Puts an element with bytes in base64.
pub fn put_coded<O: TextSink>(out: &mut O, name: &str, mark: Mark, bytes: &[u8])
    ensures puts { O.state out.new
        ≡ after_piece O.step (O.state out.old) (base64_piece name.now (attributes mark) bytes.now) }
    ensures fits { are_bytes bytes.now ≡ true }
{
    open(out, name, mark);
    out.put_coded(bytes);
    close(out, name);
}

/// Puts an element with bytes that the inner stream hides.
pub fn put_secret<O: TextSink>(out: &mut O, name: &str, mark: Mark, bytes: &[u8])
    ensures puts { O.state out.new
        ≡ after_piece O.step (O.state out.old) (secret name.now (attributes mark) bytes.now) }
    ensures fits { are_bytes bytes.now ≡ true }
{
    open_protected(out, name, mark);
    out.put_hidden(bytes);
    close(out, name);
}
