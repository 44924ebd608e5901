//! The attributes of an element.

ghost use Rattle.std.specs.Prelude.{◌≡◌, codes, decimal, flat_map};
ghost use Rattle.doc_sinks.specs.Attributes.{attributes};
ghost use Rattle.doc_sinks.specs.Chunks.{attribute_chunks};
ghost use Rattle.doc_sinks.specs.States.{after_chunks};

use crate::sink::TextSink;
use itoa::Buffer;

/// Which attributes an element has, beside that of a value which the inner stream hides.
#[derive(Clone, Copy)]
pub enum Mark {
    /// None.
    Unmarked,
    /// The value is hidden when it is shown.
    InMemory,
    /// The number of an attachment's bytes in the pool.
    Ref(u64),
    /// The number that these bytes have in the pool.
    Id(u64),
    /// The number that these bytes have in the pool, and that they are hidden when they are shown.
    IdInMemory(u64),
}

/// Puts an attribute.
pub(crate) fn put_attribute<O: TextSink>(out: &mut O, name: &str, text: &[u8])
    ensures { O.state out.new
        ≡ after_chunks O.step (O.state out.old) (attribute_chunks (name.now, text.now)) }
{
    out.put(b" ");
    out.put(name.as_bytes());
    out.put(b"=\"");
    out.put_escaped(text);
    out.put(b"\"");
}

/// Puts an attribute that is a number.
fn put_numbered<O: TextSink>(out: &mut O, name: &str, number: u64)
    ensures { O.state out.new
        ≡ after_chunks O.step (O.state out.old) (attribute_chunks (name.now, decimal number)) }
{
    let mut buffer = Buffer::new();
    put_attribute(out, name, buffer.format(number).as_bytes());
}

/// Puts the attributes of an element.
pub(crate) fn put_attributes<O: TextSink>(out: &mut O, mark: Mark)
    ensures { O.state out.new
        ≡ after_chunks O.step (O.state out.old) (flat_map attribute_chunks (attributes mark)) }
{
    match mark {
        Mark::Unmarked => {}
        Mark::InMemory => put_attribute(out, "ProtectInMemory", b"True"),
        Mark::Ref(number) => put_numbered(out, "Ref", number),
        Mark::Id(number) => put_numbered(out, "ID", number),
        Mark::IdInMemory(number) => {
            put_numbered(out, "ID", number);
            put_attribute(out, "ProtectInMemory", b"True");
        }
    }
}
