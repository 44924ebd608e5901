//! Sources and sinks in memory: bytes come and go in order, and a planned failure takes none.
use crate::files::are_found;
use outside_core::{Bytes, Sink, SinkFail, Source, SourceFail, write_all};
use outside_objects::{MemorySink, MemorySource, SureSink, SureSource};
use std::alloc::Global;
use std::test::Fail;

/// What reading answers. A test needs nothing of what the call promises, and is proved sooner
/// without it; the same holds for `write_text`.
fn read<S: Source>(source: &mut S, room: &mut [u8]) -> Result<usize, SourceFail> {
    source.read(room)
}

/// What `write_all` answers.
pub(crate) fn write_text<O: Sink>(out: &mut O, text: &[u8]) -> Result<(), SinkFail> {
    write_all(out, text)
}

/// Whether these bytes come next from a source, of three that are asked for.
pub(crate) fn gives<S: Source>(source: &mut S, bytes: &[u8]) -> bool {
    let mut room = [0; 3];
    match read(source, &mut room) {
        Ok(n) => are_found(room.get(..n), bytes),
        Err(_fail) => false,
    }
}

#[test]
fn a_sure_source_gives_its_bytes(rt: HostRuntime) {
    let mut source = SureSource::new(rt.alloc());
    assert_eq!(rt; source.fill_with(b"hello"), Ok(()));
    for bytes in [b"hel".as_slice(), b"lo", b""] {
        assert!(rt; gives(&mut source, bytes));
    }
}

/// A source of these bytes, whose call of this number is planned to fail.
fn failing_source(alloc: Global, bytes: &[u8], call: u64) -> Result<MemorySource, Fail> {
    let mut source = MemorySource::new(alloc);
    source.fill_with(bytes)?;
    source.fail_at(call)?;
    Ok(source)
}

#[test]
fn a_source_fails_at_the_planned_call(rt: HostRuntime) -> Result<(), Fail> {
    let mut source = failing_source(rt.alloc(), b"hello", 1)?;
    assert!(rt; gives(&mut source, b"hel"));
    assert_eq!(rt; read(&mut source, &mut []), Err(SourceFail::Failed));
    assert!(rt; gives(&mut source, b"lo"));
    Ok(())
}

/// A sink that takes at most three bytes a call.
#[derive(Drop)]
struct NarrowSink {
    bytes: Bytes,
}

impl Sink for NarrowSink {
    ghost use Rattle.std.specs.Prelude.{Some};

    ghost written = { λ s. Some s.bytes };

    ghost faults = { λ _. 0 };

    fn write(&mut self, piece: &[u8]) -> Result<usize, SinkFail> {
        let n = piece.len().min(3);
        self.bytes.add(&piece[..n])?;
        Ok(n)
    }
}

#[test]
fn write_all_goes_on_after_a_short_write(rt: HostRuntime) {
    let mut narrow = NarrowSink {
        bytes: Bytes::new(rt.alloc()),
    };
    assert_eq!(rt; write_text(&mut narrow, b"hello, world"), Ok(()));
    assert_eq!(rt; narrow.bytes.as_slice(), b"hello, world".as_slice());
}

#[test]
fn a_sure_sink_keeps_what_is_written(rt: HostRuntime) {
    let mut sink = SureSink::new(rt.alloc());
    assert_eq!(rt; write_text(&mut sink, b"hello"), Ok(()));
    assert_eq!(rt; sink.written(), b"hello".as_slice());
}

/// A sink whose call of this number is planned to fail.
fn failing_sink(alloc: Global, call: u64) -> Result<MemorySink, Fail> {
    let mut sink = MemorySink::new(alloc);
    sink.fail_at(call)?;
    Ok(sink)
}

/// Texts for a sink whose second call fails, and what writing each answers.
const WRITES: &[(&[u8], Result<(), SinkFail>)] = &[
    (b"one", Ok(())),
    (b"two", Err(SinkFail::Failed)),
    (b"three", Ok(())),
];

#[test]
fn a_sink_fails_at_the_planned_call(rt: HostRuntime) -> Result<(), Fail> {
    let mut sink = failing_sink(rt.alloc(), 1)?;
    for (text, answer) in WRITES {
        assert_eq!(rt; write_text(&mut sink, text), *answer);
    }
    assert_eq!(rt; sink.written(), b"onethree".as_slice());
    Ok(())
}
