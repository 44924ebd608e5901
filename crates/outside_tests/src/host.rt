//! The host's input, output and random bytes, and what becomes of their errors.
use crate::streams::{gives, write_text};
use outside_core::{Dice, DiceFail, Sink, SinkFail, Source, SourceFail};
use outside_host::{HostDice, HostInput, HostOutput, World};
use std::fmt::Display;
use std::io;
use std::io::{ErrorKind, Read};
use std::random::RandomSource;

/// An outside that always fails, or takes nothing.
#[derive(Drop)]
struct Broken {
    fails: bool,
}

impl Read for Broken {
    fn read(&mut self, _buf: &mut [u8]) -> io::Result<usize> {
        Err(io::Error::from(ErrorKind::Other))
    }
}

impl RandomSource for Broken {
    fn fill_bytes(&self, _buf: &mut [u8]) -> io::Result<()> {
        Err(io::Error::from(ErrorKind::Other))
    }
}

impl Print for Broken {
    fn print<D: Display + Drop>(&self, _value: D) -> io::Result<()> {
        Err(io::Error::from(ErrorKind::Other))
    }

    fn println<D: Display + Drop>(&self, _value: D) -> io::Result<()> {
        Err(io::Error::from(ErrorKind::Other))
    }

    fn write_all(&self, _bytes: &[u8]) -> io::Result<()> {
        Err(io::Error::from(ErrorKind::Other))
    }

    fn write_some(&self, _bytes: &[u8]) -> io::Result<usize> {
        if self.fails {
            return Err(io::Error::from(ErrorKind::Other));
        }
        Ok(0)
    }
}

#[test]
fn the_host_reads_input(rt: HostRuntime) {
    let world = World::any();
    let mut input = HostInput::new(b"hello".as_slice(), &world);
    for bytes in [b"hel".as_slice(), b"lo", b""] {
        assert!(rt; gives(&mut input, bytes));
    }
    let mut broken = HostInput::new(Broken { fails: true }, &world);
    assert_eq!(rt; broken.read(&mut []), Err(SourceFail::Failed));
}

#[test]
fn the_host_writes_output(rt: HostRuntime) {
    assert_eq!(rt;
        write_text(&mut HostOutput::new(&rt), b"written to standard output\n"),
        Ok(())
    );
    for (fails, piece, answer) in [
        (true, b"x".as_slice(), Err(SinkFail::Failed)),
        (false, b"x", Err(SinkFail::Failed)),
        (false, b"", Ok(0)),
    ] {
        let broken = Broken { fails };
        assert_eq!(rt; HostOutput::new(&broken).write(piece), answer);
    }
}

#[test]
fn the_host_gives_random_bytes(rt: HostRuntime) {
    let world = World::any();
    let mut dice = HostDice::new(&rt, &world);
    let mut one = [0; 32];
    let mut other = [0; 32];
    assert_eq!(rt; dice.fill(&mut one), Ok(()));
    assert_eq!(rt; dice.fill(&mut other), Ok(()));
    assert!(rt; one != other);
    let broken = Broken { fails: true };
    assert_eq!(rt;
        HostDice::new(&broken, &world).fill(&mut one),
        Err(DiceFail::Failed)
    );
}
