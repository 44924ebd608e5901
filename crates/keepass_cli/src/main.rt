//! The command line of a password vault: `main`, and the one call that it makes.
#![tactic(auto)]

use keepass_call::{file_to_write, keepass, session_file};
use outside_core::{NoMemory, Sink, write_all};
use outside_host::{HostDice, HostFiles, HostInput, HostOutput, World, WritableFile};
use std::alloc::{AllocGlobal, Global};
use std::env;
use std::io::ErrorKind;
use std::process::ExitCode;
use std::time::{Clock, SystemTime};

/// The seconds from the beginning of the year 1 to that of 1970.
const SECONDS_TO_1970: u64 = 62_135_596_800;

// Why the call is not made.
#[derive(Clone, Copy)]
enum NoWords {
    NotUtf8,
    OutOfMemory,
}

// The words after the program's name.
fn words_after_name(rt: &(impl env::Env + AllocGlobal)) -> Result<Vec<String>, NoWords> {
    match env::args(rt) {
        Ok(args) => match args.skip(1).collect(rt.alloc()) {
            Ok(words) => Ok(words),
            Err(_) => Err(NoWords::OutOfMemory),
        },
        Err(error) if error.kind() == ErrorKind::OutOfMemory => Err(NoWords::OutOfMemory),
        Err(_) => Err(NoWords::NotUtf8),
    }
}

// Writes the line of a call that is not made, and gives its status.
fn refuse<E: Sink>(err: &mut E, why: &NoWords) -> u8 {
    let (line, status): (&[u8], u8) = match why {
        NoWords::NotUtf8 => (b"keepass: words: not UTF-8\n", 1),
        NoWords::OutOfMemory => (b"keepass: words: out of memory\n", 9),
    };
    match write_all(err, line) {
        Ok(()) => status,
        Err(_) => 10,
    }
}

// The seconds since the year 1, by the host's clock; those up to 1970 where it gives no time.
fn seconds(rt: &impl Clock) -> u64 {
    let Ok(time) = SystemTime::now(rt) else {
        return SECONDS_TO_1970;
    };
    match time.duration_since(SystemTime::UNIX_EPOCH) {
        Ok(since) => since.as_secs().saturating_add(SECONDS_TO_1970),
        Err(_) => SECONDS_TO_1970,
    }
}

// The file that words may write: that of a session, or that of one call.
fn writable_file(alloc: Global, words: &[String]) -> Result<Option<WritableFile>, NoMemory> {
    if let Some(name) = session_file(alloc, words)? {
        return Ok(Some(WritableFile::OfSession(name)));
    }
    match file_to_write(alloc, words)? {
        Some(name) => Ok(Some(WritableFile::OfCall(name))),
        None => Ok(None),
    }
}

fn main(rt: HostRuntime) -> ExitCode {
    // What the host is taken to hold: nothing is known of it, and it takes no memory.
    let world = World::any();
    let alloc = rt.alloc();
    let stderr = rt.stderr();
    let mut err = HostOutput::new(&stderr);
    let words = match words_after_name(&rt) {
        Ok(words) => words,
        Err(why) => return ExitCode::from(refuse(&mut err, &why)),
    };
    let target = match writable_file(alloc, words.as_slice()) {
        Ok(target) => target,
        Err(NoMemory) => return ExitCode::from(refuse(&mut err, &NoWords::OutOfMemory)),
    };
    let now = seconds(&rt);
    let mut files = HostFiles::new(&rt, alloc, target, &world);
    let mut input = HostInput::new(rt.reader(), &world);
    let mut out = HostOutput::new(&rt);
    let mut dice = HostDice::new(&rt, &world);
    ExitCode::from(keepass(
        alloc,
        words.as_slice(),
        &mut files,
        &mut input,
        &mut out,
        &mut err,
        &mut dice,
        now,
    ))
}
