//! The stores of files in memory: what is written is read, and a planned failure comes at its
//! number.
use outside_core::{FileFail, FileStore, write_file};
use outside_objects::{MemoryFiles, SureFiles};
use std::alloc::Global;
use std::process::Abort;

/// Whether just these bytes were found.
pub(crate) fn are_found(found: Option<&[u8]>, bytes: &[u8]) -> bool {
    match found {
        Some(found) => found == bytes,
        None => false,
    }
}

/// What reading a window answers. A test needs nothing of what the call promises, and is proved
/// sooner without it; the same holds for the two functions below.
pub(crate) fn read_at<F: FileStore>(
    files: &mut F,
    name: &str,
    from: u64,
    room: &mut [u8],
) -> Result<usize, FileFail> {
    files.read_at(name, from, room)
}

/// Whether these are the bytes of a file from an offset on, of eight that are asked for.
pub(crate) fn reads<F: FileStore>(files: &mut F, name: &str, from: u64, bytes: &[u8]) -> bool {
    let mut room = [0; 8];
    match read_at(files, name, from, &mut room) {
        Ok(n) => are_found(room.get(..n), bytes),
        Err(_fail) => false,
    }
}

/// The size of a file.
pub(crate) fn size_of<F: FileStore>(files: &mut F, name: &str) -> Result<u64, FileFail> {
    files.size(name)
}

/// What `write_file` answers.
pub(crate) fn write_whole<F: FileStore>(
    files: &mut F,
    name: &str,
    bytes: &[u8],
) -> Result<(), FileFail> {
    write_file(files, name, bytes)
}

/// Writes a file twice, and reads it from its start, from the middle and past its end.
pub(crate) fn keeps_a_file<F: FileStore>(rt: &impl Abort, files: &mut F, name: &str) {
    assert_eq!(rt; size_of(files, name), Err(FileFail::NoSuchFile));
    assert_eq!(rt; write_whole(files, name, b"hello"), Ok(()));
    assert_eq!(rt; size_of(files, name), Ok(5));
    for (from, bytes) in [(0, b"hello".as_slice()), (3, b"lo"), (9, b"")] {
        assert!(rt; reads(files, name, from, bytes), "from {from}");
    }
    assert_eq!(rt; write_whole(files, name, b"bye"), Ok(()));
    assert!(rt; reads(files, name, 0, b"bye"));
}

#[test]
fn a_sure_store_keeps_files(rt: HostRuntime) {
    let mut files = SureFiles::new(rt.alloc());
    keeps_a_file(&rt, &mut files, "vault");
    assert_eq!(rt; files.put("other", b"x"), Ok(()));
    assert!(rt; are_found(files.bytes("other"), b"x"));
    assert!(rt; are_found(files.bytes("vault"), b"bye"));
    assert!(rt; files.bytes("none").is_none());
}

#[test]
fn a_store_that_is_not_to_fail_keeps_files(rt: HostRuntime) {
    keeps_a_file(&rt, &mut MemoryFiles::new(rt.alloc()), "vault");
}

/// A store with one file, the call of this number being planned to fail.
fn failing_at(alloc: Global, call: u64) -> Result<MemoryFiles, FileFail> {
    let mut files = MemoryFiles::new(alloc);
    files.put("vault", b"old")?;
    match files.fail_at(call) {
        Ok(()) => Ok(files),
        Err(_fail) => Err(FileFail::NoMemory),
    }
}

/// What `write_file` answers, and the file after it: whether it is the new one.
fn written(files: &mut MemoryFiles) -> (Result<(), FileFail>, bool) {
    let answer = write_whole(files, "vault", b"new");
    (answer, are_found(files.bytes("vault"), b"new"))
}

/// `write_file` begins, appends and publishes: calls 0 to 2. Whichever fails, the old file remains.
#[test]
fn the_old_file_remains_where_writing_fails(rt: HostRuntime) {
    for call in 0..3 {
        match failing_at(rt.alloc(), call) {
            Ok(mut files) => {
                assert_eq!(rt;
                    written(&mut files),
                    (Err(FileFail::Failed), false),
                    "at {call}"
                );
                assert_eq!(rt; written(&mut files), (Ok(()), true), "at {call}");
            }
            Err(_fail) => assert!(rt; false),
        }
    }
}

/// The answers of `size` and `read_at` for a file that is missing, the call of this number being
/// planned to fail.
fn asked(alloc: Global, call: u64) -> Result<[FileFail; 2], FileFail> {
    let mut files = failing_at(alloc, call)?;
    let size = size_of(&mut files, "none");
    let read = read_at(&mut files, "none", 0, &mut []);
    Ok([
        size.err().unwrap_or(FileFail::NoMemory),
        read.err().unwrap_or(FileFail::NoMemory),
    ])
}

#[test]
fn a_missing_file_is_missing_but_where_the_call_fails(rt: HostRuntime) {
    for (call, answers) in [
        (0, [FileFail::Failed, FileFail::NoSuchFile]),
        (1, [FileFail::NoSuchFile, FileFail::Failed]),
        (2, [FileFail::NoSuchFile; 2]),
    ] {
        assert_eq!(rt; asked(rt.alloc(), call), Ok(answers), "at {call}");
    }
}
