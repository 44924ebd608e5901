//! Files as they are found: opened, locked, and compared with what they were before.
ghost use Rattle.std.specs.Prelude.{◌≤◌, length, IfOk};

use std::alloc::Global;
use std::fs::{File, Files, Metadata, OpenFile, OpenOptions, TryLockError};
use std::io::{ErrorKind, Read, Seek, SeekFrom};
use std::os::unix::fs::MetadataExt;
use std::time::{Clock, Duration};
use std::{fs, io, thread};

/// How often a call tries to take the lock of the file that it may write.
const TRIES: u32 = 1000;

/// How many milliseconds pass between two tries, so that all of them take ten seconds.
const PAUSE: u64 = 10;

/// The length of a regular file in bytes. A folder, a pipe or a device has none to go by.
pub fn file_len<F: OpenFile>(file: &F) -> io::Result<u64> {
    Ok(regular(file.metadata()?)?.len())
}

/// What the system says of a file, which is refused where it is no regular one.
fn regular(metadata: Metadata) -> io::Result<Metadata> {
    if metadata.is_file() {
        Ok(metadata)
    } else {
        Err(io::Error::from(ErrorKind::InvalidInput))
    }
}

/// Opens a regular file for reading. Anything else is refused before it is opened, because opening
/// a pipe waits until some process writes to it.
pub fn open_regular<R: Files>(rt: &R, name: &str) -> io::Result<R::File> {
    regular(fs::metadata(rt, name)?)?;
    fs::open(rt, name)
}

/// Opens a regular file for reading and writing, though it is only read: so a file that may not be
/// written is refused here, and file systems that lock no file that is open for reading alone lock
/// this one.
fn open_writable<R: Files<File = File>>(rt: &R, path: &str) -> io::Result<File> {
    regular(fs::metadata(rt, path)?)?;
    OpenOptions::new().read(true).write(true).open(rt, path)
}

/// Reads a file from an offset on into `out`, as far as both reach: a read that gives less is
/// followed by another one, until one gives nothing.
pub fn read_from<F: Read + Seek>(file: &mut F, from: u64, out: &mut [u8]) -> io::Result<usize>
    ensures { IfOk result (λ n. n ≤ length out.new) }
{
    file.seek(SeekFrom::Start(from))?;
    let mut read = 0;
    while read < out.len() {
        match file.read(&mut out[read..])? {
            0 => break,
            more => read += more,
        }
    }
    Ok(read)
}

/// Takes the lock of a file, which ends where the file is closed. A file system that has no locks
/// takes none.
fn hold(file: &File) -> io::Result<()> {
    match file.try_lock() {
        Ok(()) => Ok(()),
        Err(TryLockError::WouldBlock) => Err(io::Error::from(ErrorKind::WouldBlock)),
        Err(TryLockError::Error(error)) if error.kind() == ErrorKind::Unsupported => Ok(()),
        Err(TryLockError::Error(error)) => Err(error),
    }
}

/// Which file it is, whatever is in it: its device, and its number there.
pub type FileId = (u64, u64);

/// Which file this is.
pub fn id_of(metadata: &Metadata) -> FileId {
    (metadata.dev(), metadata.ino())
}

/// Reports whether both are of one file whose bytes were not changed between them, as far as its
/// length and the time of their last change say. A new name for the file is no change of its bytes.
fn is_unwritten(one: &Metadata, other: &Metadata) -> bool {
    id_of(one) == id_of(other)
        && one.len() == other.len()
        && one.mtime() == other.mtime()
        && one.mtime_nsec() == other.mtime_nsec()
}

/// Reports whether both are of one file that was not changed between them, as far as its length and
/// its times say.
fn is_unchanged(one: &Metadata, other: &Metadata) -> bool {
    is_unwritten(one, other)
        && one.ctime() == other.ctime()
        && one.ctime_nsec() == other.ctime_nsec()
}

/// The refusal where another program came between.
fn changed_meanwhile() -> io::Error {
    io::Error::from(ErrorKind::WouldBlock)
}

/// Refuses a file that is not the one that was found, or was changed since.
pub fn refuse_changed(now: &Metadata, found: &Metadata) -> io::Result<()> {
    if is_unchanged(now, found) {
        Ok(())
    } else {
        Err(changed_meanwhile())
    }
}

/// Refuses a file that is not the one that was found, or whose bytes were changed since.
pub fn refuse_written(now: &Metadata, found: &Metadata) -> io::Result<()> {
    if is_unwritten(now, found) {
        Ok(())
    } else {
        Err(changed_meanwhile())
    }
}

/// Looks whether a path still names the file that was found. Another call may have put another one
/// there.
pub fn stay_named<R: Files>(rt: &R, found: &Metadata, path: &str) -> io::Result<()> {
    let named = fs::metadata(rt, path)?;
    if id_of(found) == id_of(&named) {
        Ok(())
    } else {
        Err(changed_meanwhile())
    }
}

/// Looks whether a path still names this open file.
pub fn stay_at<R: Files>(rt: &R, file: &File, path: &str) -> io::Result<()> {
    stay_named(rt, &file.metadata()?, path)
}

/// Looks whether a name still leads to the file that was found there, as it was then.
pub fn stay_unchanged<R: Files>(rt: &R, name: &str, found: &Metadata) -> io::Result<()> {
    refuse_changed(&fs::metadata(rt, name)?, found)
}

/// Takes the lock of a file, which is still at its path then.
pub fn hold_at<R: Files>(rt: &R, file: &File, path: &str) -> io::Result<()> {
    hold(file)?;
    stay_at(rt, file, path)
}

/// The path of the file that a name leads to: a link is followed to its end. There may be no file.
pub fn place_of<R: Files>(rt: &R, alloc: Global, name: &str) -> io::Result<String> {
    match fs::symlink_metadata(rt, name) {
        Ok(metadata) if metadata.is_symlink() => { Ok(rt.canonicalize(alloc, name)?.into_string()) }
        _ => Ok(String::from_str(alloc, name)?),
    }
}

/// A file that a call may write, as it was before the call read it: open, and locked.
#[derive(Drop)]
pub struct HeldFile {
    /// Its path, which leads over no link at its end.
    pub place: String,
    /// The file.
    pub file: File,
    /// What the system said of it.
    pub found: Metadata,
}

/// Opens the file at a path and takes its lock.
fn open_held<R: Files<File = File>>(rt: &R, place: &str) -> io::Result<File> {
    let file = open_writable(rt, place)?;
    match hold_at(rt, &file, place) {
        Ok(()) => Ok(file),
        Err(error) => {
            drop(file);
            Err(error)
        }
    }
}

/// Opens the file at a path and takes its lock. While another call holds it, this one waits, at most
/// ten seconds.
fn wait_for<R: Files<File = File> + Clock>(rt: &R, place: &str) -> io::Result<File> {
    for _ in 0..TRIES {
        match open_held(rt, place) {
            Err(error) if error.kind() == ErrorKind::WouldBlock => {
                thread::sleep(rt, Duration::from_millis(PAUSE));
            }
            opened => return opened,
        }
    }
    Err(io::Error::from(ErrorKind::TimedOut))
}

/// The file at a path, held from now on.
pub fn hold_place<R: Files<File = File> + Clock>(rt: &R, place: String) -> io::Result<HeldFile> {
    let file = wait_for(rt, place.as_str())?;
    match file.metadata() {
        Ok(found) => Ok(HeldFile { place, file, found }),
        Err(error) => {
            drop(file);
            drop(place);
            Err(error)
        }
    }
}

/// The file that a name leads to, held from now on.
pub fn hold_file<R: Files<File = File> + Clock>(
    rt: &R,
    alloc: Global,
    name: &str,
) -> io::Result<HeldFile> {
    hold_place(rt, place_of(rt, alloc, name)?)
}

/// What is found at a path: a regular file, or nothing. Anything else is refused.
pub fn look_at<R: Files>(rt: &R, path: &str) -> io::Result<Option<Metadata>> {
    match fs::metadata(rt, path) {
        Ok(metadata) => Ok(Some(regular(metadata)?)),
        Err(error) if error.kind() == ErrorKind::NotFound => Ok(None),
        Err(error) => Err(error),
    }
}
