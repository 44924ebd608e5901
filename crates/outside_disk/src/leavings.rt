//! Drafts that were left behind by calls that were cut off.
use crate::files::{FileId, id_of, stay_at};
use std::alloc::Global;
use std::fs::{File, Files, Metadata, OpenOptions};
use std::io::Read;
use std::os::unix::fs::MetadataExt;
use std::{fs, io, str};

/// How many digits of a draft's name are drawn.
const DIGITS: usize = 16;

/// The drafts of one file that a call may remove: the folder that they are in, with a slash at its end;
/// the part of their names that comes from the file; whose they are; and the files that are none of
/// them, because the call has read them.
#[derive(Drop)]
pub struct Leavings<'a> {
    pub folder: &'a str,
    pub stem: &'a str,
    pub owners: [u32; 2],
    pub read: &'a [FileId],
}

/// The digits in the name of a draft, if that is what it is.
fn digits_in<'a>(name: &'a str, stem: &str) -> Option<&'a str> {
    name.strip_prefix('.')?
        .strip_prefix(stem)?
        .strip_prefix('.')?
        .strip_suffix(".keepass")
}

/// Reports whether a byte is a digit of a draft's name.
fn is_digit(byte: u8) -> bool {
    byte.is_ascii_digit() || (b'a' <= byte && byte <= b'f')
}

/// Reports whether a name is one that a draft can have.
fn is_draft_name(name: &str, stem: &str) -> bool {
    match digits_in(name, stem) {
        Some(digits) => digits.len() == DIGITS && digits.bytes().all(is_digit),
        None => false,
    }
}

/// Reports whether a file can be such a draft.
fn is_draft(found: &Metadata, leavings: &Leavings<'_>) -> bool {
    let is_ours = leavings.owners.contains(&found.uid());
    found.is_file() && is_ours && !leavings.read.contains(&id_of(found))
}

/// Removes the file at a path whose lock can be taken.
fn remove_unheld<R: Files<File = File>>(rt: &R, file: &File, path: &str) -> io::Result<()> {
    file.try_lock()?;
    stay_at(rt, file, path)?;
    fs::remove_file(rt, path)
}

/// Removes the file at a path, unless it is the draft of a call that still runs, which holds its lock.
fn remove_at<R: Files<File = File>>(rt: &R, path: &str) -> io::Result<()> {
    let file = OpenOptions::new().write(true).open(rt, path)?;
    let removed = remove_unheld(rt, &file, path);
    drop(file);
    removed
}

/// Removes what a path names, if it is a draft that was left behind.
fn remove_draft<R: Files<File = File>>(
    rt: &R,
    path: &str,
    leavings: &Leavings<'_>,
) -> io::Result<()> {
    if is_draft(&fs::symlink_metadata(rt, path)?, leavings) {
        remove_at(rt, path)
    } else {
        Ok(())
    }
}

/// Removes what a name in the folder names, if it is a draft that was left behind.
fn remove_named<R: Files<File = File>>(
    rt: &R,
    alloc: Global,
    name: &str,
    leavings: &Leavings<'_>,
) -> io::Result<()> {
    let folder = leavings.folder;
    let path = format!(in alloc; "{folder}{name}")?;
    let removed = remove_draft(rt, path.as_str(), leavings);
    drop(path);
    removed
}

/// Removes the drafts that were left behind among these names, each of which ends with a NUL.
fn remove_among<R: Files<File = File>>(
    rt: &R,
    alloc: Global,
    names: &[u8],
    leavings: &Leavings<'_>,
) {
    for name in names.split(|byte| *byte == 0) {
        if let Ok(name) = str::from_utf8(name) {
            if is_draft_name(name, leavings.stem) {
                let _ = remove_named(rt, alloc, name, leavings);
            }
        }
    }
}

/// Removes the drafts that were left behind. Those that cannot be removed stay.
pub fn remove_left<R: Files<File = File>>(
    rt: &R,
    alloc: Global,
    leavings: &Leavings<'_>,
) -> io::Result<()> {
    let mut names = rt.open_dir(leavings.folder)?;
    let mut window = [0; 4096];
    for _ in 0..u64::MAX {
        let read = names.read(&mut window)?;
        if read == 0 {
            break;
        }
        remove_among(rt, alloc, &window[..read], leavings);
    }
    Ok(())
}
