//! Reading a whole file into secret memory, window by window.
ghost use Rattle.std.specs.Prelude.{◌≡◌, ◌+◌, ◌≤◌, IfOk, IfSome, IsErrOf, OnOk, List, Some, None, length, take, ℕ};
ghost use Rattle.std.specs.FinMap as map;
ghost use Rattle.outside_core.specs.Counts.{HasCause};
ghost use Rattle.outside_core.specs.Files.{FileMap};
ghost use Rattle.outside_core.specs.Reports.{StaysTruthful, reported};
ghost use Rattle.secret_core.specs.ReadFail.{HasReadCause, IsOfSomeFile, IsRead, read_fail_of};
ghost use Rattle.secret_core.specs.declared.files.ReadFail.TheVariants as read;

use crate::memory::Secret;
use outside_core::{FileFail, FileStore, NoMemory};
use std::alloc::Global;

/// How many bytes of a file are asked for at once.
const WINDOW: usize = 65_536;

/// Why a file was not read.
#[derive(Clone, Copy, Debug, PartialEq, Eq)]
pub enum ReadFail {
    /// The file's size, which is carried, passes the limit that the caller set.
    TooLarge(u64),
    /// There is no file of this name: the store's count of absences rose.
    NoSuchFile,
    /// The store could not read it, whatever the file holds: its count of faults rose.
    FileFault,
    /// Memory ran out.
    NoMemory,
}

impl From<FileFail> for ReadFail {
    ghost from_gives = { λ fail e. e ≡ read_fail_of fail };

    fn from(fail: FileFail) -> ReadFail {
        match fail {
            FileFail::Failed => ReadFail::FileFault,
            FileFail::NoSuchFile => ReadFail::NoSuchFile,
            FileFail::NoMemory => ReadFail::NoMemory,
        }
    }
}

impl From<NoMemory> for ReadFail {
    ghost from_gives = { λ _ e. e ≡ read.NoMemory };

    fn from(_none: NoMemory) -> ReadFail {
        ReadFail::NoMemory
    }
}

/// Reads a prefix of a file into `out`: as many of its first bytes as `out` is long, or all of them
/// where the file ends before. Returns how many they are.
///
/// At most 65,536 bytes are asked for at a time. The store's files and its draft stay as they were,
/// whatever the answer.
///
/// # Errors
///
/// Those of [`FileStore::read_at`].
pub fn read_prefix<F: FileStore>(
    files: &mut F,
    name: &str,
    out: &mut [u8],
) -> Result<usize, FileFail>
    ensures bound { IfOk result (λ n. n ≤ length out.new) }
    ensures told { (m : FileMap) (bytes : List ℕ)
        → reported (F.truthful files.new) (F.files files.old) ≡ Some m
        → map.get m name.now ≡ Some bytes
        → IfOk result (λ n. take (length out.new) bytes ≡ take n out.new) }
    ensures missing { IsErrOf result FileFail.NoSuchFile
        → IfSome (reported (F.truthful files.new) (F.files files.old))
        (λ m. map.get m name.now ≡ None) }
    ensures files { F.files files.new ≡ F.files files.old }
    ensures draft_name { F.draft_name files.new ≡ F.draft_name files.old }
    ensures draft_bytes { F.draft_bytes files.new ≡ F.draft_bytes files.old }
    ensures truthful { StaysTruthful (F.truthful files.old) (F.truthful files.new) }
    ensures faults { HasCause FileFail.Failed (F.faults files.old) (F.faults files.new) result }
    ensures absences { HasCause FileFail.NoSuchFile (F.absences files.old) (F.absences files.new)
        result }
{
    let mut at = 0;
    while at < out.len() {
        let end = out.len().min(at + WINDOW);
        let read = files.read_at(name, at as u64, &mut out[at..end])?;
        if read == 0 {
            break;
        }
        at += read;
    }
    Ok(at)
}

// Reads a prefix of a file, as much as there is room for, into a Secret in the place of its bytes.
fn fill_secret<F: FileStore>(files: &mut F, name: &str, secret: &mut Secret) -> Result<(), FileFail>
    ensures bound { OnOk result (length secret.new.bytes ≤ length secret.old.bytes +
        secret.old.spare) }
    ensures told { (m : FileMap) (bytes : List ℕ)
        → reported (F.truthful files.new) (F.files files.old) ≡ Some m
        → map.get m name.now ≡ Some bytes
        → OnOk result (secret.new.bytes ≡ take (length secret.old.bytes + secret.old.spare) bytes) }
    ensures missing { IsErrOf result FileFail.NoSuchFile
        → IfSome (reported (F.truthful files.new) (F.files files.old))
        (λ m. map.get m name.now ≡ None) }
    ensures files { F.files files.new ≡ F.files files.old }
    ensures draft_name { F.draft_name files.new ≡ F.draft_name files.old }
    ensures draft_bytes { F.draft_bytes files.new ≡ F.draft_bytes files.old }
    ensures truthful { StaysTruthful (F.truthful files.old) (F.truthful files.new) }
    ensures faults { HasCause FileFail.Failed (F.faults files.old) (F.faults files.new) result }
    ensures absences { HasCause FileFail.NoSuchFile (F.absences files.old) (F.absences files.new)
        result }
{
    let read = read_prefix(files, name, &mut secret.kept.buffer)?;
    secret.kept.cut(read);
    Ok(())
}

/// Reads a whole file of at most `limit` bytes into secret memory of the file's size.
///
/// Its bytes go straight into that memory, at most 65,536 at a time. A file that gives fewer bytes
/// than its size is read as those bytes. The store's files and its draft stay as they were,
/// whatever the answer.
pub fn read_file<F: FileStore>(
    alloc: Global,
    files: &mut F,
    name: &str,
    limit: u64,
) -> Result<Secret, ReadFail>
    ensures told { IfSome (reported (F.truthful files.new) (F.files files.old))
        (λ m. IsRead (map.get m name.now) limit result) }
    ensures some_file { IsOfSomeFile limit result }
    ensures cause { HasReadCause (F.faults files.old) (F.faults files.new) (F.absences files.old)
        (F.absences files.new) limit result }
    ensures files { F.files files.new ≡ F.files files.old }
    ensures draft_name { F.draft_name files.new ≡ F.draft_name files.old }
    ensures draft_bytes { F.draft_bytes files.new ≡ F.draft_bytes files.old }
    ensures truthful { StaysTruthful (F.truthful files.old) (F.truthful files.new) }
{
    let size = files.size(name)?;
    if size > limit {
        return Err(ReadFail::TooLarge(size));
    }
    let mut secret = Secret::with_room(alloc, size as usize)?;
    match fill_secret(files, name, &mut secret) {
        Ok(()) => Ok(secret),
        Err(fail) => {
            drop(secret);
            Err(ReadFail::from(fail))
        }
    }
}
