//! Files in memory that are read in pieces, and that another program may change meanwhile.
ghost use Rattle.std.specs.Prelude.{◌≡◌, ◌≤◌, Some, None, true};
ghost use Rattle.outside_objects.specs.Memory.{empty_store, no_failures};

use crate::failing::MemoryFiles;
use crate::sure::copy_front;
use outside_core::{Bytes, FileFail, FileStore, increment};
use std::alloc::Global;

/// What another program makes of a file while it is read.
#[derive(Drop)]
pub struct FileChange {
    /// The number of the first read that finds it, from 0 on.
    pub first_read: u64,
    /// The bytes that the file has from then on.
    pub bytes: Bytes,
}

/// A store of files in memory whose reads end where a test wants it, and which another program may
/// change. It keeps the length of the longest array that was to be read into. It is truthful for as
/// long as it gives all that is asked for, and no change was found.
#[derive(Drop)]
pub struct PieceFiles {
    /// The files, and which calls fail.
    pub files: MemoryFiles,
    /// Places of a file that no read goes over.
    pub cuts: Vec<u64>,
    /// How many bytes a read gives at most.
    pub most: usize,
    /// What becomes of the file that is read.
    pub change: Option<FileChange>,
    /// The length of the longest array that was to be read into.
    pub longest: usize,
    reads: u64,
    truthful: bool,
}

impl PieceFiles {
    /// A store without files. No read is cut short, no call is to fail, and no change is to come.
    pub fn new(alloc: Global) -> PieceFiles
        ensures store { result.files.store ≡ empty_store }
        ensures failures { result.files.failures ≡ no_failures }
        ensures change { result.change ≡ None }
        ensures truthful { result.truthful ≡ true }
    {
        PieceFiles {
            files: MemoryFiles::new(alloc),
            cuts: Vec::new(alloc),
            most: usize::MAX,
            change: None,
            longest: 0,
            reads: 0,
            truthful: true,
        }
    }

    // How many of the bytes that are wanted from a place on a read gives at most.
    fn room(&self, from: u64, wanted: usize) -> usize
        ensures wanted { result ≤ wanted }
        ensures most { result ≤ self.now.most }
    {
        let next = self.cuts.iter().filter(|cut| **cut > from).min();
        let reach = match next {
            Some(cut) => cut.saturating_sub(from),
            None => u64::MAX,
        };
        wanted.min(self.most).min(reach as usize)
    }

    // The bytes of a file that was changed before the read of this number.
    fn changed(&self, read: u64) -> Option<&[u8]> {
        match &self.change {
            Some(change) if change.first_read <= read => Some(change.bytes.as_slice()),
            _ => None,
        }
    }
}

impl FileStore for PieceFiles {
    ghost files = { λ s. Some s.files.store.files };

    ghost truthful = { λ s. s.truthful };

    ghost draft_name = { λ s. s.files.store.draft_name };

    ghost draft_bytes = { λ s. s.files.store.draft_bytes };

    ghost faults = { λ s. s.files.failures.faults };

    ghost absences = { λ s. s.files.store.absences };

    fn size(&mut self, name: &str) -> Result<u64, FileFail> {
        self.files.size(name)
    }

    fn read_at(&mut self, name: &str, from: u64, out: &mut [u8]) -> Result<usize, FileFail> {
        self.longest = self.longest.max(out.len());
        let read = self.reads;
        self.reads = increment(read);
        let room = self.room(from, out.len());
        if let Some(bytes) = self.changed(read) {
            let start = bytes.len().min(from as usize);
            let given = copy_front(&bytes[start..], &mut out[..room]);
            self.truthful = false;
            return Ok(given);
        }
        if room < out.len() {
            self.truthful = false;
            return self.files.read_at(name, from, &mut out[..room]);
        }
        self.files.read_at(name, from, out)
    }

    fn begin(&mut self, name: &str) -> Result<(), FileFail> {
        self.files.begin(name)
    }

    fn append(&mut self, piece: &[u8]) -> Result<(), FileFail> {
        self.files.append(piece)
    }

    fn publish(&mut self) -> Result<(), FileFail> {
        self.files.publish()
    }

    fn discard(&mut self) {
        self.files.discard();
    }
}
