//! Objects in memory that fail only when memory runs out. They report all that they hold.
ghost use Rattle.std.specs.Prelude.{◌≡◌, ◌<◌, ◌≤◌, [], ◌++◌, length, take, drop, find, Some, IfErr, IfOk, OnOk, OnErr, true};
ghost use Rattle.std.specs.Option.{option_copied};
ghost use Rattle.std.specs.Str.{bytes_eq};
ghost use Rattle.std.specs.FinMap as map;

use outside_core::{
    Bytes, FileFail, FileStore, NoMemory, Sink, SinkFail, Source, SourceFail, Text, increment,
};
use std::alloc::Global;
use std::marker::Model;

/// A file with its name.
#[derive(Drop)]
struct StoredFile {
    name: Text,
    bytes: Bytes,
}

/// The first file of a name.
fn find_file<'a>(files: &'a [StoredFile], name: &str) -> Option<&'a StoredFile>
    ensures { option_copied result ≡ find (λ f. bytes_eq name.now f.name) files.now }
{
    files.iter().find(|file| name == file.name.as_str())
}

/// A file of a name with these bytes.
fn stored_file(alloc: Global, name: &str, bytes: &[u8]) -> Result<StoredFile, NoMemory>
    ensures name { IfOk result (λ file. file.name ≡ name.now) }
    ensures bytes { IfOk result (λ file. file.bytes ≡ bytes.now) }
{
    let name = Text::of(alloc, name)?;
    let mut copy = Bytes::new(alloc);
    match copy.add(bytes) {
        Ok(()) => Ok(StoredFile { name, bytes: copy }),
        Err(none) => {
            drop(copy);
            drop(name);
            Err(none)
        }
    }
}

/// Copies the first of `bytes` to the start of `out`, as far as both reach. Gives the number of
/// bytes.
pub(crate) fn copy_front(bytes: &[u8], out: &mut [u8]) -> usize
    ensures within { result ≤ length bytes.now }
    ensures room { result ≤ length out.old }
    ensures whole { result < length out.old → result ≡ length bytes.now }
    ensures full { length out.old ≤ length bytes.now → result ≡ length out.old }
    ensures copied { take result out.new ≡ take result bytes.now }
{
    let n = bytes.len().min(out.len());
    out[..n].copy_from_slice(&bytes[..n]);
    n
}

/// A store of files in memory whose calls never fail: its count of faults is 0 for ever.
#[derive(Drop)]
pub struct SureFiles {
    alloc: Global,
    /// The newest first; one that is replaced stays after it.
    files: Vec<StoredFile>,
    draft: Option<StoredFile>,
    absences: u64,
}

impl Model for SureFiles {
    ghost use Rattle.std.specs.Prelude.{[], option_map};
    ghost use Rattle.std.specs.Option.{option_map_or};
    ghost use Rattle.outside_objects.specs.Memory.{Store, files_of};
    ghost use Rattle.outside_objects.specs.MemoryCodes.{store_code};

    ghost Value = { Store };

    ghost coded = { store_code };

    ghost view = { λ s. record {
      files = files_of s.files.items;
      draft_name = option_map
          (λ d. d.name) s.draft;
      draft_bytes = option_map_or (λ d. d.bytes) s.draft [];
      absences =
          s.absences;
    } };
}

impl SureFiles {
    ghost use Rattle.outside_objects.specs.Memory.{empty_store};

    /// A store without files.
    pub fn new(alloc: Global) -> SureFiles
        ensures { result ≡ empty_store }
    {
        SureFiles {
            alloc,
            files: Vec::new(alloc),
            draft: None,
            absences: 0,
        }
    }

    /// Puts a file under a name, in the place of any of that name. A refusal means that memory ran
    /// out, and changes nothing.
    pub fn put(&mut self, name: &str, bytes: &[u8]) -> Result<(), FileFail>
        ensures ok { OnOk result (self.new ≡ record self.old
            { files = map.insert self.old.files name.now bytes.now }) }
        ensures err { OnErr result (self.new ≡ self.old) }
        ensures memory { IfErr result (λ e. e ≡ FileFail.NoMemory) }
    {
        match stored_file(self.alloc, name, bytes) {
            Ok(file) => self.insert(file),
            Err(NoMemory) => Err(FileFail::NoMemory),
        }
    }

    /// Puts a file in the place of any of its name. A refusal changes nothing.
    fn insert(&mut self, file: StoredFile) -> Result<(), FileFail>
        ensures ok { OnOk result (self.new ≡ record self.old
            { files = map.insert self.old.files file.name file.bytes }) }
        ensures err { OnErr result (self.new ≡ self.old) }
        ensures memory { IfErr result (λ e. e ≡ FileFail.NoMemory) }
    {
        match self.files.insert(0, file) {
            Ok(()) => Ok(()),
            Err(failed) => {
                drop(failed);
                Err(FileFail::NoMemory)
            }
        }
    }

    /// The bytes of the file of a name.
    pub fn bytes(&self, name: &str) -> Option<&[u8]>
        ensures { option_copied result ≡ map.get self.now.files name.now }
    {
        match find_file(self.files.as_slice(), name) {
            Some(file) => Some(file.bytes.as_slice()),
            None => None,
        }
    }
}

impl FileStore for SureFiles {
    ghost files = { λ s. Some s.files };

    ghost truthful = { λ _. true };

    ghost draft_name = { λ s. s.draft_name };

    ghost draft_bytes = { λ s. s.draft_bytes };

    ghost faults = { λ s. 0 };

    ghost absences = { λ s. s.absences };

    fn size(&mut self, name: &str) -> Result<u64, FileFail> {
        if let Some(bytes) = self.bytes(name) {
            return Ok(bytes.len() as u64);
        }
        self.absences = increment(self.absences);
        Err(FileFail::NoSuchFile)
    }

    fn read_at(&mut self, name: &str, from: u64, out: &mut [u8]) -> Result<usize, FileFail> {
        if let Some(bytes) = self.bytes(name) {
            let start = bytes.len().min(from as usize);
            return Ok(copy_front(&bytes[start..], out));
        }
        self.absences = increment(self.absences);
        Err(FileFail::NoSuchFile)
    }

    fn begin(&mut self, name: &str) -> Result<(), FileFail> {
        drop(self.draft.take());
        match Text::of(self.alloc, name) {
            Ok(name) => {
                self.draft = Some(StoredFile {
                    name,
                    bytes: Bytes::new(self.alloc),
                });
                Ok(())
            }
            Err(NoMemory) => Err(FileFail::NoMemory),
        }
    }

    fn append(&mut self, piece: &[u8]) -> Result<(), FileFail> {
        let Some(mut draft) = self.draft.take() else {
            unreachable!()
        };
        let added = draft.bytes.add(piece);
        drop(self.draft.replace(draft));
        match added {
            Ok(()) => Ok(()),
            Err(NoMemory) => Err(FileFail::NoMemory),
        }
    }

    fn publish(&mut self) -> Result<(), FileFail> {
        let Some(draft) = self.draft.take() else {
            unreachable!()
        };
        self.insert(draft)
    }

    fn discard(&mut self) {
        drop(self.draft.take());
    }
}

/// A source over bytes in memory whose calls never fail: its count of faults is 0 for ever.
#[derive(Drop)]
pub struct SureSource {
    bytes: Bytes,
    read: usize,
}

impl Model for SureSource {
    ghost use Rattle.std.specs.Prelude.{List, ℕ, drop, length, ◌≤◌};

    ghost Value = { List ℕ };

    ghost view = { λ s. drop s.read s.bytes };

    ghost invariant = { λ s. s.read ≤ length s.bytes };
}

impl SureSource {
    /// A source at its end.
    pub fn new(alloc: Global) -> SureSource
        ensures { result ≡ [] }
    {
        SureSource {
            bytes: Bytes::new(alloc),
            read: 0,
        }
    }

    /// Appends bytes to those that are left. A refusal means that memory ran out, and changes
    /// nothing.
    pub fn fill_with(&mut self, bytes: &[u8]) -> Result<(), SinkFail>
        ensures ok { OnOk result (self.new ≡ self.old ++ bytes.now) }
        ensures err { OnErr result (self.new ≡ self.old) }
        ensures memory { IfErr result (λ e. e ≡ SinkFail.NoMemory) }
    {
        self.bytes.add(bytes)?;
        Ok(())
    }

    /// The bytes that are left.
    pub(crate) fn left(&self) -> &[u8]
        ensures { result.now ≡ self.now }
    {
        &self.bytes.as_slice()[self.read..]
    }

    /// Moves the first bytes of what is left to the start of `out`, as far as both reach. Gives the
    /// number of bytes.
    pub(crate) fn take_front(&mut self, out: &mut [u8]) -> usize
        ensures room { result ≤ length out.old }
        ensures whole { result < length out.old → self.new ≡ [] }
        ensures full { length out.old ≤ length self.old → result ≡ length out.old }
        ensures rest { self.old ≡ take result out.new ++ self.new }
    {
        let n = copy_front(&self.bytes.as_slice()[self.read..], out);
        self.read += n;
        n
    }
}

impl Source for SureSource {
    ghost left = { λ s. Some s };

    ghost truthful = { λ _. true };

    ghost faults = { λ s. 0 };

    fn read(&mut self, out: &mut [u8]) -> Result<usize, SourceFail> {
        Ok(self.take_front(out))
    }
}

/// A sink into memory whose calls fail only when memory runs out: its count of faults is 0 for
/// ever.
#[derive(Drop)]
pub struct SureSink {
    bytes: Bytes,
}

impl Model for SureSink {
    ghost use Rattle.std.specs.Prelude.{List, ℕ};

    ghost Value = { List ℕ };

    ghost view = { λ s. s.bytes };
}

impl SureSink {
    /// A sink that nothing was written to.
    pub fn new(alloc: Global) -> SureSink
        ensures { result ≡ [] }
    {
        SureSink {
            bytes: Bytes::new(alloc),
        }
    }

    /// The bytes written so far.
    pub fn written(&self) -> &[u8]
        ensures { result.now ≡ self.now }
    {
        self.bytes.as_slice()
    }
}

impl Sink for SureSink {
    ghost written = { λ s. Some s };

    ghost faults = { λ s. 0 };

    fn write(&mut self, piece: &[u8]) -> Result<usize, SinkFail> {
        self.bytes.add(piece)?;
        Ok(piece.len())
    }
}
