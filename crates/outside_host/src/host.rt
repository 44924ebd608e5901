//! The adapters to the host. They report a world of which nothing is known, and are truthful as long
//! as each answer of the disk, of the input and of the system's random bytes is what it would be in
//! that world: only an answer that disagrees ends it. Each error raises their count of faults.
ghost use Rattle.std.specs.Prelude.{◌≡◌, ◌≤◌, ◌&&◌, None, Some, [], length, true, IfOk, IsErrOf, OnOk, OnErr};
ghost use Rattle.std.specs.FinMap as map;
ghost use Rattle.outside_core.specs.Counts.{HasCause, Increased, increment};
ghost use Rattle.outside_host.specs.Answers.{after_fill, after_read, agrees_fill, agrees_open, agrees_read, agrees_size, agrees_window};

use crate::notes::{
    after_drawing, after_length, after_missing, after_publishing, after_reading, after_taking,
    after_window, none_taken, rest,
};
use crate::worlds::{ReportedBytes, ReportedFiles, Truthful, World, no_answer};
use outside_core::{
    Dice, DiceFail, FileFail, FileStore, Sink, SinkFail, Source, SourceFail, Text, increment,
};
use outside_disk::{Disk, Draft, WritableFile, file_len, read_from};
use std::alloc::Global;
use std::fs::{File, Files};
use std::io::{ErrorKind, Read};
use std::marker::Model;
use std::random::RandomSource;
use std::time::Clock;

/// A file that is open for reading, with the name that it was opened by.
#[derive(Drop)]
struct OpenedFile {
    name: Text,
    file: File,
}

/// A file in the making, with the name that it is for and the bytes that the disk took for it.
#[derive(Drop)]
struct HostDraft {
    name: Text,
    draft: Draft,
    bytes: ReportedBytes,
}

/// The files of the host. A draft is written beside the file that it is for, and brought to the disk
/// before it takes the place of that file. What they report are the files of a world, and in their
/// place those that were published since.
#[derive(Drop)]
pub struct HostFiles<'a, R: Files<File = File> + RandomSource + Clock> {
    disk: Disk<'a, R>,
    alloc: Global,
    reading: Option<OpenedFile>,
    draft: Option<HostDraft>,
    files: ReportedFiles,
    truthful: Truthful,
    faults: u64,
    absences: u64,
}

impl<'a, R: Files<File = File> + RandomSource + Clock> Model for HostFiles<'a, R> {
    ghost use Rattle.std.specs.Prelude.{[], option_map};
    ghost use Rattle.std.specs.Option.{option_map_or};
    ghost use Rattle.outside_host.specs.Host.{HostStore, store_code};

    ghost Value = { HostStore };

    ghost coded = { store_code };

    ghost view = { λ s. record {
      files = s.files.value;
      truthful = s.truthful.value;
      draft_name = option_map (λ d. d.name) s.draft;
      draft_bytes = option_map_or (λ d. d.bytes.value) s.draft [];
      faults = s.faults;
      absences = s.absences;
    } };
}

impl<'a, R: Files<File = File> + RandomSource + Clock> HostFiles<'a, R> {
    /// The files of the host that `rt` gives access to. The file `target`, where one is given, is the
    /// one that may be written. While another call holds its lock, this one waits for it, at most ten
    /// seconds. They report the files of this world.
    pub fn new(
        rt: &'a R,
        alloc: Global,
        target: Option<WritableFile>,
        world: &World,
    ) -> HostFiles<'a, R>
        ensures { result ≡ record {
          files = world.now.files;
          truthful = true;
          draft_name = None;
          draft_bytes = [];
          faults = 0;
          absences = 0;
        } }
    {
        HostFiles {
            disk: Disk::new(rt, alloc, target),
            alloc,
            reading: None,
            draft: None,
            files: world.files(),
            truthful: no_answer(),
            faults: 0,
            absences: 0,
        }
    }

    /// Counts a fault, and gives the refusal that reports it.
    fn fault(&mut self) -> FileFail
        ensures refusal { result ≡ FileFail.Failed }
        ensures counted { self.new ≡ record self.old { faults = increment self.old.faults } }
        ensures later { self.old.faults ≤ self.new.faults }
        ensures rose { Increased self.old.faults self.new.faults }
    {
        self.faults = increment(self.faults);
        FileFail::Failed
    }

    /// The file that was read last, if it has this name.
    fn take_reading(&mut self, name: &str) -> Option<OpenedFile>
        ensures { self.new ≡ self.old }
    {
        let opened = self.reading.take()?;
        if opened.name.as_str() == name {
            Some(opened)
        } else {
            drop(opened);
            None
        }
    }

    /// The file of a name, opened now.
    fn open_anew(&mut self, name: &str) -> Result<OpenedFile, FileFail>
        ensures truthful { self.new.truthful ≡ (agrees_open name.now result self.old.files
            && self.old.truthful) }
        ensures files { self.new.files ≡ self.old.files }
        ensures draft_name { self.new.draft_name ≡ self.old.draft_name }
        ensures draft_bytes { self.new.draft_bytes ≡ self.old.draft_bytes }
        ensures faults { HasCause FileFail.Failed self.old.faults self.new.faults result }
        ensures no_fault { IsErrOf result FileFail.NoSuchFile → self.new.faults ≡ self.old.faults }
        ensures absences { HasCause FileFail.NoSuchFile self.old.absences self.new.absences result }
    {
        let Ok(kept) = Text::of(self.alloc, name) else {
            return Err(FileFail::NoMemory);
        };
        match self.disk.open(name) {
            Ok(file) => Ok(OpenedFile { name: kept, file }),
            Err(error) if error.kind() == ErrorKind::NotFound => {
                drop(kept);
                self.truthful = after_missing(&self.truthful, &self.files, name);
                self.absences = increment(self.absences);
                Err(FileFail::NoSuchFile)
            }
            Err(error) if error.kind() == ErrorKind::OutOfMemory => {
                drop(kept);
                Err(FileFail::NoMemory)
            }
            Err(_error) => {
                drop(kept);
                Err(self.fault())
            }
        }
    }

    /// The file of a name, open: the one that was read last, if it has this name.
    fn open(&mut self, name: &str) -> Result<OpenedFile, FileFail>
        ensures truthful { self.new.truthful ≡ (agrees_open name.now result self.old.files
            && self.old.truthful) }
        ensures files { self.new.files ≡ self.old.files }
        ensures draft_name { self.new.draft_name ≡ self.old.draft_name }
        ensures draft_bytes { self.new.draft_bytes ≡ self.old.draft_bytes }
        ensures faults { HasCause FileFail.Failed self.old.faults self.new.faults result }
        ensures no_fault { IsErrOf result FileFail.NoSuchFile → self.new.faults ≡ self.old.faults }
        ensures absences { HasCause FileFail.NoSuchFile self.old.absences self.new.absences result }
    {
        match self.take_reading(name) {
            Some(opened) => Ok(opened),
            None => self.open_anew(name),
        }
    }

    /// A draft of a name, without a byte so far.
    fn new_draft(&mut self, name: &str) -> Result<HostDraft, FileFail>
        ensures name { IfOk result (λ draft. draft.name ≡ name.now) }
        ensures bytes { IfOk result (λ draft. draft.bytes.value ≡ []) }
        ensures truthful { self.new.truthful ≡ self.old.truthful }
        ensures files { self.new.files ≡ self.old.files }
        ensures draft_name { self.new.draft_name ≡ self.old.draft_name }
        ensures not_missing { ¬ IsErrOf result FileFail.NoSuchFile }
        ensures faults { HasCause FileFail.Failed self.old.faults self.new.faults result }
        ensures absences { self.new.absences ≡ self.old.absences }
    {
        let Ok(kept) = Text::of(self.alloc, name) else {
            return Err(FileFail::NoMemory);
        };
        match self.disk.begin(name) {
            Ok(draft) => Ok(HostDraft {
                name: kept,
                draft,
                bytes: none_taken(),
            }),
            Err(error) if error.kind() == ErrorKind::OutOfMemory => {
                drop(kept);
                Err(FileFail::NoMemory)
            }
            Err(_error) => {
                drop(kept);
                Err(self.fault())
            }
        }
    }

    /// Gives up the draft, if there is one, and removes its file; where that fails, it is a fault.
    fn remove_draft(&mut self) -> Result<(), FileFail>
        ensures no_draft { self.new.draft_name ≡ None }
        ensures truthful { self.new.truthful ≡ self.old.truthful }
        ensures files { self.new.files ≡ self.old.files }
        ensures not_missing { ¬ IsErrOf result FileFail.NoSuchFile }
        ensures faults { HasCause FileFail.Failed self.old.faults self.new.faults result }
        ensures absences { self.new.absences ≡ self.old.absences }
    {
        let Some(draft) = self.draft.take() else {
            return Ok(());
        };
        let removed = self.disk.remove(&draft.draft);
        drop(draft);
        match removed {
            Ok(()) => Ok(()),
            Err(_error) => Err(self.fault()),
        }
    }

    /// The length of a file, as the disk answers. The store is truthful after it where it was before
    /// and the answer is that of the files that it reports.
    fn answer_size(&mut self, name: &str) -> Result<u64, FileFail>
        ensures truthful { self.new.truthful ≡ (agrees_size name.now result self.old.files
            && self.old.truthful) }
        ensures files { self.new.files ≡ self.old.files }
        ensures draft_name { self.new.draft_name ≡ self.old.draft_name }
        ensures draft_bytes { self.new.draft_bytes ≡ self.old.draft_bytes }
        ensures faults { HasCause FileFail.Failed self.old.faults self.new.faults result }
        ensures no_fault { IsErrOf result FileFail.NoSuchFile → self.new.faults ≡ self.old.faults }
        ensures absences { HasCause FileFail.NoSuchFile self.old.absences self.new.absences result }
    {
        drop(self.reading.take());
        let opened = self.open(name)?;
        match file_len(&opened.file) {
            Ok(len) => {
                self.truthful = after_length(&self.truthful, &self.files, name, len);
                drop(self.reading.replace(opened));
                Ok(len)
            }
            Err(_error) => {
                drop(opened);
                Err(self.fault())
            }
        }
    }

    /// Bytes of a file from an offset on, as the disk answers. The store is truthful after it where
    /// it was before and the answer is that of the files that it reports.
    fn answer_window(&mut self, name: &str, from: u64, out: &mut [u8]) -> Result<usize, FileFail>
        ensures bound { IfOk result (λ n. n ≤ length out.new) }
        ensures truthful { self.new.truthful
            ≡ (agrees_window name.now from out.new result self.old.files && self.old.truthful) }
        ensures files { self.new.files ≡ self.old.files }
        ensures draft_name { self.new.draft_name ≡ self.old.draft_name }
        ensures draft_bytes { self.new.draft_bytes ≡ self.old.draft_bytes }
        ensures faults { HasCause FileFail.Failed self.old.faults self.new.faults result }
        ensures absences { HasCause FileFail.NoSuchFile self.old.absences self.new.absences result }
    {
        let mut opened = self.open(name)?;
        match read_from(&mut opened.file, from, out) {
            Ok(read) => {
                self.truthful = after_window(&self.truthful, &self.files, name, from, out, read);
                drop(self.reading.replace(opened));
                Ok(read)
            }
            Err(_error) => {
                drop(opened);
                Err(self.fault())
            }
        }
    }

    /// Brings a draft to the disk under this name. Once the disk has taken it, the store reports a
    /// file of just this name and of the bytes that the draft took.
    fn publish_as(&mut self, draft: &HostDraft, name: &str) -> Result<(), FileFail>
        ensures ok { OnOk result (self.new.files
            ≡ map.insert self.old.files name.now draft.now.bytes.value) }
        ensures err { OnErr result (self.new.files ≡ self.old.files) }
        ensures truthful { self.new.truthful ≡ self.old.truthful }
        ensures draft_name { self.new.draft_name ≡ self.old.draft_name }
        ensures not_missing { ¬ IsErrOf result FileFail.NoSuchFile }
        ensures faults { HasCause FileFail.Failed self.old.faults self.new.faults result }
        ensures absences { self.new.absences ≡ self.old.absences }
    {
        match self.disk.publish(&draft.draft, name) {
            Ok(()) => {
                self.files = after_publishing(&self.files, name, &draft.bytes);
                Ok(())
            }
            Err(_error) => Err(self.fault()),
        }
    }
}

impl<'a, R: Files<File = File> + RandomSource + Clock> FileStore for HostFiles<'a, R> {
    ghost files = { λ s. Some s.files };

    ghost truthful = { λ s. s.truthful };

    ghost draft_name = { λ s. s.draft_name };

    ghost draft_bytes = { λ s. s.draft_bytes };

    ghost faults = { λ s. s.faults };

    ghost absences = { λ s. s.absences };

    fn size(&mut self, name: &str) -> Result<u64, FileFail> {
        self.answer_size(name)
    }

    fn read_at(&mut self, name: &str, from: u64, out: &mut [u8]) -> Result<usize, FileFail> {
        self.answer_window(name, from, out)
    }

    fn begin(&mut self, name: &str) -> Result<(), FileFail> {
        self.remove_draft()?;
        match self.new_draft(name) {
            Ok(draft) => {
                self.draft = Some(draft);
                Ok(())
            }
            Err(fail) => Err(fail),
        }
    }

    fn append(&mut self, piece: &[u8]) -> Result<(), FileFail> {
        let Some(mut draft) = self.draft.take() else {
            unreachable!()
        };
        match draft.draft.append(piece) {
            Ok(()) => {
                draft.bytes = after_taking(&draft.bytes, piece);
                self.draft = Some(draft);
                Ok(())
            }
            Err(_error) => {
                self.draft = Some(draft);
                Err(self.fault())
            }
        }
    }

    fn publish(&mut self) -> Result<(), FileFail> {
        let Some(draft) = self.draft.take() else {
            unreachable!()
        };
        drop(self.reading.take());
        let published = self.publish_as(&draft, draft.name.as_str());
        drop(draft);
        published
    }

    fn discard(&mut self) {
        match self.remove_draft() {
            Ok(()) => {}
            Err(_fail) => {}
        }
    }
}

/// A reader of the host as a source, such as standard input. It reports the input of a world, without
/// the bytes that were read.
#[derive(Drop)]
pub struct HostInput<R: Read + Drop> {
    reader: R,
    left: ReportedBytes,
    truthful: Truthful,
    faults: u64,
}

impl<R: Read + Drop> Model for HostInput<R> {
    ghost use Rattle.outside_host.specs.Host.{HostStream, stream_code};

    ghost Value = { HostStream };

    ghost coded = { stream_code };

    ghost view = { λ s. record {
      left = s.left.value;
      truthful = s.truthful.value;
      faults = s.faults;
    } };
}

impl<R: Read + Drop> HostInput<R> {
    /// A source over this reader, without a fault so far. It reports the input of this world.
    pub fn new(reader: R, world: &World) -> HostInput<R>
        ensures { result ≡ record { left = world.now.input; truthful = true; faults = 0 } }
    {
        HostInput {
            reader,
            left: world.input(),
            truthful: no_answer(),
            faults: 0,
        }
    }

    /// The next bytes, as the reader answers. The source is truthful after it where it was before and
    /// the bytes are the next of those that it reports.
    fn answer_read(&mut self, out: &mut [u8]) -> Result<usize, SourceFail>
        ensures bound { IfOk result (λ n. n ≤ length out.new) }
        ensures truthful { self.new.truthful ≡ (agrees_read out.new result self.old.left
            && self.old.truthful) }
        ensures left { self.new.left ≡ after_read result self.old.left }
        ensures faults { HasCause SourceFail.Failed self.old.faults self.new.faults result }
    {
        match self.reader.read(out) {
            Ok(given) => {
                self.truthful = after_reading(&self.truthful, &self.left, out, given);
                self.left = rest(&self.left, given);
                Ok(given)
            }
            Err(_error) => {
                self.faults = increment(self.faults);
                Err(SourceFail::Failed)
            }
        }
    }
}

impl<R: Read + Drop> Source for HostInput<R> {
    ghost left = { λ s. Some s.left };

    ghost truthful = { λ s. s.truthful };

    ghost faults = { λ s. s.faults };

    fn read(&mut self, out: &mut [u8]) -> Result<usize, SourceFail> {
        self.answer_read(out)
    }
}

/// Standard output or standard error of the host as a sink, which reports the bytes that it took.
#[derive(Drop)]
pub struct HostOutput<'a, P: Print> {
    print: &'a P,
    taken: ReportedBytes,
    faults: u64,
}

impl<'a, P: Print> Model for HostOutput<'a, P> {
    ghost use Rattle.outside_host.specs.Host.{HostSink, sink_code};

    ghost Value = { HostSink };

    ghost coded = { sink_code };

    ghost view = { λ s. record { bytes = s.taken.value; faults = s.faults } };
}

impl<'a, P: Print> HostOutput<'a, P> {
    /// A sink over this output, which took no byte so far.
    pub fn new(print: &'a P) -> HostOutput<'a, P>
        ensures { result ≡ record { bytes = []; faults = 0 } }
    {
        HostOutput {
            print,
            taken: none_taken(),
            faults: 0,
        }
    }
}

impl<'a, P: Print> Sink for HostOutput<'a, P> {
    ghost written = { λ s. Some s.bytes };

    ghost faults = { λ s. s.faults };

    fn write(&mut self, piece: &[u8]) -> Result<usize, SinkFail> {
        match self.print.write_some(piece) {
            Ok(n) if 0 < n || piece.is_empty() => {
                self.taken = after_taking(&self.taken, &piece[..n]);
                Ok(n)
            }
            _ => {
                self.faults = increment(self.faults);
                Err(SinkFail::Failed)
            }
        }
    }
}

/// The random bytes of the host as dice. They report those of a world, without the bytes that were
/// drawn.
#[derive(Drop)]
pub struct HostDice<'a, R: RandomSource> {
    source: &'a R,
    left: ReportedBytes,
    truthful: Truthful,
    faults: u64,
}

impl<'a, R: RandomSource> Model for HostDice<'a, R> {
    ghost use Rattle.outside_host.specs.Host.{HostStream, stream_code};

    ghost Value = { HostStream };

    ghost coded = { stream_code };

    ghost view = { λ s. record {
      left = s.left.value;
      truthful = s.truthful.value;
      faults = s.faults;
    } };
}

impl<'a, R: RandomSource> HostDice<'a, R> {
    /// Dice over this source of random bytes, without a fault so far. They report the random bytes of
    /// this world.
    pub fn new(source: &'a R, world: &World) -> HostDice<'a, R>
        ensures { result ≡ record { left = world.now.dice; truthful = true; faults = 0 } }
    {
        HostDice {
            source,
            left: world.dice(),
            truthful: no_answer(),
            faults: 0,
        }
    }

    /// The next random bytes, as the host answers. The dice are truthful after it where they were
    /// before and the bytes are the next of those that they report.
    fn answer_fill(&mut self, out: &mut [u8]) -> Result<(), DiceFail>
        ensures truthful { self.new.truthful ≡ (agrees_fill out.new result self.old.left
            && self.old.truthful) }
        ensures left { self.new.left ≡ after_fill out.new result self.old.left }
        ensures faults { HasCause DiceFail.Failed self.old.faults self.new.faults result }
    {
        match self.source.fill_bytes(out) {
            Ok(()) => {
                self.truthful = after_drawing(&self.truthful, &self.left, out);
                self.left = rest(&self.left, out.len());
                Ok(())
            }
            Err(_error) => {
                self.faults = increment(self.faults);
                Err(DiceFail::Failed)
            }
        }
    }
}

impl<'a, R: RandomSource> Dice for HostDice<'a, R> {
    ghost stream = { λ s. Some s.left };

    ghost truthful = { λ s. s.truthful };

    ghost faults = { λ s. s.faults };

    fn fill(&mut self, out: &mut [u8]) -> Result<(), DiceFail> {
        self.answer_fill(out)
    }
}
