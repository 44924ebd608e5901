//! The files that one call reads and writes, or one session.
use crate::calls::CallFile;
use crate::drafts::{Base, Draft, find_base, new_draft};
use crate::files::{FileId, id_of, open_regular};
use crate::sessions::SessionFile;
use outside_core::Text;
use std::alloc::Global;
use std::fs::{File, Files, Metadata};
use std::io;
use std::random::RandomSource;
use std::time::Clock;

/// The name of a file that may be written, and how long its lock is held.
#[derive(Drop)]
pub enum WritableFile {
    /// The file of one call, which writes it once: it is locked before it is read, until it is
    /// written, so that another call reads what this one wrote.
    OfCall(Text),
    /// The file of a session, which writes it as often as its lines do. It is locked only while one of
    /// them writes it, which is refused where another program, or another call, wrote it since.
    OfSession(Text),
}

/// The file that may be written.
#[derive(Drop)]
enum Target {
    OfCall(CallFile),
    OfSession(SessionFile),
}

impl Target {
    /// The file, which was not asked for yet.
    fn new(file: WritableFile) -> Target {
        match file {
            WritableFile::OfCall(name) => Target::OfCall(CallFile::new(name)),
            WritableFile::OfSession(name) => Target::OfSession(SessionFile::new(name)),
        }
    }

    /// Reports whether this is the name of the file.
    fn has_name(&self, name: &str) -> bool {
        match self {
            Target::OfCall(file) => file.has_name(name),
            Target::OfSession(file) => file.has_name(name),
        }
    }

    /// Opens the file for reading.
    fn open<R: Files<File = File> + Clock>(&mut self, rt: &R, alloc: Global) -> io::Result<File> {
        match self {
            Target::OfCall(file) => file.open(rt, alloc),
            Target::OfSession(file) => file.open(rt, alloc),
        }
    }

    /// What a draft of the file replaces, which a session holds from now on.
    fn base<R: Files<File = File> + Clock>(&mut self, rt: &R, alloc: Global) -> io::Result<Base> {
        match self {
            Target::OfCall(file) => file.base(rt, alloc),
            Target::OfSession(file) => file.hold(rt, alloc),
        }
    }

    /// Lets the file go once a draft of it was given up. A call goes on to hold its own.
    fn give_up(&mut self) {
        match self {
            Target::OfCall(_) => {}
            Target::OfSession(file) => file.let_go(),
        }
    }

    /// Lets the file go once a draft was published, or could not be.
    fn let_go(&mut self) {
        match self {
            Target::OfCall(file) => file.let_go(),
            Target::OfSession(file) => file.let_go(),
        }
    }

    /// Notes a draft of the file that was published, of which the system said this before. A call
    /// notes nothing.
    fn note_draft(&mut self, draft: &Draft, before: &Metadata) {
        match self {
            Target::OfCall(_) => {}
            Target::OfSession(file) => file.note_draft(draft, before),
        }
    }
}

/// Opens any other file, and notes that it is read.
fn open_other<R: Files<File = File>>(
    rt: &R,
    read: &mut Vec<FileId>,
    name: &str,
) -> io::Result<File> {
    let file = open_regular(rt, name)?;
    read.push(id_of(&file.metadata()?))?;
    Ok(file)
}

/// The files of a disk, as one call or one session reads and writes them: the one that it may write,
/// and which others it has read. What a draft replaces is what was found. Of the file that it may
/// write, no other call that may write it goes on while the lock is held.
#[derive(Drop)]
pub struct Disk<'a, R: Files<File = File> + RandomSource + Clock> {
    rt: &'a R,
    alloc: Global,
    target: Option<Target>,
    read: Vec<FileId>,
}

impl<'a, R: Files<File = File> + RandomSource + Clock> Disk<'a, R> {
    /// The files that `rt` gives access to. The file `target`, where one is given, is the one that may
    /// be written. While another call holds its lock, this one waits for it, at most ten seconds.
    pub fn new(rt: &'a R, alloc: Global, target: Option<WritableFile>) -> Disk<'a, R> {
        Disk {
            rt,
            alloc,
            target: target.map(|file| Target::new(file)),
            read: Vec::new(alloc),
        }
    }

    /// Opens the regular file of a name for reading: the one that may be written, as it was found
    /// first or as it was written since, or any other.
    pub fn open(&mut self, name: &str) -> io::Result<File> {
        match &mut self.target {
            Some(target) if target.has_name(name) => target.open(self.rt, self.alloc),
            _ => open_other(self.rt, &mut self.read, name),
        }
    }

    /// What a draft of the file of a name replaces.
    fn base(&mut self, name: &str) -> io::Result<Base> {
        match &mut self.target {
            Some(target) if target.has_name(name) => target.base(self.rt, self.alloc),
            _ => find_base(self.rt, self.alloc, name),
        }
    }

    /// Lets the file of a session go, since a draft came to nothing.
    fn give_up(&mut self) {
        if let Some(target) = &mut self.target {
            target.give_up();
        }
    }

    /// An empty draft of the file of a name, beside it.
    pub fn begin(&mut self, name: &str) -> io::Result<Draft> {
        let base = self.base(name)?;
        match new_draft(self.rt, self.alloc, base, self.read.as_slice()) {
            Ok(draft) => Ok(draft),
            Err(error) => {
                self.give_up();
                Err(error)
            }
        }
    }

    /// Lets the file go that may be written: a draft was published, or could not be.
    fn let_go(&mut self) {
        if let Some(target) = &mut self.target {
            target.let_go();
        }
    }

    /// Notes what became of the file of a name, of whose draft the system said this before.
    fn note_draft(&mut self, draft: &Draft, name: &str, before: &Metadata) {
        match &mut self.target {
            Some(target) if target.has_name(name) => target.note_draft(draft, before),
            _ => {}
        }
    }

    /// Brings a draft to the disk, and gives it the name that it is for. Where that fails, the draft is
    /// removed. The file that was to be written is let go, and its lock with it; a second name of that
    /// file which an import left then goes, too.
    pub fn publish(&mut self, draft: &Draft, name: &str) -> io::Result<()> {
        match draft.publish(self.rt, name) {
            Ok(before) => {
                self.note_draft(draft, name, &before);
                drop(before);
                self.let_go();
                let _ = draft.remove_second_names(self.rt, self.alloc, self.read.as_slice());
                Ok(())
            }
            Err(error) => {
                self.let_go();
                Err(error)
            }
        }
    }

    /// Removes a draft. The file of a session is let go.
    pub fn remove(&mut self, draft: &Draft) -> io::Result<()> {
        let removed = draft.remove(self.rt);
        self.give_up();
        removed
    }
}
