//! The file of a session. It is read without its lock, and what was found of it is noted; the lock is
//! held only while a line of the session writes it, and that is refused where the file is no longer
//! what was noted.
use crate::drafts::{Base, Draft};
use crate::files::{HeldFile, hold_place, open_regular, place_of, refuse_changed};
use outside_core::Text;
use std::alloc::Global;
use std::fs::{File, Files, Metadata};
use std::io;
use std::io::ErrorKind;
use std::time::Clock;

/// What a session found of its file when it was first asked for, or what the session wrote since: the
/// path that its name led to then, and what the system said of the file.
#[derive(Drop)]
struct Note {
    place: String,
    found: Metadata,
}

impl Note {
    /// Opens the file for reading, which is still what was noted.
    fn open<R: Files<File = File>>(&self, rt: &R) -> io::Result<File> {
        let (file, found) = open_at(rt, self.place.as_str())?;
        match refuse_changed(&found, &self.found) {
            Ok(()) => Ok(file),
            Err(error) => {
                drop(file);
                Err(error)
            }
        }
    }

    /// Takes the lock of the file, which is still what was noted.
    fn hold<R: Files<File = File> + Clock>(&self, rt: &R, alloc: Global) -> io::Result<HeldFile> {
        let place = String::from_str(alloc, self.place.as_str())?;
        let held = hold_place(rt, place)?;
        match refuse_changed(&held.found, &self.found) {
            Ok(()) => Ok(held),
            Err(error) => {
                drop(held);
                Err(error)
            }
        }
    }
}

/// The regular file at a path, open for reading, and what the system says of it.
fn open_at<R: Files<File = File>>(rt: &R, place: &str) -> io::Result<(File, Metadata)> {
    let file = open_regular(rt, place)?;
    match file.metadata() {
        Ok(found) => Ok((file, found)),
        Err(error) => {
            drop(file);
            Err(error)
        }
    }
}

/// The file that a name leads to, open for reading, and what is noted of it.
fn open_first<R: Files<File = File>>(
    rt: &R,
    alloc: Global,
    name: &str,
) -> io::Result<(File, Note)> {
    let place = place_of(rt, alloc, name)?;
    match open_at(rt, place.as_str()) {
        Ok((file, found)) => Ok((file, Note { place, found })),
        Err(error) => {
            drop(place);
            Err(error)
        }
    }
}

/// The file of a session: what is noted of it, and the file itself while its lock is held.
#[derive(Drop)]
pub struct SessionFile {
    name: Text,
    note: Option<Note>,
    held: Option<HeldFile>,
}

impl SessionFile {
    /// The file of a name, which was not asked for yet.
    pub fn new(name: Text) -> SessionFile {
        SessionFile {
            name,
            note: None,
            held: None,
        }
    }

    /// Reports whether this is the name of the file.
    pub fn has_name(&self, name: &str) -> bool {
        self.name.as_str() == name
    }

    /// Opens the file for reading: what is found is noted the first time, and is to be what was noted
    /// from then on.
    pub fn open<R: Files<File = File>>(&mut self, rt: &R, alloc: Global) -> io::Result<File> {
        if let Some(note) = &self.note {
            return note.open(rt);
        }
        let (file, note) = open_first(rt, alloc, self.name.as_str())?;
        self.note = Some(note);
        Ok(file)
    }

    /// The file, held, which is still what was noted. A file that was not read is not written.
    fn hold_noted<R: Files<File = File> + Clock>(
        &self,
        rt: &R,
        alloc: Global,
    ) -> io::Result<HeldFile> {
        match &self.note {
            Some(note) => note.hold(rt, alloc),
            None => Err(io::Error::from(ErrorKind::NotFound)),
        }
    }

    /// What a draft of the file replaces: the file that was noted, which is held from now on.
    pub fn hold<R: Files<File = File> + Clock>(
        &mut self,
        rt: &R,
        alloc: Global,
    ) -> io::Result<Base> {
        let held = self.hold_noted(rt, alloc)?;
        match Base::of(alloc, &held) {
            Ok(base) => {
                self.held = Some(held);
                Ok(base)
            }
            Err(error) => {
                drop(held);
                Err(error)
            }
        }
    }

    /// Lets the file go, and its lock with it. What was noted stays.
    pub fn let_go(&mut self) {
        self.held = None;
    }

    /// Notes a draft that took the place of the file, of which the system said this before. Where that
    /// cannot be done, the old file stays noted, so that whatever has its place is not written again.
    pub fn note_draft(&mut self, draft: &Draft, before: &Metadata) {
        if let Some(note) = &mut self.note {
            if let Ok(found) = draft.look_after(before) {
                note.found = found;
            }
        }
    }
}
