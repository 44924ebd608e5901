//! The file that a call may write: held from when it is first asked for until it is written.
use crate::drafts::{Base, find_base};
use crate::files::{HeldFile, hold_file};
use outside_core::Text;
use std::alloc::Global;
use std::fs::{File, Files};
use std::io;
use std::io::ErrorKind;
use std::time::Clock;

/// What was found of the file that a call may write, when it was first asked for.
#[derive(Drop)]
enum Found {
    /// It was not asked for yet.
    Unasked,
    /// It was not there.
    Missing,
    /// It was there, and no other call writes it until this one lets it go.
    Held(HeldFile),
}

/// The file that a call may write.
#[derive(Drop)]
pub struct CallFile {
    name: Text,
    found: Found,
}

/// What was found of the file of a name, which is held from now on if it is there.
fn find<R: Files<File = File> + Clock>(rt: &R, alloc: Global, name: &str) -> io::Result<Found> {
    match hold_file(rt, alloc, name) {
        Ok(held) => Ok(Found::Held(held)),
        Err(error) if error.kind() == ErrorKind::NotFound => Ok(Found::Missing),
        Err(error) => Err(error),
    }
}

/// The file that was found, open for reading.
fn open_found(found: &Found) -> io::Result<File> {
    match found {
        Found::Held(held) => held.file.try_clone(),
        _ => Err(io::Error::from(ErrorKind::NotFound)),
    }
}

impl CallFile {
    /// The file of a name, which was not asked for yet.
    pub fn new(name: Text) -> CallFile {
        CallFile {
            name,
            found: Found::Unasked,
        }
    }

    /// Reports whether this is the name of the file.
    pub fn has_name(&self, name: &str) -> bool {
        self.name.as_str() == name
    }

    /// Opens the file as it was found first.
    pub fn open<R: Files<File = File> + Clock>(
        &mut self,
        rt: &R,
        alloc: Global,
    ) -> io::Result<File> {
        if let Found::Unasked = &self.found {
            self.found = find(rt, alloc, self.name.as_str())?;
        }
        open_found(&self.found)
    }

    /// What a draft of the file replaces: what was found of it first.
    pub fn base<R: Files>(&self, rt: &R, alloc: Global) -> io::Result<Base> {
        match &self.found {
            Found::Unasked => find_base(rt, alloc, self.name.as_str()),
            Found::Missing => Base::missing(alloc, self.name.as_str()),
            Found::Held(held) => Base::of(alloc, held),
        }
    }

    /// Lets the file go, and its lock with it: it is found anew where it is asked for again.
    pub fn let_go(&mut self) {
        self.found = Found::Unasked;
    }
}
