//! Bytes by their names.

use crate::fault::Fault;
use std::alloc::Global;

/// A name with its bytes.
#[derive(Drop)]
pub struct Named {
    name: String,
    bytes: Vec<u8>,
}

impl Named {
    /// The name.
    pub fn name(&self) -> &str {
        self.name.as_str()
    }

    /// The bytes.
    pub fn bytes(&self) -> &[u8] {
        self.bytes.as_slice()
    }

    /// Lets these be the bytes.
    pub fn set(&mut self, bytes: &[u8]) -> Result<(), Fault> {
        self.bytes.clear();
        self.append(bytes)
    }

    // Puts bytes after those that are there.
    fn append(&mut self, bytes: &[u8]) -> Result<(), Fault> {
        self.bytes.extend_from_slice(bytes)?;
        Ok(())
    }

    // Lets the byte at a place be this one.
    fn set_byte(&mut self, place: u64, byte: u8) -> Result<(), Fault> {
        match self.bytes.as_mut_slice().get_mut(place as usize) {
            Some(old) => {
                *old = byte;
                Ok(())
            }
            None => Err(Fault::NoSuchPlace),
        }
    }
}

/// Bytes by their names, which are all different.
#[derive(Drop)]
pub struct Table {
    alloc: Global,
    rows: Vec<Named>,
}

impl Table {
    /// A table without names.
    pub fn new(alloc: Global) -> Table {
        Table {
            alloc,
            rows: Vec::new(alloc),
        }
    }

    /// The names with their bytes.
    pub fn rows_mut(&mut self) -> &mut [Named] {
        self.rows.as_mut_slice()
    }

    /// The bytes of a name.
    pub fn bytes(&self, name: &str) -> Result<&[u8], Fault> {
        for row in self.rows.as_slice() {
            if row.name() == name {
                return Ok(row.bytes());
            }
        }
        Err(Fault::NoSuchName)
    }

    // The row of a name.
    fn row(&mut self, name: &str) -> Result<&mut Named, Fault> {
        for row in self.rows.as_mut_slice() {
            if row.name() == name {
                return Ok(row);
            }
        }
        Err(Fault::NoSuchName)
    }

    // Adds a name without bytes.
    fn add(&mut self, name: &str) -> Result<(), Fault> {
        let name = String::from_str(self.alloc, name)?;
        let bytes = Vec::new(self.alloc);
        self.rows.push(Named { name, bytes })?;
        Ok(())
    }

    /// Adds a name without bytes where it is not there.
    pub fn add_once(&mut self, name: &str) -> Result<(), Fault> {
        match self.bytes(name) {
            Ok(_) => Ok(()),
            Err(_) => self.add(name),
        }
    }

    /// Lets these be the bytes of a name.
    pub fn set(&mut self, name: &str, bytes: &[u8]) -> Result<(), Fault> {
        self.add_once(name)?;
        self.row(name)?.set(bytes)
    }

    /// Puts bytes after those of a name.
    pub fn append(&mut self, name: &str, bytes: &[u8]) -> Result<(), Fault> {
        self.add_once(name)?;
        self.row(name)?.append(bytes)
    }

    /// Lets the byte at a place of those of a name be this one.
    pub fn set_byte(&mut self, name: &str, place: u64, byte: u8) -> Result<(), Fault> {
        self.row(name)?.set_byte(place, byte)
    }
}
