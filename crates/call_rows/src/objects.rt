//! The objects that calls are made over.

use crate::fault::Fault;
use keepass_call::keepass;
use outside_core::{Bytes, Dice, Source};
use outside_objects::{FileChange, MemoryDice, MemorySink, MemorySource, PieceFiles};
use std::alloc::Global;

/// How many bytes the dice of a row have, unless it says what they are.
const DICE_LEN: u16 = 1024;

/// Files, input, both outputs and dice, all in memory.
#[derive(Drop)]
pub struct Objects {
    alloc: Global,
    files: PieceFiles,
    input: MemorySource,
    out: MemorySink,
    err: MemorySink,
    dice: MemoryDice,
    /// How many bytes the dice have.
    dice_len: usize,
}

// Moves all that a source has left to the end of bytes.
fn drain_source(source: &mut MemorySource, bytes: &mut Vec<u8>) -> Result<(), Fault> {
    let mut piece = [0; 64];
    for _ in 0..u64::MAX {
        match source.read(&mut piece) {
            Ok(count) if count > 0 => bytes.extend_from_slice(&piece[..count])?,
            _ => break,
        }
    }
    Ok(())
}

// Moves all that dice have left to the end of bytes.
fn drain_dice(dice: &mut MemoryDice, bytes: &mut Vec<u8>) -> Result<(), Fault> {
    let mut next = [0; 1];
    for _ in 0..u64::MAX {
        match dice.fill(&mut next) {
            Ok(()) => bytes.push(next[0])?,
            Err(_) => break,
        }
    }
    Ok(())
}

impl Objects {
    /// No files, an empty input, and dice without bytes. No call is to fail.
    pub fn new(alloc: Global) -> Objects {
        Objects {
            alloc,
            files: PieceFiles::new(alloc),
            input: MemorySource::new(alloc),
            out: MemorySink::new(alloc),
            err: MemorySink::new(alloc),
            dice: MemoryDice::new(alloc),
            dice_len: 0,
        }
    }

    /// Puts a file under a name.
    pub fn put(&mut self, name: &str, bytes: &[u8]) -> Result<(), Fault> {
        self.files.files.put(name, bytes)?;
        Ok(())
    }

    /// The bytes of the file of a name, none where there is no such file.
    pub fn file(&self, name: &str) -> &[u8] {
        match self.files.files.bytes(name) {
            Some(bytes) => bytes,
            None => &[],
        }
    }

    /// What was written to the output.
    pub fn out(&self) -> &[u8] {
        self.out.written()
    }

    /// What was written to the error output.
    pub fn err(&self) -> &[u8] {
        self.err.written()
    }

    /// Lets these be the bytes of the input.
    pub fn set_input(&mut self, bytes: &[u8]) -> Result<(), Fault> {
        self.input = MemorySource::new(self.alloc);
        self.input.fill_with(bytes)?;
        Ok(())
    }

    /// Lets these be the bytes of the dice.
    pub fn set_dice(&mut self, bytes: &[u8]) -> Result<(), Fault> {
        self.dice = MemoryDice::new(self.alloc);
        self.dice.fill_with(bytes)?;
        self.dice_len = bytes.len();
        Ok(())
    }

    /// Lets the bytes of the dice count from 0 on, and again after 255.
    pub fn count_dice(&mut self) -> Result<(), Fault> {
        let mut bytes = Vec::new(self.alloc);
        for number in 0..DICE_LEN {
            bytes.push((number % 256) as u8)?;
        }
        self.set_dice(bytes.as_slice())
    }

    /// Lets the call of this number fail on an object of this name.
    pub fn fail(&mut self, object: &str, call: u64) -> Result<(), Fault> {
        match object {
            "files" => Ok(self.files.files.fail_at(call)?),
            "input" => Ok(self.input.fail_at(call)?),
            "out" => Ok(self.out.fail_at(call)?),
            "err" => Ok(self.err.fail_at(call)?),
            "dice" => Ok(self.dice.fail_at(call)?),
            _ => Err(Fault::BadWord),
        }
    }

    /// Lets no read of a file go over this place.
    pub fn cut(&mut self, place: u64) -> Result<(), Fault> {
        self.files.cuts.push(place)?;
        Ok(())
    }

    /// Lets a read of a file give at most so many bytes.
    pub fn set_most(&mut self, count: usize) {
        self.files.most = count;
    }

    /// Lets the file that is read have these bytes from the read of this number on.
    pub fn change(&mut self, first_read: u64, text: &[u8]) -> Result<(), Fault> {
        let mut bytes = Bytes::new(self.alloc);
        bytes.add(text)?;
        self.files.change = Some(FileChange { first_read, bytes });
        Ok(())
    }

    /// Gives the length of the longest array that a file was to be read into, since the last time.
    pub fn longest(&mut self) -> usize {
        let longest = self.files.longest;
        self.files.longest = 0;
        longest
    }

    /// Makes a call with these words at a moment, and gives its status.
    pub fn call(&mut self, words: &[String], now: u64) -> u8 {
        keepass(
            self.alloc,
            words,
            &mut self.files,
            &mut self.input,
            &mut self.out,
            &mut self.err,
            &mut self.dice,
            now,
        )
    }

    /// Gives how many bytes the input has left, and lets no call on it fail.
    pub fn input_left(&mut self) -> Result<usize, Fault> {
        let mut bytes = Vec::new(self.alloc);
        drain_source(&mut self.input, &mut bytes)?;
        self.set_input(bytes.as_slice())?;
        Ok(bytes.len())
    }

    /// Gives how many bytes were drawn since the last time, and lets no call on the dice fail.
    pub fn drawn(&mut self) -> Result<usize, Fault> {
        let before = self.dice_len;
        let mut bytes = Vec::new(self.alloc);
        drain_dice(&mut self.dice, &mut bytes)?;
        self.set_dice(bytes.as_slice())?;
        Ok(before.saturating_sub(bytes.len()))
    }

    /// Lets both outputs be empty, and no call on them fail.
    pub fn clear_outputs(&mut self) {
        self.out = MemorySink::new(self.alloc);
        self.err = MemorySink::new(self.alloc);
    }
}
