//! Writes plain documents as texts and seals them as files of KDBX 3.1, 4.0 and 4.1, for tests and for
//! measurements. The words of the command line say what is done, and what comes of it is printed:
//!
//! | Words | What is done, and what is printed |
//! |---|---|
//! | `write MANNER DOCUMENT` | the document of a file is written: the manners are below |
//! | `seal VERSION CIPHER KDF PUBLIC PASSWORD DOCUMENT CALL [another]` | the document is sealed |
//! | | in memory, and what is in that file is sealed again: its length and its SHA-256 |
//! | `seal-file VERSION CIPHER KDF PUBLIC PASSWORD DOCUMENT FILE TIMES` | the document is sealed as |
//! | | a file, as often as asked: how many bytes of memory the process held before |
//! | `open-file PASSWORD FILE TIMES` | the file is opened, as often as asked: `opened` |
//!
//! | Manner | What is written, and what is printed |
//! |---|---|
//! | `text` | the document by itself: that text |
//! | `length` | the document by itself: the length of its text |
//! | `read` | nothing, the document is only read: 0 |
//! | `plain` | the document by itself |
//! | `v3`, `v4` | the document for a file of KDBX 3.1 or 4, under the clear stream |
//! | `v3-hidden`, `v4-hidden` | the same under ChaCha20 |
//! | `again` | the document by itself, once it was written as by `v4-hidden`, and read again |
//! | `another` | the document by itself, with one entry more |
//! | `owners` | nothing: how many own the bytes of an attachment, once its version is copied |
//!
//! Of the manners that name nothing else, the length of the text and its SHA-256 are printed. A
//! refusal is printed as an error, and the status is 1.
//!
//! Without words the program answers the rows of standard input: such words, and after ` = ` what is
//! to come of them, a refusal too. For each a line is printed, which ends in `ok` or says what came
//! of it. Empty lines and lines that begin with `#` are passed over.
#![tactic(auto)]

mod answers;
mod choices;
mod disk;
mod documents;
mod fault;
mod memory;
mod row;
mod sealing;
mod sums;
mod texts;
mod writing;

use crate::answers::answer;
use crate::fault::Fault;
use crate::row::Row;
use std::alloc::{AllocError, Global};
use std::fs::{File, Files};
use std::process::ExitCode;
use std::random::RandomSource;
use std::time::Clock;
use std::{env, io};

// What comes of the words of a line.
fn outcome(
    rt: &(impl Files<File = File> + RandomSource + Clock + AllocGlobal),
    words: &str,
) -> Result<String, AllocError> {
    let row = Row::of_line(rt.alloc(), words)?;
    match answer(rt, &row) {
        Ok(text) => Ok(text),
        Err(fault) => fault.words(rt.alloc()),
    }
}

// The words of a line, and what is to come of them, which is empty where none is given.
fn parts(line: &str) -> (&str, &str) {
    match line.split_once(" = ") {
        Some(parts) => parts,
        None => (line, ""),
    }
}

// Prints whether what comes of a line of the input, which has this number, is what is to come of it.
fn judge(
    rt: &(impl Files<File = File> + RandomSource + Clock + Print + AllocGlobal),
    number: usize,
    line: &str,
) -> io::Result<()> {
    let (words, wanted) = parts(line);
    let found = outcome(rt, words)?;
    if found.as_str() == wanted {
        println!(rt; "line {number}: ok")
    } else {
        println!(rt; "line {number}: {found}")
    }
}

// Judges the lines of standard input.
fn judge_lines(
    rt: &(impl Files<File = File> + RandomSource + Clock + Input + Print + AllocGlobal),
) -> io::Result<ExitCode> {
    for (index, line) in rt.lines(rt.alloc()).enumerate() {
        let line = line?;
        if line.is_empty() || line.starts_with('#') {
            continue;
        }
        judge(rt, index.saturating_add(1), &line)?;
    }
    Ok(ExitCode::SUCCESS)
}

// Prints what comes of the command line, and gives the status of the process.
fn report(rt: &impl Print, text: &str) -> io::Result<ExitCode> {
    println!(rt; "{text}")?;
    Ok(ExitCode::SUCCESS)
}

// Prints a refusal as an error, and gives the status of the process.
fn refuse(rt: &(impl Eprint + AllocGlobal), fault: Fault) -> io::Result<ExitCode> {
    let text = fault.words(rt.alloc())?;
    eprintln!(rt; "{text}")?;
    Ok(ExitCode::from(1))
}

// Does what the words of the command line ask for, and gives the status of the process.
fn obey(
    rt: &(impl Files<File = File> + RandomSource + Clock + Print + Eprint + AllocGlobal),
    words: &[String],
) -> io::Result<ExitCode> {
    let row = Row::of_words(rt.alloc(), words)?;
    match answer(rt, &row) {
        Ok(text) => report(rt, text.as_str()),
        Err(fault) => refuse(rt, fault),
    }
}

fn main(rt: HostRuntime) -> io::Result<ExitCode> {
    let words: Vec<String> = env::args(&rt)?.skip(1).collect(rt.alloc())?;
    if words.is_empty() {
        judge_lines(&rt)
    } else {
        obey(&rt, words.as_slice())
    }
}
