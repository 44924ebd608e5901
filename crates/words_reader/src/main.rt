//! Reads lists of words as the program reads them. Each line of standard input is a list, with a tab
//! after each word. For each a line is printed: the command that the words are and what it says, or
//! `open` and the database of the session, or `generate` and how the password is generated, or
//! `selftest` and the number of entries, with a tab after each part, or `wrong`.
#![tactic(auto)]

mod parts;
mod written;

use crate::written::{written, written_alone, written_opening};
use cli_messages::Stop;
use cli_needs::Command;
use cli_parse::read_words;
use cli_sessions::{SessionDatabase, read_opening};
use cli_standalone::read_standalone;
use std::alloc::{AllocError, Global};
use std::io::{self, BufRead, BufReader};

// The words of a line.
fn words_of(alloc: Global, line: &str) -> Result<Vec<String>, AllocError> {
    let pieces: Vec<&str> = line.split_terminator('\t').collect(alloc)?;
    let mut words = Vec::new(alloc);
    for piece in pieces.as_slice() {
        words.push(String::from_str(alloc, *piece)?)?;
    }
    Ok(words)
}

// Prints the command without a database that words are, and what it says.
fn answer_alone(rt: &impl Print, alloc: Global, words: &[String]) -> io::Result<()> {
    match read_standalone(alloc, words) {
        Ok(Some(standalone)) => {
            let parts = written_alone(alloc, &standalone)?;
            println!(rt; "{}", parts.as_str())
        }
        Ok(None) => println!(rt; "wrong"),
        Err(_) => println!(rt; "out of memory"),
    }
}

// Prints the database of the session that words open.
fn answer_session(rt: &impl Print, alloc: Global, database: &SessionDatabase) -> io::Result<()> {
    let parts = written_opening(alloc, database)?;
    println!(rt; "{}", parts.as_str())
}

// Prints the session that words open, or the command without a database that they are.
fn answer_other(rt: &impl Print, alloc: Global, words: &[String]) -> io::Result<()> {
    match read_opening(alloc, words) {
        Ok(Some(database)) => {
            let answered = answer_session(rt, alloc, &database);
            drop(database);
            answered
        }
        Ok(None) => answer_alone(rt, alloc, words),
        Err(_) => println!(rt; "out of memory"),
    }
}

// Prints a command and what it says.
fn answer_command(rt: &impl Print, alloc: Global, command: &Command) -> io::Result<()> {
    let parts = written(alloc, command)?;
    println!(rt; "{}", parts.as_str())
}

// Prints what these words are.
fn answer_words(rt: &impl Print, alloc: Global, words: &[String]) -> io::Result<()> {
    match read_words(alloc, words) {
        Ok(command) => {
            let answered = answer_command(rt, alloc, &command);
            drop(command);
            answered
        }
        Err(Stop::Refused(_)) => answer_other(rt, alloc, words),
        Err(_) => println!(rt; "out of memory"),
    }
}

// Prints what becomes of a line of the input.
fn answer(rt: &impl Print, alloc: Global, line: &str) -> io::Result<()> {
    let words = words_of(alloc, line)?;
    answer_words(rt, alloc, words.as_slice())
}

fn main(rt: HostRuntime) -> io::Result<()> {
    let alloc = rt.alloc();
    for line in BufReader::new(alloc, rt.reader())?.lines(alloc) {
        let line = line?;
        answer(&rt, alloc, &line)?;
    }
    Ok(())
}
