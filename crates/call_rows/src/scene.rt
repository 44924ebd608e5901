//! What the lines of a row have set up, and its calls.

use crate::fault::Fault;
use crate::objects::Objects;
use crate::table::{Named, Table};
use crate::words::{byte_of_digits, bytes_of, bytes_of_digits, first_word, number_of, texts_of};
use sha2::{Digest, Sha256};
use std::alloc::Global;

/// The texts of all rows, and what the lines of a row have set up.
#[derive(Drop)]
pub struct Scene {
    alloc: Global,
    texts: Table,
    /// The files as they were printed last; those that are not there have no bytes.
    files: Table,
    objects: Objects,
    now: u64,
    /// Whether the longest array that a file was to be read into is printed.
    measures: bool,
}

// Prints a text with its name, unless it is empty.
fn print_text(rt: &impl Print, name: &str, text: &[u8]) -> Result<(), Fault> {
    if !text.is_empty() {
        println!(rt; "    {name} {}", text.escape_ascii())?;
    }
    Ok(())
}

// Prints a number with its name, unless it is 0.
fn print_count(rt: &impl Print, name: &str, count: usize) -> Result<(), Fault> {
    if count > 0 {
        println!(rt; "    {name} {count}")?;
    }
    Ok(())
}

// Prints the length and the SHA-256 of a file where it is not what it was before.
fn print_change(
    rt: &impl Print,
    alloc: Global,
    file: &mut Named,
    objects: &Objects,
) -> Result<(), Fault> {
    let bytes = objects.file(file.name());
    if bytes == file.bytes() {
        return Ok(());
    }
    file.set(bytes)?;
    let digits = hex::encode(alloc, &Sha256::digest(bytes))?;
    println!(rt;
        "    file {} {} {}",
        file.name(),
        bytes.len(),
        digits.as_str()
    )?;
    Ok(())
}

impl Scene {
    /// No texts and no files, and the first moment.
    pub fn new(alloc: Global) -> Scene {
        Scene {
            alloc,
            texts: Table::new(alloc),
            files: Table::new(alloc),
            objects: Objects::new(alloc),
            now: 0,
            measures: false,
        }
    }

    /// Begins a row: it has no files, an empty input, and dice that count.
    pub fn begin(&mut self) -> Result<(), Fault> {
        self.files = Table::new(self.alloc);
        self.objects = Objects::new(self.alloc);
        self.measures = false;
        self.objects.count_dice()
    }

    // Puts a file into the store as it was set up.
    fn store(&mut self, name: &str) -> Result<(), Fault> {
        self.objects.put(name, self.files.bytes(name)?)
    }

    // Puts as much of a text into a file.
    fn put_part(&mut self, name: &str, text: &str, length: usize) -> Result<(), Fault> {
        match self.texts.bytes(text)?.get(..length) {
            Some(part) => self.files.set(name, part)?,
            None => return Err(Fault::NoSuchPlace),
        }
        self.store(name)
    }

    // Puts a text into a file.
    fn put(&mut self, name: &str, text: &str) -> Result<(), Fault> {
        self.files.set(name, self.texts.bytes(text)?)?;
        self.store(name)
    }

    // Puts a text into a file, or as many of its first bytes as a word says.
    fn put_file(&mut self, words: &str) -> Result<(), Fault> {
        let (name, rest) = first_word(words);
        match first_word(rest) {
            (text, "") => self.put(name, text),
            (text, length) => self.put_part(name, text, number_of(length)? as usize),
        }
    }

    // Lets a byte of a file be another one.
    fn change_byte(&mut self, words: &str) -> Result<(), Fault> {
        let (name, rest) = first_word(words);
        let (place, digits) = first_word(rest);
        let byte = byte_of_digits(digits.as_bytes())?;
        self.files.set_byte(name, number_of(place)?, byte)?;
        self.store(name)
    }

    // Puts a text at the end of the one of a name.
    fn add_text(&mut self, words: &str) -> Result<(), Fault> {
        let (name, text) = first_word(words);
        let bytes = bytes_of(self.alloc, text)?;
        self.texts.append(name, bytes.as_slice())
    }

    // Puts the bytes of hexadecimal digits at the end of the text of a name.
    fn add_digits(&mut self, words: &str) -> Result<(), Fault> {
        let (name, digits) = first_word(words);
        let bytes = bytes_of_digits(self.alloc, digits)?;
        self.texts.append(name, bytes.as_slice())
    }

    // Lets the input be a text.
    fn set_input(&mut self, text: &str) -> Result<(), Fault> {
        let bytes = bytes_of(self.alloc, text)?;
        self.objects.set_input(bytes.as_slice())
    }

    // Lets the input be as many letters, and a text after them.
    fn set_letters(&mut self, words: &str) -> Result<(), Fault> {
        let (count, text) = first_word(words);
        let mut bytes = Vec::new(self.alloc);
        for _ in 0..number_of(count)? {
            bytes.push(b'a')?;
        }
        let end = bytes_of(self.alloc, text)?;
        bytes.extend_from_slice(end.as_slice())?;
        self.objects.set_input(bytes.as_slice())
    }

    // Lets the dice have these bytes.
    fn set_dice(&mut self, digits: &str) -> Result<(), Fault> {
        let bytes = bytes_of_digits(self.alloc, digits)?;
        self.objects.set_dice(bytes.as_slice())
    }

    // Lets the file that is read be a text from a read on.
    fn change_file(&mut self, words: &str) -> Result<(), Fault> {
        let (read, name) = first_word(words);
        let text = self.texts.bytes(name)?;
        self.objects.change(number_of(read)?, text)
    }

    // Says how a file is read: in which pieces, or that its arrays are measured.
    fn set_reading(&mut self, words: &str) -> Result<(), Fault> {
        match first_word(words) {
            ("cut", place) => self.objects.cut(number_of(place)?)?,
            ("most", count) => self.objects.set_most(number_of(count)? as usize),
            ("measured", "") => self.measures = true,
            _ => return Err(Fault::BadWord),
        }
        Ok(())
    }

    // Lets a call on an object fail.
    fn fail(&mut self, words: &str) -> Result<(), Fault> {
        let (object, call) = first_word(words);
        self.objects.fail(object, number_of(call)?)
    }

    /// Sets up what a line says that begins with this word.
    pub fn set_up(&mut self, word: &str, rest: &str) -> Result<(), Fault> {
        match word {
            "text" => self.add_text(rest),
            "hex" => self.add_digits(rest),
            "file" => self.put_file(rest),
            "byte" => self.change_byte(rest),
            "watch" => self.files.add_once(rest),
            "input" => self.set_input(rest),
            "letters" => self.set_letters(rest),
            "dice" => self.set_dice(rest),
            "moment" => {
                self.now = number_of(rest)?;
                Ok(())
            }
            "fail" => self.fail(rest),
            "change" => self.change_file(rest),
            "read" => self.set_reading(rest),
            _ => Err(Fault::NoSuchLine),
        }
    }

    // Prints what a call did beside its status.
    fn report(&mut self, rt: &impl Print) -> Result<(), Fault> {
        print_text(rt, "out", self.objects.out())?;
        print_text(rt, "err", self.objects.err())?;
        self.objects.clear_outputs();
        for file in self.files.rows_mut() {
            print_change(rt, self.alloc, file, &self.objects)?;
        }
        print_count(rt, "drawn", self.objects.drawn()?)?;
        print_count(rt, "left", self.objects.input_left()?)?;
        let longest = self.objects.longest();
        if self.measures {
            println!(rt; "    longest {longest}")?;
        }
        Ok(())
    }

    /// Makes a call with these words, and prints what it did.
    pub fn call(&mut self, rt: &impl Print, words: &str) -> Result<(), Fault> {
        let texts = texts_of(self.alloc, words)?;
        let status = self.objects.call(texts.as_slice(), self.now);
        println!(rt; "  {words}: {status}")?;
        self.report(rt)
    }
}
