//! What the program is asked: the words of a line, or those of the command line.

use crate::choices::Choices;
use std::alloc::{AllocError, Global};

/// Words, of which the first says what is to be done. `-` is the empty password, no public data, and
/// that no call of the store fails.
#[derive(Drop)]
pub struct Row<'a> {
    words: Vec<&'a str>,
}

impl<'a> Row<'a> {
    /// The words of a line, white space between them.
    pub fn of_line(alloc: Global, line: &'a str) -> Result<Row<'a>, AllocError> {
        let words = line.split_whitespace().collect(alloc)?;
        Ok(Row { words })
    }

    /// The words of the command line.
    pub fn of_words(alloc: Global, list: &'a [String]) -> Result<Row<'a>, AllocError> {
        let words = list.iter().map(String::as_str).collect(alloc)?;
        Ok(Row { words })
    }

    /// The word of this index, which is empty where it is missing.
    pub fn word(&self, index: usize) -> &'a str {
        match self.words.get(index) {
            Some(word) => *word,
            None => "",
        }
    }

    /// What is chosen for the file that is sealed: version, cipher, key derivation and public data.
    pub fn choices(&self) -> Choices<'a> {
        Choices {
            version: self.word(1),
            cipher: self.word(2),
            kdf: self.word(3),
            public: self.word(4),
        }
    }
}
