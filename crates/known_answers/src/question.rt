//! A question: its name, and what it is asked of.

ghost use Rattle.std.specs.Prelude.{◌≤◌, IfOk, vec_len};

use std::alloc::{AllocError, Global};

/// The most bytes that a word stands for.
const WORD_LIMIT: usize = 65_536;

/// Why a question is not answered.
#[derive(Clone, Copy)]
pub enum Fault {
    /// For this reason.
    Because(&'static str),
    /// The word of this index is missing, or is not written as it must be.
    BadWord(usize),
    /// Cut at this offset, or by pieces of this length, it gives another result.
    NotTheSameCut(usize),
}

/// There is no question of this name.
pub const NO_QUESTION: Fault = Fault::Because("no question of this name");

/// A text of a question is not spelled as it must be.
pub const NOT_SPELLED: Fault = Fault::Because("a text is not spelled right");

/// Undone again, a result is not what it was made of.
pub const NOT_UNDONE: Fault = Fault::Because("not undone");

/// There was no memory left.
pub const NO_MEMORY: Fault = Fault::Because("no memory");

impl From<AllocError> for Fault {
    fn from(_none: AllocError) -> Fault {
        NO_MEMORY
    }
}

impl Fault {
    /// The fault in words.
    pub fn words(self, alloc: Global) -> Result<String, AllocError> {
        match self {
            Fault::Because(why) => String::from_str(alloc, why),
            Fault::BadWord(index) => format!(in alloc; "word {index} is not written right"),
            Fault::NotTheSameCut(place) => format!(in alloc; "another result, cut at {place}"),
        }
    }
}

/// A question's words. Bytes are written in hexadecimal digits, `-` where there are none, and
/// numbers in decimal ones.
#[derive(Drop)]
pub struct Question<'a> {
    text: &'a str,
    words: Vec<&'a str>,
}

impl<'a> Question<'a> {
    /// The question that is asked by this text, white space between its words.
    pub fn new(alloc: Global, asked: &'a str) -> Result<Question<'a>, AllocError> {
        let text = match asked.split_once(' ') {
            Some((_, text)) => text,
            None => "",
        };
        let words = asked.split_whitespace().collect(alloc)?;
        Ok(Question { text, words })
    }

    /// How many words there are, the name among them.
    pub fn len(&self) -> usize {
        self.words.len()
    }

    /// The question's name, which is the first word.
    pub fn name(&self) -> &'a str {
        self.word(0)
    }

    /// What comes after the name, as it is spelled.
    pub fn text(&self) -> &'a str {
        self.text
    }

    /// The word of this index, which is empty where it is missing.
    pub fn word(&self, index: usize) -> &'a str {
        match self.words.get(index) {
            Some(word) => *word,
            None => "",
        }
    }

    /// The bytes that a word writes, 65,536 at most.
    pub fn bytes(&self, alloc: Global, index: usize) -> Result<Vec<u8>, Fault>
        ensures { IfOk result (λ bytes. vec_len bytes ≤ 65536) }
    {
        let word = self.word(index);
        if word == "-" {
            return Ok(Vec::new(alloc));
        }
        match hex::decode(alloc, word) {
            Ok(bytes) => {
                if bytes.is_empty() || bytes.len() > WORD_LIMIT {
                    return Err(Fault::BadWord(index));
                }
                Ok(bytes)
            }
            Err(_) => Err(Fault::BadWord(index)),
        }
    }

    /// The `N` bytes that a word writes.
    pub fn array<const N: usize>(&self, index: usize) -> Result<[u8; N], Fault> {
        let mut bytes = [0; N];
        match hex::decode_to_slice(self.word(index), &mut bytes) {
            Ok(()) => Ok(bytes),
            Err(_) => Err(Fault::BadWord(index)),
        }
    }

    /// The number that a word writes.
    pub fn number(&self, index: usize) -> Result<u64, Fault> {
        match self.word(index).parse::<u64>() {
            Ok(number) => Ok(number),
            Err(_) => Err(Fault::BadWord(index)),
        }
    }

    /// The number that a word writes, where it has 32 bits.
    pub fn short_number(&self, index: usize) -> Result<u32, Fault> {
        match self.word(index).parse::<u32>() {
            Ok(number) => Ok(number),
            Err(_) => Err(Fault::BadWord(index)),
        }
    }
}
