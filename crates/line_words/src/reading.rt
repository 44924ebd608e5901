//! Reading a line from its start.

ghost use Rattle.std.specs.Prelude.{◌≡◌, ℕ, [], ◌++◌, List, OnOk};
ghost use Rattle.line_words.specs.Results.{Gives};
ghost use Rattle.line_words.specs.Spelling.{HasNoQuote};
ghost use Rattle.line_words.specs.Words.{line_words, open_quote, words_unless};
ghost use Rattle.line_words.specs.inside.Reading.{HasNoSpace, with_end, with_part, words_seen, words_with};

use crate::fail::LineFail;
use outside_core::{List, NoMemory, Text};
use std::alloc::Global;

// The words of a line while it is read.
#[derive(Drop)]
struct ReadWords {
    // Those that have ended.
    ended_words: List<Text>,
    // The one that has begun.
    begun_word: Option<String>,
}

// Puts a part of a word after what has begun of it, or begins a word with it.
fn add_part(alloc: Global, read: &mut ReadWords, part: &str) -> Result<(), NoMemory>
    ensures { OnOk result (words_seen read.new ≡ with_part part.now (words_seen read.old)) }
{
    let mut word = match read.begun_word.take() {
        Some(word) => word,
        None => String::new(alloc),
    };
    word.push_str(part)?;
    read.begun_word = Some(word);
    Ok(())
}

// Ends the word that has begun, if one has.
fn end_word(alloc: Global, read: &mut ReadWords) -> Result<(), NoMemory>
    ensures { OnOk result (words_seen read.new ≡ with_end (words_seen read.old)) }
{
    let Some(word) = read.begun_word.take() else {
        return Ok(());
    };
    match read.ended_words.push(Text::of(alloc, word.as_str())?) {
        Ok(()) => Ok(()),
        Err(_word) => Err(NoMemory),
    }
}

// Reads a run of a word, which is outside of quotation marks and may be empty.
fn read_run(alloc: Global, read: &mut ReadWords, run: &str) -> Result<(), NoMemory>
    requires no_quote { HasNoQuote run.now }
    requires no_space { HasNoSpace run.now }
    ensures { OnOk result ((following : List ℕ) → words_with (words_seen read.new) following
        ≡ words_with (words_seen read.old) (run.now ++ following)) }
{
    if run.is_empty() {
        return Ok(());
    }
    add_part(alloc, read, run)
}

// Reads what is outside of quotation marks, up to the next or to the end.
fn read_unquoted(alloc: Global, read: &mut ReadWords, text: &str) -> Result<(), NoMemory>
    requires { HasNoQuote text.now }
    ensures { OnOk result ((following : List ℕ) → words_with (words_seen read.new) following
        ≡ words_with (words_seen read.old) (text.now ++ following)) }
{
    let mut rest = text;
    while let Some((run, following)) = rest.split_once(' ') {
        read_run(alloc, read, run)?;
        end_word(alloc, read)?;
        rest = following;
    }
    read_run(alloc, read, rest)
}

// Reads a line, but does not end its last word.
fn read_line(alloc: Global, read: &mut ReadWords, line: &str) -> Result<(), LineFail>
    ensures { Gives (λ done. words_with (words_seen read.new) []) result
        (words_unless (open_quote line.now) (words_with (words_seen read.old) line.now)) }
{
    let mut rest = line;
    while let Some((before, quoted)) = rest.split_once('"') {
        read_unquoted(alloc, read, before)?;
        let Some((part, following)) = quoted.split_once('"') else {
            return Err(LineFail::Quote(line.len() - quoted.len() - 1));
        };
        add_part(alloc, read, part)?;
        rest = following;
    }
    read_unquoted(alloc, read, rest)?;
    Ok(())
}

/// The words of a line, in their order. The line is cut at spaces (a tab is none), but for those in
/// quotation marks: what is in quotation marks belongs, without the marks, to the word that they
/// stand in, and `""` alone is an empty word. So no word has a quotation mark in it. It fails where a
/// quotation mark has no closing one, and where memory runs out.
pub fn split_line(alloc: Global, line: &str) -> Result<List<Text>, LineFail>
    ensures { Gives (λ words. words) result (line_words line.now) }
{
    let mut read = ReadWords {
        ended_words: List::new(alloc),
        begun_word: None,
    };
    read_line(alloc, &mut read, line)?;
    end_word(alloc, &mut read)?;
    Ok(read.ended_words)
}
