//! The page that the words of a call ask for.
ghost use Rattle.std.specs.Prelude.{◌≡◌, IfErr, IfOk, IsSome, map, string_bytes};
ghost use Rattle.cli_pages.specs.Pages as spec;

use crate::lines::cause_line;
use cli_causes::cause_of;
use cli_messages::page_of as page_alone;
use outside_core::{Bytes, NoMemory};
use std::alloc::Global;

// Reports whether a word asks why those after it are no command.
fn asks_why(word: &str) -> bool
    ensures { result ≡ spec.asks_why word.now }
{
    word == "--why"
}

// Reports whether words ask for a page.
fn is_page(words: &[String]) -> bool
    ensures { result ≡ spec.is_page (map string_bytes words.now) }
{
    match words {
        [word, ..] => asks_why(word.as_str()) || page_alone(words).is_some(),
        [] => false,
    }
}

// Why words are no command and ask for no page.
fn why(alloc: Global, words: &[String]) -> Result<Bytes, NoMemory>
    ensures { IfOk result (λ page. page ≡ spec.why (map string_bytes words.now)) }
{
    if is_page(words) {
        return Ok(Bytes::new(alloc));
    }
    cause_line(alloc, cause_of(alloc, words)?)
}

// A copy of a page.
fn copy_of(alloc: Global, page: &str) -> Result<Bytes, NoMemory>
    ensures { IfOk result (λ copy. copy ≡ page.now) }
{
    let mut copy = Bytes::new(alloc);
    match copy.add(page.as_bytes()) {
        Ok(()) => Ok(copy),
        Err(fail) => {
            drop(copy);
            Err(fail)
        }
    }
}

/// The page that the words ask for: why the words after `--why` are no command, nothing where they
/// are one or ask for a page; and the help or the version where one word alone asks for it. Memory
/// runs out only where they ask for a page.
pub fn page_of(alloc: Global, words: &[String]) -> Result<Option<Bytes>, NoMemory>
    ensures page { IfOk result (λ page. page ≡ spec.page_of (map string_bytes words.now)) }
    ensures memory { IfErr result (λ none. IsSome (spec.page_of (map string_bytes words.now))) }
{
    match words {
        [word, rest @ ..] if asks_why(word.as_str()) => Ok(Some(why(alloc, rest)?)),
        _ => match page_alone(words) {
            Some(page) => Ok(Some(copy_of(alloc, page)?)),
            None => Ok(None),
        },
    }
}
