//! All words after the name of a command, read.
ghost use Rattle.std.specs.Prelude.{◌≡◌, map, string_bytes};
ghost use Rattle.cli_options.specs.Said.{nothing_said, with_words};
ghost use Rattle.cli_options.specs.SaidWords.{Gives, reading_seen, said_seen, words_seen};

use crate::CommandName;
use crate::said::{GivenTexts, ReadingState, SaidWords, WordsFail, empty_state, no_texts};
use crate::words::add_words;
use std::alloc::Global;

/// What the words after a command's name say, with the memory that holds it.
#[derive(Drop)]
pub struct ReadWords<'a> {
    /// The texts of options.
    pub given: GivenTexts<'a>,
    /// What else they say.
    pub state: ReadingState,
}

/// What words say that were read.
pub fn lend_said<'a, 'b>(words: &'b ReadWords<'a>) -> SaidWords<'a, 'b>
    ensures { said_seen result ≡ words_seen words.now }
{
    SaidWords {
        given: words.given.texts,
        repeated: words.state.repeated.as_slice(),
        due: words.state.due,
        ended: words.state.ended,
        positions: words.state.positions.as_slice(),
    }
}

/// Reads all words after a command's name. They are refused where one is no option of the command,
/// or lacks its value.
pub fn read_after_name<'a>(
    alloc: Global,
    command: CommandName,
    words: &'a [String],
) -> Result<ReadWords<'a>, WordsFail>
    ensures { Gives words_seen result
        (with_words command (map string_bytes words.now) nothing_said) }
{
    let mut given = no_texts();
    let mut state = empty_state(alloc);
    match add_words(command, &mut given, &mut state, words) {
        Ok(()) => Ok(ReadWords { given, state }),
        Err(fail) => {
            drop(state);
            Err(fail)
        }
    }
}
