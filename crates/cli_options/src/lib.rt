//! What the words of a call say: the commands by their names, the options that each of them takes,
//! with their values, and the positions.
#![tactic(auto)]

mod credentials;
mod forms;
pub mod laws;
mod names;
mod numbers;
pub mod option_laws;
mod reading;
mod said;
mod taking;
mod words;

pub use credentials::{is_fit_change, is_fit_new, is_whole};
pub use forms::{CommandOption, OPTIONS, has_value, is_repeatable, place_of};
pub use names::{CommandName, command_named};
pub use numbers::number_of;
pub use outside_core;
pub use reading::{ReadWords, lend_said, read_after_name};
pub use said::{
    GivenTexts, ReadingState, RepeatedText, SaidWords, WordsFail, add_position, copies_of, copy_of,
    empty_state, is_given, no_texts, text_of, texts_of, with_text,
};
pub use taking::{letter_option, name_option};
pub use words::{add_word, add_words};
