//! What the machine of UTF-8 has to do with the texts of std. Each law is the contract of a
//! function that does nothing.

ghost use Rattle.std.specs.Prelude.{◌≡◌, ℕ, Some, List};
ghost use Rattle.std.specs.Str.{IsUtf8};
ghost use Rattle.markup_grammar.specs.Utf8.{none_left, utf8_run, utf8_front, IsUtf8Front};

/// Bytes are a text in UTF-8 exactly where each of them may be where it is and the last one
/// ends a character.
pub fn utf8_texts()
    ensures from_run { (text : List ℕ) → utf8_run text none_left ≡ Some none_left → IsUtf8 text }
    ensures run { (text : List ℕ) → IsUtf8 text → utf8_run text none_left ≡ Some none_left }
{}

/// The prefix of a text that the machine passes over is the longest that begins a text in UTF-8.
pub fn utf8_fronts()
    ensures { (text : List ℕ) → IsUtf8Front text (utf8_front text) }
{}
