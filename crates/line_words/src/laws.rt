//! What holds of the words of a line.

ghost use Rattle.std.specs.Prelude.{◌≡◌, ℕ, List, All, Ok};
ghost use Rattle.line_words.specs.Spelling.{HasNoQuote, quoted_line};
ghost use Rattle.line_words.specs.Words.{line_words};

/// Words without quotation marks are the words of the line in which each of them is in quotation
/// marks, with one space between each two.
pub fn quoted_words_are_read()
    ensures { (words : List (List ℕ)) → All HasNoQuote words
        → line_words (quoted_line words) ≡ Ok words }
{}
