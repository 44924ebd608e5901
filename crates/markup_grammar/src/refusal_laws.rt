//! Where a text is refused. The law is the contract of a function that does nothing.

ghost use Rattle.std.specs.Prelude.{◌≡◌, ℕ, Some, List};
ghost use Rattle.markup_grammar.specs.Answers.{Answer, refusal_of};
ghost use Rattle.markup_grammar.specs.Faults.{IsFault};
ghost use Rattle.markup_grammar.specs.Reading.{answers};

/// A refusal for its form is at the length of the longest prefix that begins some text of the
/// grammar in UTF-8; one for its depth at the first whole start tag where 256 elements are open.
/// The earlier of the two answers, and at one place the form.
pub fn refusals()
    ensures { (text : List ℕ) (refusal : Answer) → refusal_of (answers text) ≡ Some refusal
        → IsFault text refusal }
{}
