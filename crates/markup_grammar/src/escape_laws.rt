//! What escaping and unescaping have to do with one another. The law is the contract of a function
//! that does nothing.

ghost use Rattle.std.specs.Prelude.{◌≡◌, ℕ, List};
ghost use Rattle.markup_grammar.specs.Escapes.{escaped, unescaped};

/// Whatever bytes a text has, what is written for it stands for that text.
pub fn round_trip()
    ensures { (text : List ℕ) → unescaped (escaped text) ≡ text }
{}
