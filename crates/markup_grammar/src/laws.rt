//! What the answers of a reader have to do with the grammar. Each law is the contract of a function
//! that does nothing.

ghost use Rattle.std.specs.Prelude.{◌≡◌, ◌≤◌, ℕ, true, List, [], ◌∷◌, ◌++◌};
ghost use Rattle.markup_grammar.specs.Answers.{finish, EndsOnce, finishes};
ghost use Rattle.markup_grammar.specs.Kinds.{AreMade};
ghost use Rattle.markup_grammar.specs.Places.{AreSlices, AreRising};
ghost use Rattle.markup_grammar.specs.Reading.{answers};
ghost use Rattle.markup_grammar.specs.Tree.{Tree, IsText, height, tree_pieces};

/// A text of the grammar, of which at most 256 elements are open at once, gives its tree's pieces
/// and then its end.
pub fn whole_texts()
    ensures { (text : List ℕ) (tree : Tree) → IsText text tree → height tree.root ≤ 256
        → answers text ≡ tree_pieces tree ++ finish ∷ [] }
{}

/// A text whose answers end in its end is a text of the grammar, of which at most 256 elements are
/// open at once.
pub fn finished_texts()
    ensures { (text : List ℕ) → finishes (answers text) ≡ true
        → (tree : Tree) × IsText text tree × (height tree.root ≤ 256) }
{}

/// The answers on any bytes end in their end or in a refusal, and hold neither of them before.
pub fn one_verdict()
    ensures { (text : List ℕ) → EndsOnce (answers text) }
{}

/// Each piece is the part of the text at its place, and each place lies above that of the piece
/// before it.
pub fn slices()
    ensures parts { (text : List ℕ) → AreSlices text (answers text) }
    ensures rising { (text : List ℕ) → AreRising 0 (answers text) }
{}

/// A start has a name and the raw text of attributes, and words are a run of text, before a refusal
/// too.
pub fn parts_of_pieces()
    ensures { (text : List ℕ) → AreMade (answers text) }
{}
