//! What is reported of a text's elements, of a tag's attributes and of a reference is what the
//! grammar's trees spell. Each law is the contract of a function that does nothing.

ghost use Rattle.std.specs.Char.{encode_utf8};
ghost use Rattle.std.specs.Prelude.{◌≡◌, ◌≤◌, ℕ, List, ◌∷◌, ◌++◌};
ghost use Rattle.markup_grammar.specs.Attributes.{attributes};
ghost use Rattle.markup_grammar.specs.Bytes.{is_space, is_text, is_value, AllAre};
ghost use Rattle.markup_grammar.specs.Answers.{refusal_of};
ghost use Rattle.markup_grammar.specs.Elements.{content_of, first_cut};
ghost use Rattle.markup_grammar.specs.Escapes.{unescaped, escaped};
ghost use Rattle.markup_grammar.specs.Reading.{answers};
ghost use Rattle.markup_grammar.specs.References.{Reference, IsReference, reference_body, character};
ghost use Rattle.markup_grammar.specs.Runs.{IsRun};
ghost use Rattle.markup_grammar.specs.Tags.{Attribute, AreAttributes, spelled_attributes, named_values};
ghost use Rattle.markup_grammar.specs.Tree.{Tree, IsText, height};
ghost use Rattle.markup_grammar.specs.TreeElements.{tree_content};

/// The elements that are reported of a text of the grammar, of which at most 256 are open at once,
/// are those of its tree.
pub fn elements_of_texts()
    ensures { (text : List ℕ) (tree : Tree) → IsText text tree → height tree.root ≤ 256
        → content_of (answers text) ≡ tree_content tree }
{}

/// In the elements that are reported of a text, the first cut is the refusal of the text; a whole
/// text has none.
pub fn cuts_of_texts()
    ensures { (text : List ℕ) → first_cut (content_of (answers text)) ≡ refusal_of (answers text) }
{}

/// The attributes that are reported of a tag are those that it spells, in their order.
pub fn attributes_of_tags()
    ensures { (list : List Attribute) (space : List ℕ) → AreAttributes list → AllAre is_space space
        → attributes (spelled_attributes list space) ≡ named_values list }
{}

/// A reference stands for the UTF-8 of its character.
pub fn characters_of_references()
    ensures { (r : Reference) (rest : List ℕ) → IsReference r
        → unescaped (38 ∷ (reference_body r ++ (59 ∷ rest))) ≡ encode_utf8 (character r)
        ++ unescaped rest }
{}

/// What is written for a text, whatever its bytes, may be between two tags, and between the
/// double quotes of a value.
pub fn escaped_texts()
    ensures text { (text : List ℕ) → IsRun is_text (escaped text) }
    ensures value { (text : List ℕ) → IsRun (is_value 34) (escaped text) }
{}
