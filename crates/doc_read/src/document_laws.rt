//! What holds of each document: of its parts, of its refusals, and of its text.

ghost use Rattle.doc_forms.specs.Documents.{DocumentAndHash, FileParts, document, parts_in};
ghost use Rattle.doc_forms.specs.ElementTexts.{Setting};
ghost use Rattle.doc_forms.specs.KeptParts.{are_kept};
ghost use Rattle.doc_forms.specs.declared.fails.DocFail.TheVariants.{NoMemory};
ghost use Rattle.doc_read.specs.Trees.{document_of_tree};
ghost use Rattle.markup_grammar.specs.Tree.{IsText, Tree, height};
ghost use Rattle.std.specs.Prelude.{◌≡◌, ◌≢◌, ◌≤◌, ℕ, Bool, Err, List, Ok, Option, true};

/// What is read of a text to its end keeps what a document keeps: its texts are UTF-8, keys rise,
/// no id of a node is nil, and no group lies too deep.
pub fn parts_are_kept()
    ensures { (s : Setting) (text : List ℕ) (parts : Option FileParts) → parts_in s text ≡ Ok parts
        → are_kept parts ≡ true }
{}

/// The definition of a document never answers that memory ran out: each refusal of a text is
/// another one.
pub fn documents_never_lack_memory()
    ensures { (s : Setting) (given : List (List ℕ × Bool)) (text : List ℕ)
        → document s given text ≢ Err NoMemory }
{}

/// Only a text of the grammar, of which at most 256 elements are open at once, is one of a
/// document, and the document is what the elements of its tree say.
pub fn documents_are_texts()
    ensures { (s : Setting) (given : List (List ℕ × Bool)) (text : List ℕ) (r : DocumentAndHash)
        → document s given text ≡ Ok r
        → (tree : Tree) × IsText text tree × (height tree.root ≤ 256)
        × (document_of_tree s given tree ≡ Ok r) }
{}
