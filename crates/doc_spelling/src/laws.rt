//! What holds of each written document: it is a text of the grammar, and it reads back.

ghost use Rattle.std.specs.Prelude.{◌≡◌, ◌≤◌, ℕ, true, List, Ok, Option};
ghost use Rattle.markup_grammar.specs.Tree.{IsText, height};
ghost use Rattle.stream_core.specs.InnerStream.{Keystream};
ghost use Rattle.vault_model.specs.Db.{NodeId};
ghost use Rattle.vault_model.specs.Empty.{empty_bare};
ghost use Rattle.vault_model.specs.Tree.{BareDoc, IsDoc};
ghost use Rattle.vault_model.specs.declared.forms.DocForm.{DocForm};
ghost use Rattle.doc_forms.specs.Documents.{document};
ghost use Rattle.doc_spelling.specs.Documents.{hash_named, pool_apart, spelled_document, written_tree};
ghost use Rattle.doc_spelling.specs.Ranges.{IsWritable, is_hash_or_none, is_stamp, is_uuid};

/// The text that is written for a document says that document, with nothing left out, and in a file
/// of version 3.1 the hash of its header. It is read with the keystream that hides its values, and
/// in a file of version 4 with the document's pool.
pub fn written_documents_read_back()
    ensures { (form : DocForm) (k : Keystream) (hash : Option (List ℕ)) (d : BareDoc)
        → is_hash_or_none hash ≡ true → IsDoc d → IsWritable d
        → document (record { form = form; keystream = k }) (pool_apart form d)
        (spelled_document form k hash d) ≡ Ok (d, hash_named form hash) }
{}

/// That text is one of the grammar, of which at most 136 elements are open at once.
pub fn written_documents_are_texts()
    ensures { (form : DocForm) (k : Keystream) (hash : Option (List ℕ)) (d : BareDoc)
        → is_hash_or_none hash ≡ true → IsDoc d → IsWritable d
        → IsText (spelled_document form k hash d) (written_tree form k hash d)
        × (height (written_tree form k hash d).root ≤ 136) }
{}

/// A new document may be written.
pub fn new_documents_are_writable()
    ensures { (u : NodeId) (now : ℕ) → is_uuid u ≡ true → is_stamp now ≡ true
        → IsWritable (empty_bare u now) }
{}
