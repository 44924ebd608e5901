//! Documents: what a text says up to its end, and the document that comes of it.

ghost use Rattle.doc_forms.specs.KeptParts.{are_kept};
ghost use Rattle.doc_forms.specs.SeenDrafts.{file_parts};
ghost use Rattle.std.specs.Prelude.{◌≡◌, option_map, true};

use crate::drafts::FileBuilder;
use vault_model::{Doc, DocForm};

/// What a text says up to its end, in memory of its own: the text itself is needed no more.
#[derive(Drop)]
pub struct DocParts {
    /// The form in which the text was read.
    pub form: DocForm,
    pub file: Option<FileBuilder>,
    pub ghost file_is_kept: { are_kept (option_map file_parts file) ≡ true },
}

/// A document, and the hash of its file's header that it names.
#[derive(Drop)]
pub struct ReadDoc {
    pub doc: Doc,
    /// The SHA-256 of the file's header, where a document of KDBX 3.1 names one.
    pub header_hash: Option<[u8; 32]>,
}
