//! What holds of each file that is made of a document.

ghost use Rattle.std.specs.Prelude.{◌≡◌, ℕ, List, Ok};
ghost use Rattle.vault_model.specs.Tree.{BareDoc, IsDoc};
ghost use Rattle.doc_spelling.specs.Ranges.{IsWritable};
ghost use Rattle.kdbx_frame.specs.declared.settings.Settings.{Settings};
ghost use Rattle.kdbx_seal.specs.KdbxWriting.declared.draws.Draws.{Draws};
ghost use Rattle.kdbx_open.specs.KdbxPayload.Sealed.{SealedPayload};
ghost use Rattle.kdbx_seal.specs.Made.{made_file, made_file_payload};
ghost use Rattle.kdbx_open.specs.Opening.{opening};
ghost use Rattle.kdbx_open.specs.Sealed.{Sealed};
ghost use Rattle.cli_sealing.specs.Contents.{made_contents};

/// A file that was made of a document holds that document under the composite key that it was made
/// with, and the settings that were given, with the seed or salt of its own. The premises are what a
/// document has by its type, and what [`kdbx_seal::seal_file`] ensures where it answers Ok.
pub fn sealed_documents_are_held()
    ensures { (s : Settings) (draws : Draws) (composite : List ℕ) (d : BareDoc)
        → IsDoc d → IsWritable d
        → SealedPayload (made_file s draws composite d) composite (made_file_payload s draws d)
        → Sealed (made_file s draws composite d) composite (made_contents s draws d) }
{}

/// Opened under that key, the file gives just these.
pub fn sealed_documents_are_opened()
    ensures { (s : Settings) (draws : Draws) (composite : List ℕ) (d : BareDoc)
        → IsDoc d → IsWritable d
        → SealedPayload (made_file s draws composite d) composite (made_file_payload s draws d)
        → opening (made_file s draws composite d) composite ≡ Ok (made_contents s draws d) }
{}
