//! The hashes of documents.
ghost use Rattle.std.specs.Prelude.{◌≡◌, IfErr, IfOk};
ghost use Rattle.hex.specs.Hex.{encode_lower};
ghost use Rattle.sha2.specs.Sha256.{sha256};
ghost use Rattle.vault_model.specs.SeenDoc.{doc_seen};
ghost use Rattle.cli_messages.specs.Phases.{IsMemoryStop, IsPlainStop, Returns};
ghost use Rattle.cli_self_test.specs.SelfTest as spec;

use cli_messages::Stop;
use cli_writing::{plain_text, unwritten};
use outside_core::{NoMemory, Text};
use secret_core::Secret;
use sha2::{Digest, Sha256};
use std::alloc::Global;
use vault_model::Doc;

// The SHA-256 of a text in lower-case hexadecimal.
fn digits_of(alloc: Global, text: &Secret) -> Result<Text, NoMemory>
    ensures { IfOk result (λ hash. hash ≡ encode_lower (sha256 text.now.bytes)) }
{
    let digits = hex::encode(alloc, &Sha256::digest(text.lend(0, text.len())))?;
    let hash = Text::of(alloc, digits.as_str());
    drop(digits);
    hash
}

// The same, or the stop of a call whose memory ran out.
fn hash_text(alloc: Global, text: &Secret) -> Result<Text, Stop>
    ensures hash { IfOk result (λ hash. hash ≡ encode_lower (sha256 text.now.bytes)) }
    ensures cause { IfErr result IsMemoryStop }
{
    match digits_of(alloc, text) {
        Ok(hash) => Ok(hash),
        Err(NoMemory) => Err(Stop::NoMemory),
    }
}

/// The hash of the text of a document by itself.
///
/// # Errors
///
/// The refusal to write the document, which is about the words.
pub(crate) fn hash_of(alloc: Global, doc: &Doc) -> Result<Text, Stop>
    ensures told { Returns (λ hash. hash) result (spec.hash_of (doc_seen doc.now)) }
    ensures cause { IfErr result IsPlainStop }
{
    match plain_text(alloc, doc) {
        Ok(text) => {
            let hash = hash_text(alloc, &text);
            drop(text);
            hash
        }
        Err(fail) => Err(unwritten(alloc, fail, "words")),
    }
}
