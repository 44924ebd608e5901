//! A database written for other programs.
ghost use Rattle.std.specs.Prelude.{◌≡◌, IfErr, IfOk, None};
ghost use Rattle.cli_messages.specs.Phases.{IsPlainStop, Returns};
ghost use Rattle.cli_printing.specs.Exporting.{exported, text_or_refusal};
ghost use Rattle.cli_writing.specs.DocWrite.Written.{write_outcome};
ghost use Rattle.stream_core.specs.InnerStream.{NoKeystream};
ghost use Rattle.vault_model.specs.SeenDoc.{doc_seen};
ghost use Rattle.vault_model.specs.declared.forms.DocForm.TheVariants.{Plain};

use cli_messages::Stop;
use cli_needs::ExportFormat;
use cli_writing::{plain_text, unwritten};
use secret_core::Secret;
use std::alloc::Global;
use table_core::{TableFail, export_csv};
use vault_model::Doc;

// The document by itself.
fn export_document(alloc: Global, doc: &Doc, file: &str) -> Result<Secret, Stop>
    ensures told { Returns (λ text. text.bytes) result
        (text_or_refusal file.now (write_outcome Plain NoKeystream None (doc_seen doc.now))) }
    ensures cause { IfErr result IsPlainStop }
{
    match plain_text(alloc, doc) {
        Ok(text) => Ok(text),
        Err(fail) => Err(unwritten(alloc, fail, file)),
    }
}

/// What `export` prints of the document of this file: the document by itself, or its table. The text
/// has every password of the database, and is wiped.
///
/// # Errors
///
/// A document by itself that would be too large or has too many nodes is refused, about the file.
/// The only other stop is that memory ran out.
pub fn export(alloc: Global, doc: &Doc, format: ExportFormat, file: &str) -> Result<Secret, Stop>
    ensures told { Returns (λ text. text.bytes) result
        (exported file.now format (doc_seen doc.now)) }
    ensures cause { IfErr result IsPlainStop }
{
    match format {
        ExportFormat::Xml => export_document(alloc, doc, file),
        ExportFormat::Csv => match export_csv(alloc, doc) {
            Ok(table) => Ok(table),
            Err(TableFail::NoMemory) => Err(Stop::NoMemory),
        },
    }
}
