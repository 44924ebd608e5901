//! The database that a plain document is.
ghost use Rattle.std.specs.Prelude.{◌≡◌, [], IfErr, IfOk, IfSome, None};
ghost use Rattle.cli_lines.specs.KdbxFrame.Settings.{IsInOrder};
ghost use Rattle.cli_messages.specs.Phases.{IsPlainStop, Returns};
ghost use Rattle.cli_files.specs.Files.{plain_document};
ghost use Rattle.cli_files.specs.SeenOpened.{opened_seen};
ghost use Rattle.cli_databases.specs.Databases.{document_or_refusal};
ghost use Rattle.cli_databases.specs.NoDocument.{IsNoDocument};
ghost use Rattle.cli_databases.specs.SomeFiles.{SomePlain};

use cli_files::doc_read::{DocFail, ReadDoc};
use cli_files::{Opened, document_answer, read_plain};
use cli_messages::{Stop, refused};
use outside_core::List;
use secret_core::Secret;
use std::alloc::Global;

// What is refused when a file is no plain document.
fn undocumented(alloc: Global, fail: DocFail, name: &str) -> Stop
    ensures { IsNoDocument fail name.now result }
{
    match fail {
        DocFail::NoMemory => Stop::NoMemory,
        fail => refused(alloc, document_answer(fail), name),
    }
}

// A database that was read as a plain document.
fn plain_by(alloc: Global, read: ReadDoc) -> Opened
    ensures { result ≡ record { doc = read.doc; sealing = None; passed_over = [] } }
{
    let ReadDoc {
        doc,
        header_hash: _,
    } = read;
    Opened {
        doc,
        sealing: None,
        passed_over: List::new(alloc),
    }
}

/// The plain document in these bytes of a file.
pub(crate) fn build(alloc: Global, name: &str, bytes: Secret) -> Result<Opened, Stop>
    ensures gives { Returns opened_seen result
        (document_or_refusal name.now (plain_document bytes.bytes)) }
    ensures some_file { IfOk result (λ opened. SomePlain (opened_seen opened)) }
    ensures in_order { IfOk result (λ opened. IfSome opened.sealing (λ sealing.
        IsInOrder sealing.settings)) }
    ensures cause { IfErr result IsPlainStop }
{
    match read_plain(alloc, bytes) {
        Ok(read) => Ok(plain_by(alloc, read)),
        Err(fail) => Err(undocumented(alloc, fail, name)),
    }
}
