//! Opening a file.

ghost use Rattle.std.specs.Prelude.{◌≡◌, ℕ, ◌≤◌, IfOk, IfSome, List, length};
ghost use Rattle.std.specs.FinMap as map;
ghost use Rattle.outside_core.specs.Reports.{StaysTruthful, reported};
ghost use Rattle.vault_model.specs.SeenDoc.{doc_seen};
ghost use Rattle.kdbx_frame.specs.Settings.{IsInOrder};
ghost use Rattle.stream_core.specs.InnerStream.{IsAt};
ghost use Rattle.kdbx_reading.specs.KdbxPayload.Payloads.{payload_of};
ghost use Rattle.kdbx_reading.specs.KdbxPayload.Results as payloads;
ghost use Rattle.kdbx_reading.specs.KdbxPayload.Seen.{payload_seen};
ghost use Rattle.kdbx_open.specs.Causes.{HasOpenCause};
ghost use Rattle.kdbx_open.specs.Files.{ReturnsOfSomeFile, opening_of};
ghost use Rattle.kdbx_open.specs.Opening.{opening};
ghost use Rattle.kdbx_open.specs.Results.{Returns, ReturnsFromStore};
ghost use Rattle.kdbx_open.specs.Sealed.{Holds, IsHeld};
ghost use Rattle.kdbx_open.specs.Seen.{opened_seen, unsealed_seen};

use crate::OpenFail;
use crate::documents::{check_hash, document_of};
use kdbx_frame::{FILE_LIMIT, Settings, form_of};
use kdbx_reading::kdbx_payload::{Payload, PayloadFail};
use kdbx_reading::read_payload;
use outside_core::FileStore;
use secret_core::Key;
use std::alloc::Global;
use vault_model::Doc;

/// A file that was opened, with the composite key that opened it, which must be spent.
pub struct Opened {
    /// The document.
    pub doc: Doc,
    /// What the file's owner chose, which a rewriting of the file keeps. They are in order.
    pub settings: Settings,
    /// The composite key that was given.
    pub composite: Key,
}

// What a file holds.
#[derive(Drop)]
struct Unsealed {
    settings: Settings,
    doc: Doc,
}

// What a payload holds, if there is one. The payload's text and the document are never in memory
// together.
fn open_payload(alloc: Global, answer: Result<Payload, PayloadFail>) -> Result<Unsealed, OpenFail>
    requires in_order { IfOk answer (λ p. IsInOrder p.settings) }
    requires start { IfOk answer (λ p. IsAt p.stream 0) }
    requires within { IfOk answer (λ p. p.document ≤ length p.text.bytes) }
    ensures gives { (file composite : List ℕ)
        → payloads.Returns payload_seen answer (payload_of file composite)
        → Returns unsealed_seen result (opening file composite) }
    ensures in_order { IfOk result (λ u. IsInOrder u.settings) }
{
    let Payload {
        settings,
        pool,
        stream,
        header_hash,
        text,
        document,
    } = answer?;
    let form = form_of(settings.version);
    let read = document_of(alloc, form, stream, &pool, text, document);
    drop(pool);
    let read = match read {
        Ok(read) => read,
        Err(fail) => {
            drop(settings);
            return Err(fail);
        }
    };
    match check_hash(read.header_hash, header_hash) {
        Ok(()) => Ok(Unsealed {
            settings,
            doc: read.doc,
        }),
        Err(fail) => {
            drop(read);
            drop(settings);
            Err(fail)
        }
    }
}

// What the file of this name holds under a composite key.
fn open_named<F: FileStore>(
    alloc: Global,
    files: &mut F,
    name: &str,
    composite: &Key,
) -> Result<Unsealed, OpenFail>
    ensures told { IfSome (reported (F.truthful files.new) (F.files files.old))
        (λ m. ReturnsFromStore unsealed_seen result
        (opening_of (map.get m name.now) composite.now)) }
    ensures some_file { ReturnsOfSomeFile unsealed_seen composite.now result }
    ensures cause { HasOpenCause (F.faults files.old) (F.faults files.new) (F.absences files.old)
        (F.absences files.new) result }
    ensures in_order { IfOk result (λ u. IsInOrder u.settings) }
    ensures files { F.files files.new ≡ F.files files.old }
    ensures draft_name { F.draft_name files.new ≡ F.draft_name files.old }
    ensures draft_bytes { F.draft_bytes files.new ≡ F.draft_bytes files.old }
    ensures truthful { StaysTruthful (F.truthful files.old) (F.truthful files.new) }
{
    let answer = read_payload(alloc, files, name, composite, FILE_LIMIT)?;
    open_payload(alloc, answer)
}

/// Opens the KDBX file of a name under a composite key.
///
/// At Ok a file of version 4 is authentic: all its bytes up to the end block are under right MACs
/// of keys made from the composite key, which is handed back. A file of version 3.1 has no MAC: its
/// start bytes, the hashes of its blocks and the hash of its header, where the document keeps one,
/// are right. After a refusal the composite key was cleared and released. Whatever the answer, the
/// keys that were derived were cleared and released, and the store's files and its draft are as
/// they were. The clauses `some_file` and `held` hold of any store, whatever it reports and
/// answered: the answer is that of the bytes that it handed out.
///
/// # Errors
///
/// The first of [`OpenFail`]. A file has at most 134,217,728 bytes. Each refusal but FileFault of
/// the store and NoMemory comes only where the file and the key are so, and there unless memory
/// runs out or the store fails; FileFault only where the store's count of faults rose, and
/// NoSuchFile only where its count of absences rose.
pub fn open_file<F: FileStore>(
    alloc: Global,
    files: &mut F,
    name: &str,
    mut composite: Key,
) -> Result<Opened, OpenFail>
    ensures told { IfSome (reported (F.truthful files.new) (F.files files.old))
        (λ m. ReturnsFromStore opened_seen result (opening_of (map.get m name.now) composite)) }
    ensures sealed { IfSome (reported (F.truthful files.new) (F.files files.old))
        (λ m. IfOk result (λ o. Holds (map.get m name.now) composite (opened_seen o))) }
    ensures some_file { ReturnsOfSomeFile opened_seen composite result }
    ensures held { IfOk result (λ o. IsHeld composite (opened_seen o)) }
    ensures cause { HasOpenCause (F.faults files.old) (F.faults files.new) (F.absences files.old)
        (F.absences files.new) result }
    ensures in_order { IfOk result (λ o. IsInOrder o.settings) }
    ensures composite { IfOk result (λ o. o.composite ≡ composite) }
    ensures files { F.files files.new ≡ F.files files.old }
    ensures draft_name { F.draft_name files.new ≡ F.draft_name files.old }
    ensures draft_bytes { F.draft_bytes files.new ≡ F.draft_bytes files.old }
    ensures truthful { StaysTruthful (F.truthful files.old) (F.truthful files.new) }
{
    match open_named(alloc, files, name, &composite) {
        Ok(Unsealed { settings, doc }) => Ok(Opened {
            doc,
            settings,
            composite,
        }),
        Err(refusal) => {
            composite.clear();
            composite.release();
            Err(refusal)
        }
    }
}
