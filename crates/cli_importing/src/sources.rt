//! The source of an import, and the document that it is.
ghost use Rattle.std.specs.Prelude.{◌≡◌, ◌≢◌, ℕ, List, [], ◌∷◌, IfErr, IfOk, Some, option_map, OnOk};
ghost use Rattle.bitwarden_core.specs.Documents.{bitwarden_document};
ghost use Rattle.outside_core.specs.Files.{FileMap};
ghost use Rattle.outside_core.specs.Reports.{reported};
ghost use Rattle.psafe_core.specs.Outcome.{psafe_outcome};
ghost use Rattle.table_reading.specs.Columns.{passed_over};
ghost use Rattle.table_reading.specs.Documents.{csv_document};
ghost use Rattle.cli_messages.specs.Phases.{IsFileStop, IsPlainStop, Returns};
ghost use Rattle.cli_files.specs.Files.{plain_document};
ghost use Rattle.cli_files.specs.LeavesFiles.{LeavesFiles};
ghost use Rattle.cli_needs.specs.declared.command.ImportFormat.TheVariants as format;
ghost use Rattle.cli_needs.specs.SeenNeeds.{import_seen};
ghost use Rattle.cli_importing.specs.Answers as spec;
ghost use Rattle.cli_importing.specs.Answers.{IsBitwardenStop, IsDocumentStop, IsSafeStop, IsTableStop};
ghost use Rattle.cli_importing.specs.Held.{IsSourceBy};
ghost use Rattle.cli_importing.specs.SeenSource.{source_seen};
ghost use Rattle.cli_importing.specs.Imports.{bitwarden_or_refusal, given_password, plain_or_refusal, safe_or_refusal, source_by, source_of, table_or_refusal, with_passed};

use bitwarden_core::import_bitwarden;
use bitwarden_forms::BitwardenFail;
use cli_files::doc_read::{DocFail, ReadDoc};
use cli_files::{document_answer, read_plain, unread};
use cli_messages::{Reason, Stop, refused};
use cli_needs::{ImportFormat, ImportNeeds};
use kdbx_frame::FILE_LIMIT;
use outside_core::{FileStore, List, Text};
use psafe_core::import_psafe;
use psafe_file::PsafeFail;
use secret_core::{Secret, read_file};
use std::alloc::Global;
use table_reading::{TableFail, import_csv};
use time_core::Stamp;
use vault_model::Doc;

/// What an import's source is.
#[derive(Drop)]
pub struct Source {
    /// Its document.
    pub doc: Doc,
    /// The names of the columns that are passed over, where it is a table.
    pub passed_over: List<Text>,
}

// The answer that a refusal of the reader of Password Safe's files is.
fn safe_answer(fail: PsafeFail) -> Reason
    ensures is { result ≡ spec.safe_answer fail }
    ensures there { result ≢ Reason.NoSuchFile }
{
    match fail {
        PsafeFail::NotPsafe => Reason::NotPsafe,
        PsafeFail::Truncated(length) => Reason::EndsEarly(length),
        PsafeFail::IterLimit(_) => Reason::IterLimit,
        PsafeFail::WrongPassword { .. } => Reason::WrongPassword,
        PsafeFail::FieldForm(at) => Reason::BadField(at),
        PsafeFail::Mac { kept, found } => Reason::DamagedOrWrongKey { kept, found },
        PsafeFail::NilId(number) => Reason::NilRecord(number),
        PsafeFail::DuplicateId(id) => Reason::DuplicateId(id),
        PsafeFail::TooDeep(_) => Reason::TooDeep,
        PsafeFail::NoMemory => Reason::OutOfMemory,
    }
}

// The answer that a refusal of the reader of tables is.
fn table_answer(fail: TableFail) -> Reason
    ensures is { result ≡ spec.table_answer fail }
    ensures there { result ≢ Reason.NoSuchFile }
{
    match fail {
        TableFail::NotUtf8(length) => Reason::NotUtf8(length),
        TableFail::ColumnMissing => Reason::NoTitleColumn,
        TableFail::RowWidth(number) => Reason::BadRow(number),
        TableFail::BadTime(number) => Reason::BadRow(number),
        TableFail::DuplicateId(id) => Reason::DuplicateId(id),
        TableFail::TooDeep(_) => Reason::TooDeep,
        TableFail::NoMemory => Reason::OutOfMemory,
    }
}

// The answer that a refusal of the reader of Bitwarden's exports is.
fn bitwarden_answer(fail: BitwardenFail) -> Reason
    ensures is { result ≡ spec.bitwarden_answer fail }
    ensures there { result ≢ Reason.NoSuchFile }
{
    match fail {
        BitwardenFail::JsonForm => Reason::BadJson,
        BitwardenFail::Encrypted => Reason::EncryptedExport,
        BitwardenFail::FolderForm(number) => Reason::BadFolder(number),
        BitwardenFail::Member(number) => Reason::BadItem(number),
        BitwardenFail::NilId(number) => Reason::NilRecord(number),
        BitwardenFail::StampLimit(_) => Reason::StampLimit,
        BitwardenFail::DuplicateId(id) => Reason::DuplicateId(id),
        BitwardenFail::TooDeep(_) => Reason::TooDeep,
        BitwardenFail::NoMemory => Reason::OutOfMemory,
    }
}

// The stop of a call that could not make the document of the file of this name.
fn document_stop(alloc: Global, fail: DocFail, name: &str) -> Stop
    ensures stop { IsDocumentStop fail name.now result }
    ensures cause { IsPlainStop result }
{
    if let DocFail::NoMemory = fail {
        return Stop::NoMemory;
    }
    refused(alloc, document_answer(fail), name)
}

// A source that is no table.
fn no_table(alloc: Global, doc: Doc) -> Source
    ensures { result ≡ record { doc = doc; passed_over = [] } }
{
    Source {
        doc,
        passed_over: List::new(alloc),
    }
}

// The plain document in these bytes of a file.
fn read_document(alloc: Global, name: &str, bytes: Secret) -> Result<Source, Stop>
    ensures gives { Returns source_seen result
        (with_passed [] (plain_or_refusal name.now (plain_document bytes.bytes))) }
    ensures cause { IfErr result IsPlainStop }
{
    match read_plain(alloc, bytes) {
        Ok(
            ReadDoc {
                doc,
                header_hash: _,
            },
        ) => Ok(no_table(alloc, doc)),
        Err(fail) => Err(document_stop(alloc, fail, name)),
    }
}

// A password that is given; none is empty.
fn given_password<'a>(password: Option<&'a [u8]>) -> &'a [u8]
    ensures { result.now ≡ given_password (option_map (λ p. p.now) password.entry) }
{
    match password {
        Some(password) => password,
        None => &[],
    }
}

// The stop of a call that could not read the file of Password Safe of this name.
fn safe_stop(alloc: Global, fail: PsafeFail, name: &str) -> Stop
    ensures stop { IsSafeStop fail name.now result }
    ensures cause { IsPlainStop result }
{
    if let PsafeFail::NoMemory = fail {
        return Stop::NoMemory;
    }
    refused(alloc, safe_answer(fail), name)
}

// The document of a file of Password Safe, under its password.
fn read_safe(
    alloc: Global,
    name: &str,
    password: Option<&[u8]>,
    bytes: &Secret,
    now: Stamp,
) -> Result<Source, Stop>
    ensures gives { Returns source_seen result (with_passed [] (safe_or_refusal name.now
        (psafe_outcome bytes.now.bytes (given_password (option_map (λ p. p.now) password.entry))
        now))) }
    ensures cause { IfErr result IsPlainStop }
{
    match import_psafe(
        alloc,
        bytes.lend(0, bytes.len()),
        given_password(password),
        now,
    ) {
        Ok(doc) => Ok(no_table(alloc, doc)),
        Err(fail) => Err(safe_stop(alloc, fail, name)),
    }
}

// The stop of a call that could not read the table of this name.
fn table_stop(alloc: Global, fail: TableFail, name: &str) -> Stop
    ensures stop { IsTableStop fail name.now result }
    ensures cause { IsPlainStop result }
{
    if let TableFail::NoMemory = fail {
        return Stop::NoMemory;
    }
    refused(alloc, table_answer(fail), name)
}

// The document of a table, with the columns that are passed over.
fn read_table(alloc: Global, name: &str, bytes: &Secret, now: Stamp) -> Result<Source, Stop>
    ensures gives { Returns source_seen result (with_passed (passed_over bytes.now.bytes)
        (table_or_refusal name.now (csv_document bytes.now.bytes now))) }
    ensures cause { IfErr result IsPlainStop }
{
    match import_csv(alloc, bytes.lend(0, bytes.len()), now) {
        Ok(table) => Ok(Source {
            doc: table.doc,
            passed_over: table.passed_over,
        }),
        Err(fail) => Err(table_stop(alloc, fail, name)),
    }
}

// The stop of a call that could not read the export of Bitwarden of this name.
fn bitwarden_stop(alloc: Global, fail: BitwardenFail, name: &str) -> Stop
    ensures stop { IsBitwardenStop fail name.now result }
    ensures cause { IsPlainStop result }
{
    if let BitwardenFail::NoMemory = fail {
        return Stop::NoMemory;
    }
    refused(alloc, bitwarden_answer(fail), name)
}

// The document of an unencrypted export of Bitwarden.
fn read_bitwarden(alloc: Global, name: &str, bytes: &Secret, now: Stamp) -> Result<Source, Stop>
    ensures gives { Returns source_seen result (with_passed []
        (bitwarden_or_refusal name.now (bitwarden_document bytes.now.bytes now))) }
    ensures cause { IfErr result IsPlainStop }
{
    match import_bitwarden(alloc, bytes.lend(0, bytes.len()), now) {
        Ok(doc) => Ok(no_table(alloc, doc)),
        Err(fail) => Err(bitwarden_stop(alloc, fail, name)),
    }
}

// The source that the bytes of a file are in a format, under a password, if the format has one, and
// at a moment.
fn read_by(
    alloc: Global,
    format: ImportFormat,
    name: &str,
    password: Option<&[u8]>,
    bytes: Secret,
    now: u64,
) -> Result<Source, Stop>
    ensures gives { Returns source_seen result (source_by format name.now
        (option_map (λ p. p.now) password.entry) now bytes.bytes) }
    ensures cause { IfErr result IsPlainStop }
{
    if let ImportFormat::Xml = format {
        return read_document(alloc, name, bytes);
    }
    let Some(stamp) = Stamp::of(now) else {
        drop(bytes);
        return Err(refused(alloc, Reason::StampLimit, name));
    };
    if let ImportFormat::Psafe = format {
        let read = read_safe(alloc, name, password, &bytes, stamp);
        drop(bytes);
        return read;
    }
    if let ImportFormat::Bitwarden = format {
        let read = read_bitwarden(alloc, name, &bytes, stamp);
        drop(bytes);
        return read;
    }
    let read = read_table(alloc, name, &bytes, stamp);
    drop(bytes);
    read
}

/// Reads the source of an import, whose file is not changed.
pub(crate) fn read_source<F: FileStore>(
    alloc: Global,
    files: &mut F,
    import: ImportNeeds<'_>,
    password: Option<&[u8]>,
    now: u64,
) -> Result<Source, Stop>
    ensures told { (m : FileMap) → reported (F.truthful files.new) (F.files files.old) ≡ Some m
        → Returns source_seen result (source_of (import_seen import.entry)
        (option_map (λ p. p.now) password.entry) now m) }
    ensures some_file { IfOk result (λ source. (bytes : List ℕ)
        × IsSourceBy import.entry.format (option_map (λ p. p.now) password.entry) now bytes
        (source_seen source)) }
    ensures cause { IfErr result (IsFileStop (import.entry.source.now ∷ []) (F.faults files.old)
        (F.faults files.new) (F.absences files.old) (F.absences files.new)) }
    ensures leaves { LeavesFiles F.files F.draft_name F.draft_bytes F.truthful F.faults
        F.absences files.old files.new }
    ensures faultless { OnOk result (F.faults files.new ≡ F.faults files.old) }
{
    let name = import.source.as_str();
    match read_file(alloc, files, name, FILE_LIMIT) {
        Ok(bytes) => read_by(alloc, import.format, name, password, bytes, now),
        Err(fail) => Err(unread(alloc, fail, name)),
    }
}
