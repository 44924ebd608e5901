//! The databases of a call.
ghost use Rattle.std.specs.Prelude.{◌≡◌, ◌≢◌, ◌⊎◌, [], ◌∷◌, ◌++◌, IfErr, IfOk, IfSome, IsSome, OnOk, Some, false, map, option_map};
ghost use Rattle.std.specs.FinMap as finmap;
ghost use Rattle.outside_core.specs.Files.{FileMap};
ghost use Rattle.outside_core.specs.Reports.{reported};
ghost use Rattle.cli_lines.specs.KdbxFrame.Settings.{IsInOrder};
ghost use Rattle.cli_files.specs.Files.{Opened as BareOpened};
ghost use Rattle.cli_files.specs.LeavesFiles.{LeavesFiles};
ghost use Rattle.cli_files.specs.SeenOpened.{opened_seen};
ghost use Rattle.cli_databases.specs.Databases as spec;
ghost use Rattle.cli_databases.specs.Databases.{CanOpenAll, IsUnopened, databases_of, docs_from, document_in, held_in, held_under, plain_of, sealed_in, sources_of};
ghost use Rattle.cli_databases.specs.SeenOpened.{databases_seen};
ghost use Rattle.cli_databases.specs.SomeFiles.{GainsSources, IsSealedUnder, SomeDatabases, SomeHolds, SomePlain, SomeSources};
ghost use Rattle.key_core.specs.Keys.{composite_key};
ghost use Rattle.cli_lines.specs.Lines.{CanOpen, HasLines};
ghost use Rattle.cli_lines.specs.SeenLines.{line_seen, lines_seen};
ghost use Rattle.vault_model.specs.SeenDoc.{doc_seen};
ghost use Rattle.cli_messages.specs.Phases.{Returns, IsFileStop};
ghost use Rattle.cli_needs.specs.Needs.{HasKeys, database_files, files_of, key_files, source_files};
ghost use Rattle.cli_needs.specs.SeenNeeds.{needs_seen};

use crate::plain::build;
use cli_files::{Opened, bytes_in, document_answer, key_of, name_in, unread};
use cli_lines::Lines;
use cli_lines::kdbx_frame::{FILE_LIMIT, FrameFail, Sealing, release_key};
use cli_messages::{Reason, Stop, refused};
use cli_needs::{Access, Needs};
use kdbx_open::{OpenFail, open_file};
use key_core::composite;
use mac_core::BlockFail;
use outside_core::{FileStore, List, Text};
use secret_core::{Key, Secret, read_file};
use std::alloc::Global;
use vault_model::Doc;

/// The databases of a call.
pub struct Databases {
    /// The one that its command shows or changes.
    pub target: Opened,
    /// The documents of its sources.
    pub sources: List<Doc>,
}

// The answer that a refusal of a header or of inner fields is.
fn frame_answer(fail: FrameFail) -> Reason
    ensures is { result ≡ spec.frame_answer fail }
    ensures there { result ≢ Reason.NoSuchFile }
{
    match fail {
        FrameFail::NotKdbx => Reason::NotKdbx,
        FrameFail::Version(number) => Reason::Version(number),
        FrameFail::Truncated(at) => Reason::EndsEarly(at),
        FrameFail::TooLarge(_) => Reason::TooLarge,
        FrameFail::FieldTwice(id) => Reason::BadHeaderField(id),
        FrameFail::FieldLength(id, _) => Reason::BadHeaderField(id),
        FrameFail::Dictionary(at) => Reason::BadDictionary(at),
        FrameFail::HeaderHash { kept, found } => Reason::DamagedOrWrongKey { kept, found },
        FrameFail::FieldMissing(id) => Reason::BadHeaderField(id),
        FrameFail::CipherUnknown(id) => Reason::UnknownId(id),
        FrameFail::Compressed(_) => Reason::Compressed,
        FrameFail::KdfUnknown(id) => Reason::UnknownId(id),
        FrameFail::Variant(number) => Reason::Variant(number),
        FrameFail::KdfLimit(_, _) => Reason::KdfLimit,
        FrameFail::NoMemory => Reason::OutOfMemory,
    }
}

// The answer that a refusal of a block is.
fn block_answer(fail: BlockFail) -> Reason
    ensures is { result ≡ spec.block_answer fail }
    ensures there { result ≢ Reason.NoSuchFile }
{
    match fail {
        BlockFail::Truncated(at) => Reason::EndsEarly(at),
        BlockFail::BlockMac(number) => Reason::DamagedBlock(number),
        BlockFail::BlockHash(number) => Reason::DamagedBlock(number),
        BlockFail::BlockIndex(number) => Reason::DamagedBlock(number),
    }
}

// What is refused when a file is not opened.
fn unopened(alloc: Global, fail: OpenFail, name: &str) -> Stop
    ensures { IsUnopened fail name.now result }
{
    match fail {
        OpenFail::File(fail) => unread(alloc, fail, name),
        OpenFail::Frame(fail) => refused(alloc, frame_answer(fail), name),
        OpenFail::KeyOrHeader { kept, found } => {
            refused(alloc, Reason::DamagedOrWrongKey { kept, found }, name)
        }
        OpenFail::Block(fail) => refused(alloc, block_answer(fail), name),
        OpenFail::BadPadding | OpenFail::StartBytes => {
            refused(alloc, Reason::WrongKeyOrDamaged, name)
        }
        OpenFail::StreamUnknown(number) => refused(alloc, Reason::StreamUnknown(number), name),
        OpenFail::Doc(fail) => refused(alloc, document_answer(fail), name),
        OpenFail::HeaderHash { kept, found } => {
            refused(alloc, Reason::DamagedOrWrongKey { kept, found }, name)
        }
        OpenFail::NoMemory => Stop::NoMemory,
    }
}

// The plain document in a file.
fn open_plain<F: FileStore>(alloc: Global, files: &mut F, name: &str) -> Result<Opened, Stop>
    ensures told { (m : FileMap) → reported (F.truthful files.new) (F.files files.old) ≡ Some m
        → Returns opened_seen result (plain_of name.now (finmap.get m name.now)) }
    ensures some_file { IfOk result (λ opened. SomePlain (opened_seen opened)) }
    ensures in_order { IfOk result (λ opened. IfSome opened.sealing (λ sealing.
        IsInOrder sealing.settings)) }
    ensures cause { IfErr result (IsFileStop (name.now ∷ []) (F.faults files.old)
        (F.faults files.new) (F.absences files.old) (F.absences files.new)) }
    ensures leaves { LeavesFiles F.files F.draft_name F.draft_bytes F.truthful F.faults
        F.absences files.old files.new }
    ensures faultless { OnOk result (F.faults files.new ≡ F.faults files.old) }
{
    match read_file(alloc, files, name, FILE_LIMIT) {
        Ok(bytes) => build(alloc, name, bytes),
        Err(fail) => Err(unread(alloc, fail, name)),
    }
}

// A database that was opened under its composite key, which goes on with it.
fn sealed_by(alloc: Global, opened: kdbx_open::Opened) -> Opened
    ensures { result ≡ record {
      doc = opened.doc;
      sealing = Some (record { settings = opened.settings; composite = opened.composite });
      passed_over = [];
    } }
{
    let kdbx_open::Opened {
        doc,
        settings,
        composite,
    } = opened;
    Opened {
        doc,
        sealing: Some(Sealing {
            settings,
            composite,
        }),
        passed_over: List::new(alloc),
    }
}

// What a file holds sealed under a composite key, which goes on with what was opened, and is
// cleared and released otherwise.
#[tactic(auto, unfolding(crate::specs::Databases::held_under))]
fn open_under<F: FileStore>(
    alloc: Global,
    files: &mut F,
    name: &str,
    composite: Key,
) -> Result<Opened, Stop>
    ensures told { (m : FileMap) → reported (F.truthful files.new) (F.files files.old) ≡ Some m
        → Returns opened_seen result (held_under name.now m composite) }
    ensures some_file { IfOk result (λ opened. IsSealedUnder composite (opened_seen opened)) }
    ensures in_order { IfOk result (λ opened. IfSome opened.sealing (λ sealing.
        IsInOrder sealing.settings)) }
    ensures cause { IfErr result (IsFileStop (name.now ∷ []) (F.faults files.old)
        (F.faults files.new) (F.absences files.old) (F.absences files.new)) }
    ensures leaves { LeavesFiles F.files F.draft_name F.draft_bytes F.truthful F.faults
        F.absences files.old files.new }
    ensures faultless { OnOk result (F.faults files.new ≡ F.faults files.old) }
{
    match open_file(alloc, files, name, composite) {
        Ok(opened) => Ok(sealed_by(alloc, opened)),
        Err(fail) => Err(unopened(alloc, fail, name)),
    }
}

/// What a file holds sealed under the composite key of a password and a key file's key, of which
/// there is one at least. The composite key must be cleared and released; after a refusal it was.
pub fn open_sealed<F: FileStore>(
    alloc: Global,
    files: &mut F,
    name: &str,
    password: Option<&[u8]>,
    key: Option<Key>,
) -> Result<Opened, Stop>
    requires { IsSome password ⊎ IsSome key }
    ensures told { (m : FileMap) → reported (F.truthful files.new) (F.files files.old) ≡ Some m
        → Returns opened_seen result (sealed_in name.now m
        (option_map (λ p. p.now) password.entry) key) }
    ensures some_file { IfOk result (λ opened. IsSealedUnder
        (composite_key (option_map (λ p. p.now) password.entry) key) (opened_seen opened)) }
    ensures in_order { IfOk result (λ opened. IfSome opened.sealing (λ sealing.
        IsInOrder sealing.settings)) }
    ensures cause { IfErr result (IsFileStop (name.now ∷ []) (F.faults files.old)
        (F.faults files.new) (F.absences files.old) (F.absences files.new)) }
    ensures leaves { LeavesFiles F.files F.draft_name F.draft_bytes F.truthful F.faults
        F.absences files.old files.new }
    ensures faultless { OnOk result (F.faults files.new ≡ F.faults files.old) }
{
    open_under(alloc, files, name, composite(password, key))
}

// What a file holds: a document by itself, or else sealed.
fn open_held<F: FileStore>(
    alloc: Global,
    files: &mut F,
    access: &Access,
    file: &str,
    password: Option<&[u8]>,
) -> Result<Opened, Stop>
    requires { access.now.plain ≡ false → IsSome password ⊎ IsSome access.now.key_file }
    ensures told { (m : FileMap) → reported (F.truthful files.new) (F.files files.old) ≡ Some m
        → Returns opened_seen result (held_in access.now.plain access.now.key_file file.now
        (option_map (λ p. p.now) password.entry) m) }
    ensures some_file { IfOk result (λ opened. SomeHolds access.now.plain access.now.key_file
        (option_map (λ p. p.now) password.entry) (opened_seen opened)) }
    ensures in_order { IfOk result (λ opened. IfSome opened.sealing (λ sealing.
        IsInOrder sealing.settings)) }
    ensures cause { IfErr result (IsFileStop (key_files access.now.key_file ++ file.now ∷ [])
        (F.faults files.old) (F.faults files.new) (F.absences files.old) (F.absences files.new)) }
    ensures leaves { LeavesFiles F.files F.draft_name F.draft_bytes F.truthful F.faults
        F.absences files.old files.new }
    ensures faultless { OnOk result (F.faults files.new ≡ F.faults files.old) }
{
    if access.plain {
        return open_plain(alloc, files, file);
    }
    let key = key_of(alloc, files, name_in(&access.key_file))?;
    open_sealed(alloc, files, file, password, key)
}

// The document of a database. The composite key of a sealed one is cleared and released.
fn document(opened: Opened) -> Doc
    ensures { result ≡ opened.doc }
{
    let Opened {
        doc,
        sealing,
        passed_over,
    } = opened;
    release_key(sealing);
    drop(passed_over);
    doc
}

// The password of a source: that of the target, or the source's own line.
fn password_from<'a>(
    same: bool,
    target: Option<&'a [u8]>,
    own: &'a Option<Secret>,
) -> Option<&'a [u8]>
    ensures { option_map (λ p. p.now) result ≡ spec.password_from same
        (option_map (λ p. p.now) target.entry) (line_seen own.now) }
{
    if same { target } else { bytes_in(own) }
}

// The document of a source.
fn open_source<F: FileStore>(
    alloc: Global,
    files: &mut F,
    from: &Access,
    name: &Text,
    password: Option<&[u8]>,
) -> Result<Doc, Stop>
    requires { CanOpen from.now (option_map (λ p. p.now) password) }
    ensures told { (m : FileMap) → reported (F.truthful files.new) (F.files files.old) ≡ Some m
        → Returns doc_seen result (document_in from.now name.now
        (option_map (λ p. p.now) password.entry) m) }
    ensures some_file { IfOk result (λ doc. (opened : BareOpened)
        × (SomeHolds from.now.plain from.now.key_file (option_map (λ p. p.now) password.entry)
        opened × (opened.doc ≡ doc_seen doc))) }
    ensures cause { IfErr result (IsFileStop (database_files from.now name.now)
        (F.faults files.old) (F.faults files.new) (F.absences files.old) (F.absences files.new)) }
    ensures leaves { LeavesFiles F.files F.draft_name F.draft_bytes F.truthful F.faults
        F.absences files.old files.new }
    ensures faultless { OnOk result (F.faults files.new ≡ F.faults files.old) }
{
    match open_held(alloc, files, from, name.as_str(), password) {
        Ok(opened) => Ok(document(opened)),
        Err(stop) => Err(stop),
    }
}

// Puts the document of a source after those of others.
fn put_document(docs: &mut List<Doc>, doc: Doc) -> Result<(), Stop>
    ensures ok { OnOk result (docs.new ≡ docs.old ++ doc ∷ []) }
    ensures err { IfErr result (λ stop. stop ≡ Stop.NoMemory) }
{
    match docs.push(doc) {
        Ok(()) => Ok(()),
        Err(doc) => {
            drop(doc);
            Err(Stop::NoMemory)
        }
    }
}

// Opens the sources that are left, one after another, with their lines.
#[tactic(auto, unfolding(crate::specs::Databases::docs_from))]
fn open_sources<F: FileStore>(
    alloc: Global,
    files: &mut F,
    needs: Needs<'_>,
    target: Option<&[u8]>,
    lines: &[Option<Secret>],
    docs: &mut List<Doc>,
) -> Result<(), Stop>
    requires { CanOpenAll needs.from.now needs.same (option_map (λ p. p.now) target)
        needs.sources.now (map line_seen lines.now) }
    ensures told { (m : FileMap) → reported (F.truthful files.new) (F.files files.old) ≡ Some m
        → Returns (λ _. map doc_seen docs.new) result
        (docs_from needs.entry.from.now needs.entry.same (option_map (λ p. p.now) target.entry)
        needs.entry.sources.now (map line_seen lines.now) (map doc_seen docs.old) m) }
    ensures some_file { OnOk result (GainsSources needs.entry.from.now needs.entry.same
        (option_map (λ p. p.now) target.entry) needs.entry.sources.now (map line_seen lines.now)
        (map doc_seen docs.old) (map doc_seen docs.new)) }
    ensures cause { IfErr result (IsFileStop
        (source_files needs.entry.from.now needs.entry.sources.now)
        (F.faults files.old) (F.faults files.new) (F.absences files.old) (F.absences files.new)) }
    ensures leaves { LeavesFiles F.files F.draft_name F.draft_bytes F.truthful F.faults
        F.absences files.old files.new }
    ensures faultless { OnOk result (F.faults files.new ≡ F.faults files.old) }
{
    let [name, names @ ..] = needs.sources else {
        return Ok(());
    };
    let [own, lines @ ..] = lines else {
        return Ok(());
    };
    let password = password_from(needs.same, target, own);
    match open_source(alloc, files, needs.from, name, password) {
        Ok(doc) => put_document(docs, doc)?,
        Err(stop) => return Err(stop),
    }
    let rest = Needs {
        sources: names,
        ..needs
    };
    open_sources(alloc, files, rest, target, lines, docs)
}

// The documents of a command's sources.
fn open_all<F: FileStore>(
    alloc: Global,
    files: &mut F,
    needs: Needs<'_>,
    lines: &Lines,
) -> Result<List<Doc>, Stop>
    requires { CanOpenAll needs.from.now needs.same (line_seen lines.now.password)
        needs.sources.now (map line_seen lines.now.sources) }
    ensures told { (m : FileMap) → reported (F.truthful files.new) (F.files files.old) ≡ Some m
        → Returns (λ docs. map doc_seen docs) result
        (sources_of (needs_seen needs.entry) (lines_seen lines.now) m) }
    ensures some_file { IfOk result (λ docs. SomeSources needs.entry.from.now needs.entry.same
        (line_seen lines.now.password) needs.entry.sources.now (map line_seen lines.now.sources)
        (map doc_seen docs)) }
    ensures cause { IfErr result (IsFileStop
        (source_files needs.entry.from.now needs.entry.sources.now)
        (F.faults files.old) (F.faults files.new) (F.absences files.old) (F.absences files.new)) }
    ensures leaves { LeavesFiles F.files F.draft_name F.draft_bytes F.truthful F.faults
        F.absences files.old files.new }
    ensures faultless { OnOk result (F.faults files.new ≡ F.faults files.old) }
{
    let mut docs = List::new(alloc);
    let target = bytes_in(&lines.password);
    match open_sources(
        alloc,
        files,
        needs,
        target,
        lines.sources.as_slice(),
        &mut docs,
    ) {
        Ok(()) => Ok(docs),
        Err(stop) => {
            drop(docs);
            Err(stop)
        }
    }
}

/// Opens the databases that a command asks for, with the lines that it asked for: its own, and then
/// its sources, one after another. The composite key of a sealed one of its own goes on with it,
/// and must be cleared and released; after a refusal it was, and so are those of the sources.
#[tactic(auto, unfolding(crate::specs::Databases::databases_of))]
pub fn open<F: FileStore>(
    alloc: Global,
    files: &mut F,
    needs: Needs<'_>,
    lines: &Lines,
) -> Result<Databases, Stop>
    requires keys { HasKeys (needs_seen needs) }
    requires lines { HasLines (needs_seen needs) (lines_seen lines.now) }
    ensures told { (m : FileMap) → reported (F.truthful files.new) (F.files files.old) ≡ Some m
        → Returns databases_seen result
        (databases_of (needs_seen needs.entry) (lines_seen lines.now) m) }
    ensures some_file { IfOk result (λ databases. SomeDatabases (needs_seen needs.entry)
        (lines_seen lines.now) (databases_seen databases)) }
    ensures in_order { IfOk result (λ databases. IfSome databases.target.sealing (λ sealing.
        IsInOrder sealing.settings)) }
    ensures cause { IfErr result (IsFileStop (files_of (needs_seen needs.entry))
        (F.faults files.old) (F.faults files.new) (F.absences files.old) (F.absences files.new)) }
    ensures leaves { LeavesFiles F.files F.draft_name F.draft_bytes F.truthful F.faults
        F.absences files.old files.new }
    ensures faultless { OnOk result (F.faults files.new ≡ F.faults files.old) }
{
    let password = bytes_in(&lines.password);
    let target = open_held(alloc, files, needs.access, needs.file.as_str(), password)?;
    match open_all(alloc, files, needs, lines) {
        Ok(sources) => Ok(Databases { target, sources }),
        Err(stop) => {
            drop(document(target));
            Err(stop)
        }
    }
}
