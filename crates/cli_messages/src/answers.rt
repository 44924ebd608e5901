//! What the program refuses with: the answers, their statuses and their texts.
ghost use Rattle.std.specs.Prelude.{◌≡◌, ◌++◌, IfOk, OnOk, codes, string_bytes};
ghost use Rattle.std.specs.Fmt.{decimal};
ghost use Rattle.hex.specs.Hex.{encode_lower};
ghost use Rattle.uuid.specs.Text.{hyphenated_text, lower};
ghost use Rattle.cli_messages.specs.Messages.{status_of, reason_text, error_line, refusal_of, needed_text, spaced_ids, Refuses};

use outside_core::{Bytes, List, NoMemory, Text};
use std::alloc::{AllocError, Global};
use uuid_core::Uuid;

/// The version of the format that a file needs for what is in it; version 3.1 is never the least.
#[derive(Clone, Copy)]
pub enum NeededVersion {
    /// Version 4.0.
    V40,
    /// Version 4.1.
    V41,
}

/// Why a call of the program is refused. A place is in bytes from the start of the file, or of its
/// deciphered text.
#[derive(Drop)]
pub enum Reason {
    /// The words are no command.
    WrongWords,
    /// A term of a search, at the place in the words that say it, has no text.
    EmptyTerm(usize),
    /// The path names nothing.
    NoSuchPath,
    /// Another node has the path already.
    NameTaken,
    /// The node is in that group already.
    AlreadyThere,
    /// The root can neither be moved nor removed.
    RootFixed,
    /// The group of this id would be moved into itself.
    IntoItself(Uuid),
    /// This id is nil, a node's, or that of a node that was deleted.
    IdTaken(Uuid),
    /// The entry has no attribute of the name.
    NoAttribute(Text),
    /// The entry has no attachment of this name.
    NoAttachment(Text),
    /// The entry has no version of this number.
    NoVersion(u64),
    /// No entry matches the terms of a search.
    NoResult,
    /// There is a file of the name already, and the command makes a new one.
    FileExists,
    /// The database, or its key derivation, needs this version of the format, and an older one is
    /// asked for.
    NeedsVersion(NeededVersion),
    /// The file keeps another hash or MAC of its header than the header has under the key.
    DamagedOrWrongKey { kept: [u8; 32], found: [u8; 32] },
    /// The block of this number is not the one that was written.
    DamagedBlock(u64),
    /// The deciphered text does not end as every text does.
    WrongKeyOrDamaged,
    /// The file of Password Safe has another password.
    WrongPassword,
    /// The key file keeps another hash than its key has.
    KeyFileHash { kept: [u8; 4], found: [u8; 4] },
    /// The file is not a KDBX file.
    NotKdbx,
    /// The file is not one of Password Safe V3.
    NotPsafe,
    /// The file, or its deciphered text, ends before a part of it does, at the place.
    EndsEarly(u64),
    /// The field of this number is missing, occurs twice or has a wrong length.
    BadHeaderField(u8),
    /// The dictionary of the key derivation is malformed at the place.
    BadDictionary(u64),
    /// The document leaves the grammar of markup at the place.
    Form(usize),
    /// The document lacks an element that must be there: of a group or an entry at the place, or of
    /// the whole at 0.
    MissingElement(usize),
    /// The element at the place says what its kind cannot say.
    BadValue(usize),
    /// The group or the entry at the place has the nil id.
    NilId(usize),
    /// The record or the item of this number has the nil id.
    NilRecord(u64),
    /// Two nodes of the document have this id.
    DuplicateId(Uuid),
    /// An attachment refers to the binary of this number, and there is none.
    BinaryRef(u64),
    /// The key file is a key document that is malformed at the place.
    BadKeyFile(usize),
    /// The field at the place in the deciphered records is malformed or passes their end, or the
    /// records end at the place before the last of them does.
    BadField(u64),
    /// The table is UTF-8 up to the place alone.
    NotUtf8(u64),
    /// The table has no column for titles.
    NoTitleColumn,
    /// The row of this number has another width than the first, or a malformed time.
    BadRow(u64),
    /// The export is no JSON, or no object of it.
    BadJson,
    /// The folder of this number in the export is malformed.
    BadFolder(u64),
    /// The item of this number in the export is malformed, or names no folder.
    BadItem(u64),
    /// The line of this number is not UTF-8.
    LineForm(u64),
    /// Files of this version are not read.
    Version(u32),
    /// The cipher or the key derivation of this id is not known.
    UnknownId(Uuid),
    /// The inner stream of this number is not known.
    StreamUnknown(u32),
    /// The file, or bytes in the document, are compressed.
    Compressed,
    /// The key derivation is of this variant, which is not read.
    Variant(u64),
    /// The export is encrypted.
    EncryptedExport,
    /// A node of this id is in the way of a merge: a root has the id elsewhere, or a node of another
    /// kind.
    Clash(Uuid),
    /// Latest moves make a cycle of the nodes of these ids.
    MoveCycle(List<Uuid>),
    /// There is no file of the name.
    NoSuchFile,
    /// The file, or the header in it, is longer than one that is read may be.
    TooLarge,
    /// Too many elements of the document are open at once.
    Depth,
    /// The document has a group below the last level, or, in a merge, an entry.
    TooDeep,
    /// The document has too many groups, entries and history items.
    TooMany,
    /// The file asks for more work to derive its key than is done.
    KdfLimit,
    /// The file of Password Safe asks for more hashes of its key than are made.
    IterLimit,
    /// A time that is to be set is after the year 9999.
    StampLimit,
    /// A line of the input is too long.
    LineLimit,
    /// What is shown would be too long with its references resolved.
    TooMuch,
    /// The entry has neither the field `otp` nor the older `TOTP Seed`.
    NoOtp,
    /// What the entry, or a line, says of one-time codes is malformed at the place in its text.
    OtpForm(usize),
    /// It asks for a hash or an encoding that is not supported, at the place in its text.
    OtpUnknown(usize),
    /// Its period, its digits, its secret or the moment is outside the limits of codes.
    OtpLimit,
    /// Of the random bytes 128 one after the other were refused for one character of a password.
    Spent,
    /// Memory ran out.
    OutOfMemory,
    /// The input ended before the line of this number, which is due.
    InputEnded(u64),
}

/// An answer and what it is about: a file by its name, `input` or `words`.
#[derive(Drop)]
pub struct Refusal {
    /// Why.
    pub reason: Reason,
    /// What it is about.
    pub subject: Text,
}

/// Why a phase of a call stops.
#[derive(Drop)]
pub enum Stop {
    /// What was asked for is refused, and would be again.
    Refused(Refusal),
    /// The store failed at the file of this name.
    FileFault(Text),
    /// The input or the dice failed.
    InputFault,
    /// Memory ran out.
    NoMemory,
}

impl From<NoMemory> for Stop {
    ghost use Rattle.cli_messages.specs.declared.answers.Stop.TheVariants as stop;

    ghost from_gives = { λ _ e. e ≡ stop.NoMemory };

    fn from(_none: NoMemory) -> Stop {
        Stop::NoMemory
    }
}

/// The status of the program for an answer.
pub fn status(reason: &Reason) -> u8
    ensures { result ≡ status_of reason.now }
{
    match reason {
        Reason::WrongWords => 1,
        Reason::EmptyTerm(_) => 1,
        Reason::NoSuchPath => 2,
        Reason::NameTaken => 2,
        Reason::AlreadyThere => 2,
        Reason::RootFixed => 2,
        Reason::IntoItself(_) => 2,
        Reason::IdTaken(_) => 2,
        Reason::NoAttribute(_) => 2,
        Reason::NoAttachment(_) => 2,
        Reason::NoVersion(_) => 2,
        Reason::NoResult => 2,
        Reason::FileExists => 2,
        Reason::NeedsVersion(_) => 2,
        Reason::DamagedOrWrongKey { .. } => 3,
        Reason::DamagedBlock(_) => 3,
        Reason::WrongKeyOrDamaged => 3,
        Reason::WrongPassword => 3,
        Reason::KeyFileHash { .. } => 3,
        Reason::NotKdbx => 4,
        Reason::NotPsafe => 4,
        Reason::EndsEarly(_) => 4,
        Reason::BadHeaderField(_) => 4,
        Reason::BadDictionary(_) => 4,
        Reason::Form(_) => 4,
        Reason::MissingElement(_) => 4,
        Reason::BadValue(_) => 4,
        Reason::NilId(_) => 4,
        Reason::NilRecord(_) => 4,
        Reason::DuplicateId(_) => 4,
        Reason::BinaryRef(_) => 4,
        Reason::BadKeyFile(_) => 4,
        Reason::BadField(_) => 4,
        Reason::NotUtf8(_) => 4,
        Reason::NoTitleColumn => 4,
        Reason::BadRow(_) => 4,
        Reason::BadJson => 4,
        Reason::BadFolder(_) => 4,
        Reason::BadItem(_) => 4,
        Reason::LineForm(_) => 4,
        Reason::Version(_) => 5,
        Reason::UnknownId(_) => 5,
        Reason::StreamUnknown(_) => 5,
        Reason::Compressed => 5,
        Reason::Variant(_) => 5,
        Reason::EncryptedExport => 5,
        Reason::Clash(_) => 6,
        Reason::MoveCycle(_) => 6,
        Reason::NoSuchFile => 7,
        Reason::TooLarge => 8,
        Reason::Depth => 8,
        Reason::TooDeep => 8,
        Reason::TooMany => 8,
        Reason::KdfLimit => 8,
        Reason::IterLimit => 8,
        Reason::StampLimit => 8,
        Reason::LineLimit => 8,
        Reason::TooMuch => 8,
        Reason::NoOtp => 2,
        Reason::OtpForm(_) => 4,
        Reason::OtpUnknown(_) => 5,
        Reason::OtpLimit => 8,
        Reason::Spent => 8,
        Reason::OutOfMemory => 9,
        Reason::InputEnded(_) => 12,
    }
}

// A number after a text.
fn numbered(alloc: Global, front: &str, number: u64) -> Result<String, AllocError>
    ensures { IfOk result (λ text. string_bytes text ≡ front.now ++ decimal number) }
{
    format!(in alloc; "{front}{number}")
}

// An id after a text.
fn with_id(alloc: Global, front: &str, id: &Uuid) -> Result<String, AllocError>
    ensures { IfOk result (λ text. string_bytes text ≡ front.now ++ hyphenated_text lower id.now) }
{
    format!(in alloc; "{front}{id}")
}

// A group by its id that would be moved into itself.
fn into_itself(alloc: Global, id: &Uuid) -> Result<String, AllocError>
    ensures { IfOk result (λ text. string_bytes text
        ≡ hyphenated_text lower id.now ++ codes " into itself") }
{
    format!(in alloc; "{id} into itself")
}

// Adds the digits of bytes.
fn add_digits<const N: usize>(
    alloc: Global,
    text: &mut String,
    bytes: [u8; N],
) -> Result<(), AllocError>
    ensures { OnOk result (string_bytes text.new
        ≡ string_bytes text.old ++ encode_lower bytes.entry) }
{
    let digits = hex::encode(alloc, bytes)?;
    let added = text.push_str(digits.as_str());
    drop(digits);
    added
}

// Adds bytes that are kept and bytes that are found.
fn add_compared<const N: usize>(
    alloc: Global,
    text: &mut String,
    kept: [u8; N],
    found: [u8; N],
) -> Result<(), AllocError>
    ensures { OnOk result (string_bytes text.new ≡ string_bytes text.old
        ++ encode_lower kept.entry ++ codes " found " ++ encode_lower found.entry) }
{
    add_digits(alloc, text, kept)?;
    text.push_str(" found ")?;
    add_digits(alloc, text, found)
}

// Bytes that are kept and bytes that are found, after a text.
fn compared<const N: usize>(
    alloc: Global,
    front: &str,
    kept: [u8; N],
    found: [u8; N],
) -> Result<String, AllocError>
    ensures { IfOk result (λ text. string_bytes text ≡ front.now ++ encode_lower kept.entry
        ++ codes " found " ++ encode_lower found.entry) }
{
    let mut text = String::from_str(alloc, front)?;
    match add_compared(alloc, &mut text, kept, found) {
        Ok(()) => Ok(text),
        Err(fail) => {
            drop(text);
            Err(fail)
        }
    }
}

// A line by its number, and what is wrong with it.
fn line_is(alloc: Global, number: u64, wrong: &str) -> Result<String, AllocError>
    ensures { IfOk result (λ text. string_bytes text
        ≡ codes "line " ++ decimal number ++ wrong.now) }
{
    format!(in alloc; "line {number}{wrong}")
}

// An attribute by its name, which is not there.
fn no_attribute(alloc: Global, name: &str) -> Result<String, AllocError>
    ensures { IfOk result (λ text. string_bytes text ≡ codes "no attribute " ++ name.now) }
{
    format!(in alloc; "no attribute {name}")
}

// An attachment by its name, which is not there.
fn no_attachment(alloc: Global, name: &str) -> Result<String, AllocError>
    ensures { IfOk result (λ text. string_bytes text ≡ codes "no attachment " ++ name.now) }
{
    format!(in alloc; "no attachment {name}")
}

// The name of a version that is needed.
fn name_of_version(version: NeededVersion) -> &'static str
    ensures { result.now ≡ needed_text version }
{
    match version {
        NeededVersion::V40 => "4.0",
        NeededVersion::V41 => "4.1",
    }
}

// The version that is needed.
fn needs_version(alloc: Global, version: NeededVersion) -> Result<String, AllocError>
    ensures { IfOk result (λ text. string_bytes text
        ≡ codes "needs version " ++ needed_text version) }
{
    let name = name_of_version(version);
    format!(in alloc; "needs version {name}")
}

// Adds ids, each after a space.
fn add_ids(alloc: Global, text: &mut String, ids: &[Uuid]) -> Result<(), AllocError>
    ensures { OnOk result (string_bytes text.new ≡ string_bytes text.old ++ spaced_ids ids.now) }
{
    for id in ids {
        let spaced = with_id(alloc, " ", id)?;
        let added = text.push_str(spaced.as_str());
        drop(spaced);
        added?;
    }
    Ok(())
}

// The nodes of a cycle, each id after a space.
fn cycle_text(alloc: Global, ids: &[Uuid]) -> Result<String, AllocError>
    ensures { IfOk result (λ text. string_bytes text ≡ codes "move cycle" ++ spaced_ids ids.now) }
{
    let mut text = String::from_str(alloc, "move cycle")?;
    match add_ids(alloc, &mut text, ids) {
        Ok(()) => Ok(text),
        Err(fail) => {
            drop(text);
            Err(fail)
        }
    }
}

/// The text of an answer: numbers in decimal, ids in lower case with hyphens, bytes in lower-case
/// hexadecimal.
pub fn text_of_reason(alloc: Global, reason: &Reason) -> Result<String, AllocError>
    ensures { IfOk result (λ text. string_bytes text ≡ reason_text reason.now) }
{
    match reason {
        Reason::WrongWords => String::from_str(alloc, "wrong words"),
        Reason::EmptyTerm(at) => numbered(alloc, "empty term at ", *at as u64),
        Reason::NoSuchPath => String::from_str(alloc, "not found"),
        Reason::NameTaken => String::from_str(alloc, "already there"),
        Reason::AlreadyThere => String::from_str(alloc, "already in that group"),
        Reason::RootFixed => String::from_str(alloc, "the root stays"),
        Reason::IntoItself(id) => into_itself(alloc, id),
        Reason::IdTaken(id) => with_id(alloc, "id taken ", id),
        Reason::NoAttribute(name) => no_attribute(alloc, name.as_str()),
        Reason::NoAttachment(name) => no_attachment(alloc, name.as_str()),
        Reason::NoVersion(number) => numbered(alloc, "no version ", *number),
        Reason::NoResult => String::from_str(alloc, "no results"),
        Reason::FileExists => String::from_str(alloc, "file exists"),
        Reason::NeedsVersion(version) => needs_version(alloc, *version),
        Reason::DamagedOrWrongKey { kept, found } => {
            compared(alloc, "damaged or wrong key: kept ", *kept, *found)
        }
        Reason::DamagedBlock(number) => numbered(alloc, "damaged block ", *number),
        Reason::WrongKeyOrDamaged => String::from_str(alloc, "wrong key or damaged"),
        Reason::WrongPassword => String::from_str(alloc, "wrong password"),
        Reason::KeyFileHash { kept, found } => { compared(alloc, "key file: kept ", *kept, *found) }
        Reason::NotKdbx => String::from_str(alloc, "not a KDBX file"),
        Reason::NotPsafe => String::from_str(alloc, "not a psafe3 file"),
        Reason::EndsEarly(at) => numbered(alloc, "ends early at ", *at),
        Reason::BadHeaderField(id) => numbered(alloc, "bad header field ", u64::from(*id)),
        Reason::BadDictionary(at) => numbered(alloc, "bad dictionary at ", *at),
        Reason::Form(at) => numbered(alloc, "malformed text at ", *at as u64),
        Reason::MissingElement(at) => numbered(alloc, "missing element at ", *at as u64),
        Reason::BadValue(at) => numbered(alloc, "bad value at ", *at as u64),
        Reason::NilId(at) => numbered(alloc, "nil id at ", *at as u64),
        Reason::NilRecord(number) => numbered(alloc, "nil id at ", *number),
        Reason::DuplicateId(id) => with_id(alloc, "duplicate id ", id),
        Reason::BinaryRef(number) => numbered(alloc, "no binary ", *number),
        Reason::BadKeyFile(at) => numbered(alloc, "bad key file at ", *at as u64),
        Reason::BadField(at) => numbered(alloc, "bad field at ", *at),
        Reason::NotUtf8(at) => numbered(alloc, "not UTF-8 at ", *at),
        Reason::NoTitleColumn => String::from_str(alloc, "no Title column"),
        Reason::BadRow(number) => numbered(alloc, "bad row ", *number),
        Reason::BadJson => String::from_str(alloc, "bad JSON"),
        Reason::BadFolder(number) => numbered(alloc, "bad folder ", *number),
        Reason::BadItem(number) => numbered(alloc, "bad item ", *number),
        Reason::LineForm(number) => line_is(alloc, *number, " is not UTF-8"),
        Reason::Version(number) => numbered(alloc, "version ", u64::from(*number)),
        Reason::UnknownId(id) => with_id(alloc, "unknown ", id),
        Reason::StreamUnknown(number) => numbered(alloc, "stream ", u64::from(*number)),
        Reason::Compressed => String::from_str(alloc, "compressed"),
        Reason::Variant(number) => numbered(alloc, "variant ", *number),
        Reason::EncryptedExport => String::from_str(alloc, "encrypted export"),
        Reason::Clash(id) => with_id(alloc, "clash at ", id),
        Reason::MoveCycle(ids) => cycle_text(alloc, ids.as_slice()),
        Reason::NoSuchFile => String::from_str(alloc, "no such file"),
        Reason::TooLarge
        | Reason::Depth
        | Reason::TooDeep
        | Reason::TooMany
        | Reason::KdfLimit
        | Reason::IterLimit
        | Reason::StampLimit
        | Reason::LineLimit
        | Reason::TooMuch
        | Reason::OtpLimit
        | Reason::Spent => String::from_str(alloc, "limit passed"),
        Reason::NoOtp => String::from_str(alloc, "no one-time code"),
        Reason::OtpForm(at) => numbered(alloc, "bad one-time code at ", *at as u64),
        Reason::OtpUnknown(at) => numbered(alloc, "one-time code at ", *at as u64),
        Reason::OutOfMemory => String::from_str(alloc, "out of memory"),
        Reason::InputEnded(number) => line_is(alloc, *number, " missing"),
    }
}

// Adds the line that reports an answer.
fn add_line(line: &mut Bytes, subject: &str, text: &str) -> Result<(), NoMemory>
    ensures { OnOk result (line.new ≡ line.old ++ error_line subject.now text.now) }
{
    line.add(b"keepass: ")?;
    line.add(subject.as_bytes())?;
    line.add(b": ")?;
    line.add(text.as_bytes())?;
    line.add(b"\n")
}

/// The line that reports an answer: `keepass: SUBJECT: TEXT` and LF.
pub fn line(alloc: Global, subject: &str, text: &str) -> Result<Bytes, NoMemory>
    ensures { IfOk result (λ line. line ≡ error_line subject.now text.now) }
{
    let mut line = Bytes::new(alloc);
    match add_line(&mut line, subject, text) {
        Ok(()) => Ok(line),
        Err(fail) => {
            drop(line);
            Err(fail)
        }
    }
}

/// A stop by an answer about this subject, or because memory ran out.
pub fn refused(alloc: Global, reason: Reason, subject: &str) -> Stop
    ensures { Refuses result (refusal_of reason subject.now) }
{
    match Text::of(alloc, subject) {
        Ok(subject) => Stop::Refused(Refusal { reason, subject }),
        Err(NoMemory) => Stop::NoMemory,
    }
}
