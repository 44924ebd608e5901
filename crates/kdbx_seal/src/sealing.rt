//! Sealing a document.

ghost use Rattle.std.specs.Prelude.{◌≡◌, ◌≤◌, ℕ, IsErrOf, OnOk, Some, length, take};
ghost use Rattle.stream_core.specs.InnerStream.{IsAt, keystream};
ghost use Rattle.vault_model.specs.SeenDoc.{doc_seen};
ghost use Rattle.doc_spelling.specs.Ranges.{IsWritable};
ghost use Rattle.vault_making.specs.NeededVersion.{later, needed_version};
ghost use Rattle.outside_core.specs.Counts.{HasCause};
ghost use Rattle.outside_core.specs.Reports.{StaysTruthful};
ghost use Rattle.sha2.specs.Sha256.{sha256};
ghost use Rattle.kdbx_frame.specs.Settings.{IsInOrder};
ghost use Rattle.kdbx_writing.specs.Draws.{AreDrawn};
ghost use Rattle.kdbx_payload.specs.Sealed.{SealedPayload};
ghost use Rattle.kdbx_seal.specs.PayloadAnswers.{Puts};
ghost use Rattle.stream_core.specs.InnerStream.{SalsaKeystream, kdbx_nonce};
ghost use Rattle.kdbx_seal.specs.PayloadMade.{chacha_keystream};
ghost use Rattle.kdbx_seal.specs.Answers.{LeavesNoDraft, Refuses, WritesContent, WritesContent31, WritesContent4, size_refusal};
ghost use Rattle.kdbx_seal.specs.Made.{made_file, made_file_payload};

use crate::{Draws, SealFail, seal_payload};
use doc_write::{Pool, WriteFail, append_doc, doc_len};
use kdbx_blocks::{hashed_heads_len, put_hashed_room, split_hashed};
use kdbx_frame::{FileVersion, Settings};
use kdbx_writing::{inner_len, write_header, write_inner};
use outside_core::FileStore;
use secret_core::{Key, Secret};
use sha2::{Digest, Sha256};
use std::alloc::Global;
use stream_core::InnerStream;
use vault_model::{Doc, DocForm};

/// The number of Salsa20 as an inner stream.
const SALSA20: u32 = 2;

/// The number of ChaCha20 as an inner stream.
const CHACHA20: u32 = 3;

/// How many bytes the stream key of a file of version 3.1 has.
const STREAM_KEY_31: usize = 32;

/// How many start bytes a file of version 3.1 has.
const START: usize = 32;

/// How many bytes of padding a content has at most.
const PADDING: usize = 16;

// ChaCha20 under a stream key, at its start.
fn chacha_of(key: &[u8; 64]) -> InnerStream
    ensures keystream { keystream result ≡ chacha_keystream key.now }
    ensures start { IsAt result 0 }
{
    InnerStream::new(CHACHA20, key).unwrap()
}

// Salsa20 under the first bytes of a stream key, at its start.
fn salsa_of(key: &[u8; 64]) -> InnerStream
    ensures keystream { keystream result
        ≡ SalsaKeystream (sha256 (take 32 key.now)) kdbx_nonce }
    ensures start { IsAt result 0 }
{
    InnerStream::new(SALSA20, &key[..STREAM_KEY_31]).unwrap()
}

// Writes the content of a document's file of version 4 with these draws, in memory that is reserved
// once: inner fields with the attached files, and the text of the document.
fn write_content_4(alloc: Global, doc: &Doc, draws: &Draws) -> Result<Secret, WriteFail>
    requires { length draws.now.stream ≡ 64 }
    ensures { WritesContent4 draws.now (doc_seen doc.now) result }
{
    let pool = Pool::of(alloc, doc)?;
    let len = doc_len(doc, DocForm::V4, None, &pool)?;
    let key = draws.stream.bytes();
    let room = inner_len(key, pool.items()) + len + PADDING;
    let mut content = Secret::with_room(alloc, room)?;
    write_inner(&mut content, key, pool.items());
    let stream = chacha_of(key);
    Ok(append_doc(content, doc, DocForm::V4, None, &pool, stream))
}

// Writes the content of a document's file of version 3.1 with these draws and this hash of its header,
// in memory that is reserved once: the start bytes, and the text of the document in hashed blocks.
fn write_hashed(
    alloc: Global,
    doc: &Doc,
    hash: &[u8; 32],
    draws: &Draws,
) -> Result<Secret, WriteFail>
    requires stream { length draws.now.stream ≡ 64 }
    requires start { length draws.now.start ≡ 32 }
    ensures { WritesContent31 hash.now draws.now (doc_seen doc.now) result }
{
    let pool = Pool::of(alloc, doc)?;
    let len = doc_len(doc, DocForm::V3, Some(hash), &pool)?;
    let room = START + hashed_heads_len(len) + len + PADDING;
    let mut content = Secret::with_room(alloc, room)?;
    content.extend(draws.start.bytes());
    put_hashed_room(&mut content, len);
    let stream = salsa_of(draws.stream.bytes());
    let mut content = append_doc(content, doc, DocForm::V3, Some(hash), &pool, stream);
    split_hashed(&mut content, START, len);
    Ok(content)
}

// Writes the content of a document's file of version 3.1 with these draws: the text of the document
// has the hash of the header.
fn write_content_31(
    alloc: Global,
    doc: &Doc,
    settings: &Settings,
    draws: &Draws,
) -> Result<Secret, WriteFail>
    requires in_order { IsInOrder settings.now }
    requires version { settings.now.version ≡ FileVersion.V31 }
    requires stream { length draws.now.stream ≡ 64 }
    requires start { length draws.now.start ≡ 32 }
    ensures { WritesContent settings.now draws.now (doc_seen doc.now) result }
{
    let header = write_header(alloc, settings, draws)?;
    write_hashed(alloc, doc, &Sha256::digest(header.as_slice()), draws)
}

// Writes the content of a document's file of these settings with these draws.
fn write_content(
    alloc: Global,
    doc: &Doc,
    settings: &Settings,
    draws: &Draws,
) -> Result<Secret, WriteFail>
    requires in_order { IsInOrder settings.now }
    requires stream { length draws.now.stream ≡ 64 }
    requires start { length draws.now.start ≡ 32 }
    ensures { WritesContent settings.now draws.now (doc_seen doc.now) result }
{
    match settings.version {
        FileVersion::V31 => write_content_31(alloc, doc, settings, draws),
        FileVersion::V40 | FileVersion::V41 => write_content_4(alloc, doc, draws),
    }
}

/// Seals a document as the KDBX file of a name, under a composite key. The draws are used up.
///
/// At Ok the store has the file that is made of document, settings, draws and key, and all else as
/// it was; it is sealed under the key and holds the document. After a refusal the files are as they
/// were, and but for TooMany and TooLarge there is no draft. The keys that were derived were
/// cleared and released, whatever the answer.
///
/// # Errors
///
/// The first of [`SealFail`] but for NoMemory, TooLarge of the document before that of the header.
/// TooMany and TooLarge come before a key is derived, and leave the store as it was; FileFault
/// comes only where the store's count of faults rose.
pub fn seal_file<F: FileStore>(
    alloc: Global,
    doc: &Doc,
    settings: &Settings,
    composite: &Key,
    draws: Draws,
    files: &mut F,
    name: &str,
) -> Result<(), SealFail>
    requires in_order { IsInOrder settings.now }
    requires needed { later (needed_version (doc_seen doc.now)) settings.now.version
        ≡ settings.now.version }
    requires drawn { AreDrawn settings.now draws }
    ensures files { Puts result (F.files files.old) (F.files files.new) name.now
        (made_file settings.now draws composite.now (doc_seen doc.now)) }
    ensures sealed { OnOk result (SealedPayload
        (made_file settings.now draws composite.now (doc_seen doc.now)) composite.now
        (made_file_payload settings.now draws (doc_seen doc.now))) }
    ensures writable { OnOk result (IsWritable (doc_seen doc.now)) }
    ensures refusal { Refuses result (size_refusal settings.now draws (doc_seen doc.now)) }
    ensures too_many { (n : ℕ) → IsErrOf result (SealFail.TooMany n) → files.new ≡ files.old }
    ensures too_large { (n : ℕ) → IsErrOf result (SealFail.TooLarge n) → files.new ≡ files.old }
    ensures no_draft { LeavesNoDraft result (F.draft_name files.new) }
    ensures faults { HasCause SealFail.FileFault (F.faults files.old) (F.faults files.new) result }
    ensures truthful { StaysTruthful (F.truthful files.old) (F.truthful files.new) }
    ensures absences { F.absences files.old ≤ F.absences files.new }
{
    let content = match write_content(alloc, doc, settings, &draws) {
        Ok(content) => content,
        Err(WriteFail::NoMemory) => {
            files.discard();
            return Err(SealFail::NoMemory);
        }
        Err(refusal) => return Err(SealFail::from(refusal)),
    };
    match seal_payload(alloc, settings, draws, composite, content, files, name) {
        Ok(()) => Ok(()),
        Err(refusal) => Err(SealFail::from(refusal)),
    }
}
