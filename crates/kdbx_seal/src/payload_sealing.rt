//! Sealing a payload.

ghost use Rattle.std.specs.Prelude.{◌≡◌, ◌+◌, ◌≤◌, ◌^◌, ◌++◌, ℕ, IfSome, IsSome, IsErrOf, OnOk, None, Some, length};
ghost use Rattle.kdbx_frame.specs.KeyCore.Kdf.{IsChecked};
ghost use Rattle.outside_core.specs.Counts.{HasCause};
ghost use Rattle.outside_core.specs.Reports.{StaysTruthful};
ghost use Rattle.kdbx_frame.specs.Header.{sums_len};
ghost use Rattle.kdbx_frame.specs.Settings.{IsInOrder};
ghost use Rattle.kdbx_writing.specs.Draws.{AreDrawn};
ghost use Rattle.kdbx_writing.specs.Header.{spelled_header};
ghost use Rattle.kdbx_seal.specs.PayloadAnswers.{IsSealedWith, JudgesEnd, LeavesNoDraft, Puts};
ghost use Rattle.kdbx_seal.specs.PayloadMade.{file_of, file_of_4, made_with};
ghost use Rattle.kdbx_seal.specs.Parts.{IsUndone, parts_base, parts_file, parts_key};

use crate::SealPayloadFail;
use crate::ciphering::encipher;
use kdbx_blocks::append_blocks;
use kdbx_frame::key_core::{FileKeys, file_keys, transform};
use kdbx_frame::{FileVersion, HEADER_LIMIT, Settings, sums_len};
use kdbx_payload::header_mac;
use kdbx_writing::{Draws, with_salt, write_header};
use outside_core::{FileFail, FileStore};
use secret_core::{Key, Key64, Secret};
use sha2::{Digest, Sha256};
use std::alloc::Global;

/// How many bytes of a file its header may reach into, in version 4 with its hash and its MAC.
const LIMIT: u64 = HEADER_LIMIT as u64;

// Appends a header with its hash and its MAC, and a content in blocks, to the draft: a file of
// version 4.
fn append_file_4<F: FileStore>(
    files: &mut F,
    base: &Key64,
    header: &[u8],
    content: &[u8],
) -> Result<(), FileFail>
    requires draft { IsSome (F.draft_name files.old) }
    ensures bytes { OnOk result (IfSome (F.files files.old) (λ _. F.draft_bytes files.new
        ≡ F.draft_bytes files.old ++ file_of_4 base.now header.now content.now)) }
    ensures name { F.draft_name files.new ≡ F.draft_name files.old }
    ensures files { F.files files.new ≡ F.files files.old }
    ensures not_missing { ¬ IsErrOf result FileFail.NoSuchFile }
    ensures faults { HasCause FileFail.Failed (F.faults files.old) (F.faults files.new) result }
    ensures truthful { StaysTruthful (F.truthful files.old) (F.truthful files.new) }
    ensures absences { F.absences files.old ≤ F.absences files.new }
{
    files.append(header)?;
    files.append(&Sha256::digest(header))?;
    files.append(&header_mac(base, header))?;
    append_blocks(files, base, content)
}

// Appends the file of a version of a header and a content to the draft.
fn append_file<F: FileStore>(
    files: &mut F,
    version: FileVersion,
    base: &Key64,
    header: &[u8],
    content: &[u8],
) -> Result<(), FileFail>
    requires draft { IsSome (F.draft_name files.old) }
    ensures bytes { OnOk result (IfSome (F.files files.old) (λ _. F.draft_bytes files.new
        ≡ F.draft_bytes files.old ++ file_of version base.now header.now content.now)) }
    ensures name { F.draft_name files.new ≡ F.draft_name files.old }
    ensures files { F.files files.new ≡ F.files files.old }
    ensures not_missing { ¬ IsErrOf result FileFail.NoSuchFile }
    ensures faults { HasCause FileFail.Failed (F.faults files.old) (F.faults files.new) result }
    ensures truthful { StaysTruthful (F.truthful files.old) (F.truthful files.new) }
    ensures absences { F.absences files.old ≤ F.absences files.new }
{
    match version {
        FileVersion::V31 => {
            files.append(header)?;
            files.append(content)
        }
        FileVersion::V40 | FileVersion::V41 => append_file_4(files, base, header, content),
    }
}

// Puts the file of a header and a content under a name. After a refusal the files are as they were.
// There is no draft afterwards, whatever the answer.
fn put_file<F: FileStore>(
    files: &mut F,
    name: &str,
    version: FileVersion,
    base: &Key64,
    header: &[u8],
    content: &[u8],
) -> Result<(), FileFail>
    ensures files { Puts result (F.files files.old) (F.files files.new) name.now
        (file_of version base.now header.now content.now) }
    ensures no_draft { F.draft_name files.new ≡ None }
    ensures not_missing { ¬ IsErrOf result FileFail.NoSuchFile }
    ensures faults { HasCause FileFail.Failed (F.faults files.old) (F.faults files.new) result }
    ensures truthful { StaysTruthful (F.truthful files.old) (F.truthful files.new) }
    ensures absences { F.absences files.old ≤ F.absences files.new }
{
    files.begin(name)?;
    if let Err(refusal) = append_file(files, version, base, header, content) {
        files.discard();
        return Err(refusal);
    }
    files.publish()
}

// What a file is made from, but for its content and the composite key.
#[derive(Clone, Copy)]
struct Parts<'a> {
    settings: &'a Settings,
    draws: &'a Draws,
    header: &'a [u8],
}

// Puts a file under a name, under the file's keys.
fn put_with_file_keys<F: FileStore>(
    keys: &FileKeys,
    parts: &Parts,
    plain: Secret,
    files: &mut F,
    name: &str,
) -> Result<(), FileFail>
    requires spare { 16 ≤ plain.spare }
    requires limit { length plain.bytes ≤ 2 ^ 38 }
    ensures files { Puts result (F.files files.old) (F.files files.new) name.now
        (parts_file keys.now.base keys.now.cipher parts.now plain.bytes) }
    ensures undone { IsUndone keys.now.cipher parts.now plain.bytes }
    ensures no_draft { F.draft_name files.new ≡ None }
    ensures not_missing { ¬ IsErrOf result FileFail.NoSuchFile }
    ensures faults { HasCause FileFail.Failed (F.faults files.old) (F.faults files.new) result }
    ensures truthful { StaysTruthful (F.truthful files.old) (F.truthful files.new) }
    ensures absences { F.absences files.old ≤ F.absences files.new }
{
    let iv = parts.draws.iv.bytes();
    let content = encipher(parts.settings.cipher, &keys.cipher, iv, plain);
    put_file(
        files,
        name,
        parts.settings.version,
        &keys.base,
        parts.header,
        content.lend(0, content.len()),
    )
}

// Puts a file under a name, under a composite key. The file's keys, once they are derived, are
// cleared and released.
fn put_with_composite<F: FileStore>(
    alloc: Global,
    composite: &Key,
    parts: &Parts,
    plain: Secret,
    files: &mut F,
    name: &str,
) -> Result<(), FileFail>
    requires checked { IsChecked parts.now.settings.now.kdf }
    requires spare { 16 ≤ plain.spare }
    requires limit { length plain.bytes ≤ 2 ^ 38 }
    ensures files { Puts result (F.files files.old) (F.files files.new) name.now
        (parts_file (parts_base parts.now composite.now) (parts_key parts.now composite.now)
        parts.now plain.bytes) }
    ensures undone { OnOk result
        (IsUndone (parts_key parts.now composite.now) parts.now plain.bytes) }
    ensures no_draft { OnOk result (F.draft_name files.new ≡ None) }
    ensures not_missing { ¬ IsErrOf result FileFail.NoSuchFile }
    ensures faults { HasCause FileFail.Failed (F.faults files.old) (F.faults files.new) result }
    ensures truthful { StaysTruthful (F.truthful files.old) (F.truthful files.new) }
    ensures absences { F.absences files.old ≤ F.absences files.new }
{
    let kdf = with_salt(alloc, &parts.settings.kdf, parts.draws.kdf.bytes())?;
    let Ok(transformed) = transform(alloc, composite, &kdf) else {
        return Err(FileFail::NoMemory);
    };
    let mut keys = file_keys(transformed, parts.draws.seed.bytes());
    let result = put_with_file_keys(&keys, parts, plain, files, name);
    keys.clear();
    keys.release();
    result
}

/// Seals a content as the KDBX file of a name, under a composite key: in version 4 inner fields
/// with attached files, and the text of a document after them; in 3.1 start bytes, and the text in
/// hashed blocks. It is enciphered where it is, so it needs room for its padding. The draws and the
/// content are dropped.
///
/// At Ok the store has the file that is made of them, and all else as it was. After a refusal the
/// files are as they were, and but for TooLarge there is no draft. The keys that were derived were
/// cleared and released, whatever the answer.
///
/// # Errors
///
/// The first of [`SealPayloadFail`] but for NoMemory: TooLarge before a key is derived, after which
/// the store is as it was; FileFault only where the store's count of faults rose.
#[tactic(auto, unfolding(crate::specs::PayloadMade::made_with))]
pub fn seal_payload<F: FileStore>(
    alloc: Global,
    settings: &Settings,
    draws: Draws,
    composite: &Key,
    plain: Secret,
    files: &mut F,
    name: &str,
) -> Result<(), SealPayloadFail>
    requires in_order { IsInOrder settings.now }
    requires drawn { AreDrawn settings.now draws }
    requires spare { 16 ≤ plain.spare }
    requires limit { length plain.bytes ≤ 2 ^ 38 }
    ensures files { Puts result (F.files files.old) (F.files files.new) name.now
        (made_with settings.now draws composite.now plain.bytes) }
    ensures sealed { OnOk result (IsSealedWith settings.now draws composite.now plain.bytes) }
    ensures end { JudgesEnd result
        (length (spelled_header settings.now draws) + sums_len settings.now.version) }
    ensures too_large { (n : ℕ) → IsErrOf result (SealPayloadFail.TooLarge n)
        → files.new ≡ files.old }
    ensures no_draft { LeavesNoDraft result (F.draft_name files.new) }
    ensures faults { HasCause SealPayloadFail.FileFault (F.faults files.old) (F.faults files.new)
        result }
    ensures truthful { StaysTruthful (F.truthful files.old) (F.truthful files.new) }
    ensures absences { F.absences files.old ≤ F.absences files.new }
{
    let Ok(header) = write_header(alloc, settings, &draws) else {
        files.discard();
        return Err(SealPayloadFail::NoMemory);
    };
    let end = header.len() as u64 + sums_len(settings.version) as u64;
    if end > LIMIT {
        return Err(SealPayloadFail::TooLarge(end));
    }
    let parts = Parts {
        settings,
        draws: &draws,
        header: header.as_slice(),
    };
    match put_with_composite(alloc, composite, &parts, plain, files, name) {
        Ok(()) => Ok(()),
        Err(refusal) => {
            files.discard();
            Err(SealPayloadFail::from(refusal))
        }
    }
}
