//! The payload of a file of a store, which is read through one array.

ghost use Rattle.std.specs.Prelude.{◌≡◌, ℕ, ◌+◌, ◌<◌, ◌≤◌, ◌^◌, IfOk, IfSome, IsErrOf, OnOk, List, [], Some, None, length, min, take};
ghost use Rattle.std.specs.FinMap as map;
ghost use Rattle.outside_core.specs.Counts.{HasCause};
ghost use Rattle.outside_core.specs.Files.{FileMap};
ghost use Rattle.outside_core.specs.Reports.{StaysTruthful, reported};
ghost use Rattle.kdbx_payload.specs.KeyCore.Kdf.{IsChecked};
ghost use Rattle.stream_core.specs.InnerStream.{IsAt};
ghost use Rattle.kdbx_payload.specs.KdbxFrame.Fields.{header_limit};
ghost use Rattle.kdbx_payload.specs.KdbxFrame.Header.{sums_len};
ghost use Rattle.kdbx_payload.specs.KdbxFrame.Settings.{IsInOrder};
ghost use Rattle.kdbx_payload.specs.HeaderMacs.{base_of, key_of};
ghost use Rattle.kdbx_payload.specs.Payloads.{hidden_text, payload_of};
ghost use Rattle.kdbx_payload.specs.Reading.{IsFed};
ghost use Rattle.kdbx_payload.specs.Seen.{payload_seen};
ghost use Rattle.kdbx_reading.specs.Stored.{HasCauseOfReading, HasSize, IsFedFrom, IsFedWhole, IsFront, OfFileWith, PayloadOfName, front_in};

use kdbx_payload::kdbx_frame::{Header, read_header};
use kdbx_payload::key_core::{FileKeys, file_keys, transform};
use kdbx_payload::{Payload, PayloadFail, TextReader, payload_in};
use outside_core::{FileFail, FileStore, NoMemory};
use secret_core::{Key, ReadFail, Secret, read_prefix};
use sha2::{Digest, Sha256};
use std::alloc::Global;

/// How many bytes of a file are read at once.
const WINDOW: usize = 65_536;

// A file of a store whose first bytes are in a window.
#[derive(Clone, Copy)]
struct FileFront<'a> {
    name: &'a str,
    // How many bytes the file has, as the store reports.
    size: usize,
    // How many of them are in the window.
    len: usize,
}

// Feeds a reader with what follows the front of a file, a window at a time. A file that gives fewer
// bytes than its size ends there.
fn feed_rest<F: FileStore>(
    files: &mut F,
    file: &FileFront<'_>,
    window: &mut [u8],
    reader: &mut TextReader<'_>,
) -> Result<(), FileFail>
    requires some { file.now.len < file.now.size → 0 < length window.old }
    requires len { file.now.len ≤ length window.old }
    requires size { file.now.len ≤ file.now.size }
    requires limit { file.now.size ≤ 2 ^ 38 }
    requires spare { file.now.size ≤ reader.old.content.spare + file.now.len }
    requires sized { HasSize (reported (F.truthful files.old) (F.files files.old))
        file.now.name.now file.now.size }
    requires fed { IsFedFrom (reported (F.truthful files.old) (F.files files.old)) file.now.name.now
        (front_in file.now window.old) reader.old file.now.len }
    ensures fed { OnOk result (IsFedWhole (reported (F.truthful files.new) (F.files files.old))
        file.now.name.now
        (front_in file.now window.old) file.now.size reader.new) }
    ensures keys { reader.new.keys.now ≡ reader.old.keys.now }
    ensures header { reader.new.header.now ≡ reader.old.header.now }
    ensures missing { IsErrOf result FileFail.NoSuchFile
        → IfSome (reported (F.truthful files.new) (F.files files.old))
        (λ m. map.get m file.now.name.now ≡ None) }
    ensures files { F.files files.new ≡ F.files files.old }
    ensures draft_name { F.draft_name files.new ≡ F.draft_name files.old }
    ensures draft_bytes { F.draft_bytes files.new ≡ F.draft_bytes files.old }
    ensures truthful { StaysTruthful (F.truthful files.old) (F.truthful files.new) }
    ensures faults { HasCause FileFail.Failed (F.faults files.old) (F.faults files.new) result }
    ensures absences { HasCause FileFail.NoSuchFile (F.absences files.old) (F.absences files.new)
        result }
{
    let mut at = file.len;
    'windows: while at < file.size {
        let room = window.len().min(file.size - at);
        let read = files.read_at(file.name, at as u64, &mut window[..room])?;
        if read == 0 {
            return Ok(());
        }
        reader.feed(&window[..read]);
        at += read;
    }
    Ok(())
}

// The text that a file hides after its header, under the file's keys; or why it could not be read.
fn read_with_file_keys<F: FileStore>(
    alloc: Global,
    files: &mut F,
    file: &FileFront<'_>,
    keys: &FileKeys,
    header: &Header,
    window: &mut [u8],
) -> Result<Result<Secret, PayloadFail>, FileFail>
    requires some { file.now.len < file.now.size → 0 < length window.old }
    requires len { file.now.len ≤ length window.old }
    requires within { header.now.size + sums_len header.now.settings.version ≤ file.now.len }
    requires size { file.now.len ≤ file.now.size }
    requires limit { file.now.size ≤ 2 ^ 38 }
    requires sized { HasSize (reported (F.truthful files.old) (F.files files.old))
        file.now.name.now file.now.size }
    requires front { IsFront (reported (F.truthful files.old) (F.files files.old))
        file.now.name.now (front_in file.now window.old) }
    ensures of_file { IfOk result (OfFileWith (reported (F.truthful files.new) (F.files files.old))
        file.now.name.now
        (front_in file.now window.old) file.now.size (λ s. s.bytes)
        (hidden_text header.now.settings.version keys.now.base keys.now.cipher header.now)) }
    ensures missing { IsErrOf result FileFail.NoSuchFile
        → IfSome (reported (F.truthful files.new) (F.files files.old))
        (λ m. map.get m file.now.name.now ≡ None) }
    ensures files { F.files files.new ≡ F.files files.old }
    ensures draft_name { F.draft_name files.new ≡ F.draft_name files.old }
    ensures draft_bytes { F.draft_bytes files.new ≡ F.draft_bytes files.old }
    ensures truthful { StaysTruthful (F.truthful files.old) (F.truthful files.new) }
    ensures faults { HasCause FileFail.Failed (F.faults files.old) (F.faults files.new) result }
    ensures absences { HasCause FileFail.NoSuchFile (F.absences files.old) (F.absences files.new)
        result }
{
    let mut reader = match TextReader::begin(alloc, keys, header, &window[..file.len], file.size) {
        Ok(reader) => reader,
        Err(fail) => return Ok(Err(fail)),
    };
    match feed_rest(files, file, window, &mut reader) {
        Ok(()) => Ok(reader.finish()),
        Err(fail) => {
            drop(reader);
            Err(fail)
        }
    }
}

// The text that a file hides after its header, under a composite key. The file's keys, once they
// are derived, are cleared and released.
fn read_with_composite<F: FileStore>(
    alloc: Global,
    files: &mut F,
    file: &FileFront<'_>,
    composite: &Key,
    header: &Header,
    window: &mut [u8],
) -> Result<Result<Secret, PayloadFail>, FileFail>
    requires some { file.now.len < file.now.size → 0 < length window.old }
    requires len { file.now.len ≤ length window.old }
    requires checked { IsChecked header.now.settings.kdf }
    requires within { header.now.size + sums_len header.now.settings.version ≤ file.now.len }
    requires size { file.now.len ≤ file.now.size }
    requires limit { file.now.size ≤ 2 ^ 38 }
    requires sized { HasSize (reported (F.truthful files.old) (F.files files.old))
        file.now.name.now file.now.size }
    requires front { IsFront (reported (F.truthful files.old) (F.files files.old))
        file.now.name.now (front_in file.now window.old) }
    ensures of_file { IfOk result (OfFileWith (reported (F.truthful files.new) (F.files files.old))
        file.now.name.now
        (front_in file.now window.old) file.now.size (λ s. s.bytes)
        (hidden_text header.now.settings.version (base_of header.now composite.now)
        (key_of header.now composite.now) header.now)) }
    ensures missing { IsErrOf result FileFail.NoSuchFile
        → IfSome (reported (F.truthful files.new) (F.files files.old))
        (λ m. map.get m file.now.name.now ≡ None) }
    ensures files { F.files files.new ≡ F.files files.old }
    ensures draft_name { F.draft_name files.new ≡ F.draft_name files.old }
    ensures draft_bytes { F.draft_bytes files.new ≡ F.draft_bytes files.old }
    ensures truthful { StaysTruthful (F.truthful files.old) (F.truthful files.new) }
    ensures faults { HasCause FileFail.Failed (F.faults files.old) (F.faults files.new) result }
    ensures absences { HasCause FileFail.NoSuchFile (F.absences files.old) (F.absences files.new)
        result }
{
    let Ok(transformed) = transform(alloc, composite, &header.settings.kdf) else {
        return Err(FileFail::NoMemory);
    };
    let mut keys = file_keys(transformed, &header.seed);
    let text = read_with_file_keys(alloc, files, file, &keys, header, window);
    keys.clear();
    keys.release();
    text
}

// The payload of a file whose front is in the window; or why it could not be read. All faults of
// the header come before a key is derived.
fn read_from_front<F: FileStore>(
    alloc: Global,
    files: &mut F,
    file: &FileFront<'_>,
    composite: &Key,
    window: &mut [u8],
) -> Result<Result<Payload, PayloadFail>, FileFail>
    requires some { file.now.len < file.now.size → 0 < length window.old }
    requires len { file.now.len ≤ length window.old }
    requires enough { file.now.len < header_limit → file.now.len ≡ file.now.size }
    requires size { file.now.len ≤ file.now.size }
    requires limit { file.now.size ≤ 2 ^ 38 }
    requires sized { HasSize (reported (F.truthful files.old) (F.files files.old))
        file.now.name.now file.now.size }
    requires front { IsFront (reported (F.truthful files.old) (F.files files.old))
        file.now.name.now (front_in file.now window.old) }
    ensures of_file { IfOk result (OfFileWith (reported (F.truthful files.new) (F.files files.old))
        file.now.name.now
        (front_in file.now window.old) file.now.size payload_seen
        (λ file. payload_of file composite.now)) }
    ensures in_order { IfOk result (λ answer. IfOk answer (λ p. IsInOrder p.settings)) }
    ensures start { IfOk result (λ answer. IfOk answer (λ p. IsAt p.stream 0)) }
    ensures within { IfOk result (λ answer. IfOk answer
        (λ p. p.document ≤ length p.text.bytes)) }
    ensures missing { IsErrOf result FileFail.NoSuchFile
        → IfSome (reported (F.truthful files.new) (F.files files.old))
        (λ m. map.get m file.now.name.now ≡ None) }
    ensures files { F.files files.new ≡ F.files files.old }
    ensures draft_name { F.draft_name files.new ≡ F.draft_name files.old }
    ensures draft_bytes { F.draft_bytes files.new ≡ F.draft_bytes files.old }
    ensures truthful { StaysTruthful (F.truthful files.old) (F.truthful files.new) }
    ensures faults { HasCause FileFail.Failed (F.faults files.old) (F.faults files.new) result }
    ensures absences { HasCause FileFail.NoSuchFile (F.absences files.old) (F.absences files.new)
        result }
{
    let header = match read_header(alloc, &window[..file.len], file.size as u64) {
        Ok(header) => header,
        Err(fail) => return Ok(Err(PayloadFail::from(fail))),
    };
    let header_hash = Sha256::digest(&window[..header.size]);
    match read_with_composite(alloc, files, file, composite, &header, window) {
        Ok(Ok(text)) => Ok(payload_in(alloc, header, header_hash, text)),
        Ok(Err(fail)) => {
            drop(header);
            Ok(Err(fail))
        }
        Err(fail) => {
            drop(header);
            Err(fail)
        }
    }
}

// The payload of a file of this size, by the array that its windows are read into; or why it could
// not be read. A file that gives fewer bytes than its size ends there.
fn read_sized<F: FileStore>(
    alloc: Global,
    files: &mut F,
    name: &str,
    composite: &Key,
    size: usize,
    window: &mut [u8],
) -> Result<Result<Payload, PayloadFail>, FileFail>
    requires window { length window.old ≡ min size header_limit }
    requires limit { size ≤ 2 ^ 38 }
    requires sized { HasSize (reported (F.truthful files.old) (F.files files.old)) name.now size }
    ensures of_file { IfOk result (OfFileWith (reported (F.truthful files.new) (F.files files.old))
        name.now [] size payload_seen
        (λ file. payload_of file composite.now)) }
    ensures in_order { IfOk result (λ answer. IfOk answer (λ p. IsInOrder p.settings)) }
    ensures start { IfOk result (λ answer. IfOk answer (λ p. IsAt p.stream 0)) }
    ensures within { IfOk result (λ answer. IfOk answer
        (λ p. p.document ≤ length p.text.bytes)) }
    ensures missing { IsErrOf result FileFail.NoSuchFile
        → IfSome (reported (F.truthful files.new) (F.files files.old))
        (λ m. map.get m name.now ≡ None) }
    ensures files { F.files files.new ≡ F.files files.old }
    ensures draft_name { F.draft_name files.new ≡ F.draft_name files.old }
    ensures draft_bytes { F.draft_bytes files.new ≡ F.draft_bytes files.old }
    ensures truthful { StaysTruthful (F.truthful files.old) (F.truthful files.new) }
    ensures faults { HasCause FileFail.Failed (F.faults files.old) (F.faults files.new) result }
    ensures absences { HasCause FileFail.NoSuchFile (F.absences files.old) (F.absences files.new)
        result }
{
    let len = read_prefix(files, name, window)?;
    if len < window.len() {
        let file = FileFront {
            name,
            size: len,
            len,
        };
        read_from_front(alloc, files, &file, composite, window)
    } else {
        let file = FileFront { name, size, len };
        read_from_front(alloc, files, &file, composite, window)
    }
}

// An array for the windows of a file of this size.
fn window_of(alloc: Global, size: usize) -> Result<Vec<u8>, NoMemory>
    ensures { IfOk result (λ window. length window.items ≡ min size header_limit) }
{
    match vec![in alloc; 0; size.min(WINDOW)] {
        Ok(window) => Ok(window),
        Err(_) => Err(NoMemory),
    }
}

/// The payload of the KDBX file of a name, of at most `limit` bytes, under a composite key; or why
/// the file could not be read.
///
/// The file is read through one array of at most 65,536 bytes. What it hides stands in one secret
/// that is reserved once by the file's size, and is deciphered there. A file that gives fewer bytes
/// than its size is read as those bytes. The store's files and its draft stay as they were, whatever
/// the answer.
///
/// At Ok a file of version 4 is authentic: all its bytes up to the end block are under right MACs
/// of keys made from the composite key. A file of version 3.1 has no MAC: its deciphered text
/// begins with the right start bytes, and its blocks have right hashes. Whatever the answer, the
/// keys that were derived were cleared and released. All faults of the header come before a key is
/// derived.
///
/// # Errors
///
/// Those of reading a file; and inside, the first of [`PayloadFail`].
pub fn read_payload<F: FileStore>(
    alloc: Global,
    files: &mut F,
    name: &str,
    composite: &Key,
    limit: u64,
) -> Result<Result<Payload, PayloadFail>, ReadFail>
    requires { limit ≤ 2 ^ 38 }
    ensures of_file { PayloadOfName payload_seen
        (reported (F.truthful files.new) (F.files files.old)) name.now limit composite.now
        result }
    ensures cause { HasCauseOfReading (F.faults files.old) (F.faults files.new)
        (F.absences files.old) (F.absences files.new) limit result }
    ensures in_order { IfOk result (λ answer. IfOk answer (λ p. IsInOrder p.settings)) }
    ensures start { IfOk result (λ answer. IfOk answer (λ p. IsAt p.stream 0)) }
    ensures within { IfOk result (λ answer. IfOk answer
        (λ p. p.document ≤ length p.text.bytes)) }
    ensures files { F.files files.new ≡ F.files files.old }
    ensures draft_name { F.draft_name files.new ≡ F.draft_name files.old }
    ensures draft_bytes { F.draft_bytes files.new ≡ F.draft_bytes files.old }
    ensures truthful { StaysTruthful (F.truthful files.old) (F.truthful files.new) }
{
    let size = files.size(name)?;
    if size > limit {
        return Err(ReadFail::TooLarge(size));
    }
    let mut window = window_of(alloc, size as usize)?;
    match read_sized(alloc, files, name, composite, size as usize, &mut window) {
        Ok(answer) => Ok(answer),
        Err(fail) => Err(ReadFail::from(fail)),
    }
}
