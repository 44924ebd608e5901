//! Key files.

ghost use Rattle.std.specs.Prelude.{◌≡◌, Some, option_map};
ghost use Rattle.key_core.specs.KeyDocument as spec;
ghost use Rattle.key_core.specs.KeyFile as spec_of;
ghost use Rattle.key_core.specs.KeyFile.{Gives, key_file_key};
ghost use Rattle.key_core.specs.Reading.{told_by};

use crate::digests::digest_of;
use crate::key_document::{Data, Document, Version, read_document};
use crate::key_texts::{base64_key, dense, hexadecimal_hash, hexadecimal_key};
use crate::reading::Stopped;
use secret_core::Key;
use std::alloc::Global;
use text_core::trim;

/// Why a key file gives no key.
#[derive(Clone, Copy)]
pub enum KeyFileFail {
    /// A key document lacks its version or its key (place 0), is of another version (the place of
    /// that element), or has a key or a hash that is not in its form (the place of the key's
    /// element).
    KeyFileForm(usize),
    /// The hash that the key document keeps is not that of its key.
    KeyFileHash {
        /// The hash that is kept.
        kept: [u8; 4],
        /// The first bytes of the key's SHA-256.
        found: [u8; 4],
    },
    /// There was no memory left.
    NoMemory,
}

/// The key of a key file, from the file's bytes.
///
/// Text in the grammar of `markup_core` whose root is `KeyFile` is a key document. Its version is
/// in the root's `Meta`, in `Version`, and its key in the root's `Key`, in `Data`. Version 1 writes
/// the key's 32 bytes in base64. Version 2 writes them in 64 hexadecimal digits, white space
/// between them, and where the attribute `Hash` is there, it is the first four bytes of the key's
/// SHA-256 in eight hexadecimal digits. Of an element that occurs twice the last counts. Any other
/// file is the key itself, where it is 32 bytes; the key in hexadecimal digits, where it is 64 of
/// them; and else its SHA-256 is the key.
pub fn read_key_file(alloc: Global, bytes: &[u8]) -> Result<Key, KeyFileFail>
    ensures { Gives (key_file_key bytes.now) result }
{
    match read_document(alloc, bytes) {
        Ok(document) => document_key(alloc, &document),
        Err(Stopped::Cut) => Ok(plain_key(bytes)),
        Err(Stopped::NoMemory) => Err(KeyFileFail::NoMemory),
    }
}

// The key of a file that is no key document.
fn plain_key(bytes: &[u8]) -> Key
    ensures { result ≡ spec_of.plain_key bytes.now }
{
    if let Some(whole) = bytes.as_array() {
        return Key::of(whole);
    }
    if let Some(key) = hexadecimal_key(bytes) {
        return key;
    }
    digest_of(bytes)
}

// The key of a key document.
fn document_key(alloc: Global, document: &Document) -> Result<Key, KeyFileFail>
    ensures { Gives (spec.document_key document.now.version (option_map told_by document.now.data))
        result }
{
    match (document.version, &document.data) {
        (None, _) => Err(KeyFileFail::KeyFileForm(0)),
        (Some(Version::Other(place)), _) => Err(KeyFileFail::KeyFileForm(place)),
        (Some(_), None) => Err(KeyFileFail::KeyFileForm(0)),
        (Some(Version::First), Some(data)) => first_key(data),
        (Some(Version::Second), Some(data)) => second_key(alloc, data),
    }
}

// The key of the first version.
fn first_key(told: &Data) -> Result<Key, KeyFileFail>
    ensures { result ≡ spec.first_key (told_by told.now) }
{
    match base64_key(trim(told.text.lend(0, told.text.len()))) {
        Some(key) => Ok(key),
        None => Err(KeyFileFail::KeyFileForm(told.place)),
    }
}

// The key of the second version.
fn second_key(alloc: Global, told: &Data) -> Result<Key, KeyFileFail>
    ensures { Gives (spec.second_key (told_by told.now)) result }
{
    let Ok(digits) = dense(alloc, told.text.lend(0, told.text.len())) else {
        return Err(KeyFileFail::NoMemory);
    };
    let Some(key) = hexadecimal_key(digits.lend(0, digits.len())) else {
        return Err(KeyFileFail::KeyFileForm(told.place));
    };
    match &told.hash {
        Some(hash) => proved(key, told.place, hash.lend(0, hash.len())),
        None => Ok(key),
    }
}

// The key, where these digits write its hash.
fn proved(mut key: Key, place: usize, digits: &[u8]) -> Result<Key, KeyFileFail>
    ensures { result ≡ spec.proved_by place (Some digits.now) key }
{
    match hexadecimal_hash(digits) {
        Some(kept) => compared(key, kept),
        None => {
            key.clear();
            key.release();
            Err(KeyFileFail::KeyFileForm(place))
        }
    }
}

// The key, where this is its hash.
fn compared(mut key: Key, kept: [u8; 4]) -> Result<Key, KeyFileFail>
    ensures { result ≡ spec.key_or_hash_refusal key kept }
{
    let mut digest = digest_of(key.bytes());
    let mut found = [0; 4];
    found.copy_from_slice(&digest.bytes()[..4]);
    digest.clear();
    digest.release();
    if kept == found {
        return Ok(key);
    }
    key.clear();
    key.release();
    Err(KeyFileFail::KeyFileHash { kept, found })
}
