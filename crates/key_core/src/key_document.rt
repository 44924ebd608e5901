//! Key files that are markup.

ghost use Rattle.std.specs.Prelude.{◌≡◌, IfOk, option_map, option_copied};
ghost use Rattle.markup_core.specs.MarkupGrammar.Elements.{innermost, open_contents};
ghost use Rattle.markup_core.specs.MarkupGrammar.Escapes.{unescaped};
ghost use Rattle.markup_core.specs.MarkupGrammar.Reading.{answers};
ghost use Rattle.key_core.specs.KeyDocument as spec;
ghost use Rattle.key_core.specs.Reading.{Begins, Ends, IsDocument, Reads, says_by, says_of, says_or, told_by, told_here, told_or, version_or};

use crate::reading::{Item, Stopped, next_item, read_text, skip};
use markup_core::{Piece, Reader};
use outside_core::NoMemory;
use secret_core::Secret;
use std::alloc::Global;
use text_core::{trim, unescaped};

/// The version of a key document.
#[derive(Clone, Copy)]
pub(crate) enum Version {
    /// A version 1: the key is written in base64.
    First,
    /// A version 2: the key is written in hexadecimal digits, with a hash of it.
    Second,
    /// Another version, which is at this place.
    Other(usize),
}

/// A key as it is reported.
#[derive(Drop)]
pub(crate) struct Data {
    /// The place of its element.
    pub(crate) place: usize,
    /// The hash that is reported with it.
    pub(crate) hash: Option<Secret>,
    /// Its text.
    pub(crate) text: Secret,
}

/// What the root of a key document says.
#[derive(Drop)]
pub(crate) struct Document {
    pub(crate) version: Option<Version>,
    pub(crate) data: Option<Data>,
}

// A version by its text: only the number before the first point counts.
fn version_by(place: usize, text: &[u8]) -> Version
    ensures { result ≡ spec.version_by place text.now }
{
    match trim(text) {
        [b'1', b'.', ..] => Version::First,
        [b'2', b'.', ..] => Version::Second,
        _ => Version::Other(place),
    }
}

// Reads an element of a Meta up to its end: a Version gives a version, and another element leaves
// it.
fn read_in_meta(
    alloc: Global,
    reader: &mut Reader<'_>,
    name: &str,
    place: usize,
    version: Option<Version>,
) -> Result<Option<Version>, Stopped>
    ensures { Reads (λ v. v)
        (version_or name.now place version (innermost (open_contents reader.old)))
        reader.old result reader.new }
{
    if name != "Version" {
        skip(reader)?;
        return Ok(version);
    }
    let text = read_text(alloc, reader)?;
    Ok(Some(version_by(place, text.lend(0, text.len()))))
}

// Reads a Meta up to its end: the version that its last Version gives.
fn read_meta(alloc: Global, reader: &mut Reader<'_>) -> Result<Option<Version>, Stopped>
    ensures { Reads (λ v. v) (spec.version_of_meta (innermost (open_contents reader.old)))
        reader.old result reader.new }
{
    let mut version = None;
    'items: loop {
        match next_item(reader)? {
            Item::Child(name, _, place) => {
                version = read_in_meta(alloc, reader, name, place, version)?;
            }
            Item::Words(_) => {}
            Item::End => return Ok(version),
        }
    }
}

// The text of an attribute, where there is one.
fn attribute_text(alloc: Global, raw: Option<&str>) -> Result<Option<Secret>, NoMemory>
    ensures { IfOk result (λ text. option_map (λ s. s.bytes) text
        ≡ option_map unescaped (option_copied raw.entry)) }
{
    match raw {
        Some(raw) => Ok(Some(unescaped(alloc, raw)?)),
        None => Ok(None),
    }
}

// Reads a Data up to its end.
fn read_data(
    alloc: Global,
    reader: &mut Reader<'_>,
    hash: Option<&str>,
    place: usize,
) -> Result<Data, Stopped>
    ensures { Reads told_by
        (told_here place (option_copied hash.entry) (innermost (open_contents reader.old)))
        reader.old result reader.new }
{
    let hash = attribute_text(alloc, hash)?;
    let text = read_text(alloc, reader)?;
    Ok(Data { place, hash, text })
}

// Reads an element of a Key up to its end: a Data gives a key, and another element leaves it.
fn read_in_key(
    alloc: Global,
    reader: &mut Reader<'_>,
    name: &str,
    hash: Option<&str>,
    place: usize,
    told: Option<Data>,
) -> Result<Option<Data>, Stopped>
    ensures { Reads (option_map told_by) (told_or name.now place (option_copied hash.entry)
        (option_map told_by told) (innermost (open_contents reader.old))) reader.old result
        reader.new }
{
    if name != "Data" {
        skip(reader)?;
        return Ok(told);
    }
    Ok(Some(read_data(alloc, reader, hash, place)?))
}

// Reads a Key up to its end: the key that its last Data gives.
fn read_key(alloc: Global, reader: &mut Reader<'_>) -> Result<Option<Data>, Stopped>
    ensures { Reads (option_map told_by) (spec.told_of_key (innermost (open_contents reader.old)))
        reader.old result reader.new }
{
    let mut data = None;
    'items: loop {
        match next_item(reader)? {
            Item::Child(name, attrs, place) => {
                data = read_in_key(alloc, reader, name, attrs.get("Hash"), place, data)?;
            }
            Item::Words(_) => {}
            Item::End => return Ok(data),
        }
    }
}

// Reads an element of the root up to its end: a Meta gives the version, and a Key the key.
fn read_in_root(
    alloc: Global,
    reader: &mut Reader<'_>,
    name: &str,
    mut document: Document,
) -> Result<Document, Stopped>
    ensures { Reads says_by
        (says_or name.now (says_by document) (innermost (open_contents reader.old)))
        reader.old result reader.new }
{
    if name == "Meta" {
        document.version = read_meta(alloc, reader)?;
        return Ok(document);
    }
    if name == "Key" {
        document.data = read_key(alloc, reader)?;
        return Ok(document);
    }
    skip(reader)?;
    Ok(document)
}

// Reads the root up to its end.
fn read_root(alloc: Global, reader: &mut Reader<'_>) -> Result<Document, Stopped>
    ensures { Reads says_by (says_of (innermost (open_contents reader.old))) reader.old result
        reader.new }
{
    let mut document = Document {
        version: None,
        data: None,
    };
    'items: loop {
        match next_item(reader)? {
            Item::Child(name, _, _) => document = read_in_root(alloc, reader, name, document)?,
            Item::Words(_) => {}
            Item::End => return Ok(document),
        }
    }
}

// Whether the text begins with the start tag of the root of a key document, which is read.
fn begins(reader: &mut Reader<'_>) -> bool
    ensures { Begins reader.old result reader.new }
{
    match reader.next() {
        Ok(Piece::Start { name, .. }) => name == "KeyFile",
        _ => false,
    }
}

// Passes over what comes after the root.
fn reach_end(reader: &mut Reader<'_>) -> Result<(), Stopped>
    ensures { Ends reader.old result }
{
    'pieces: loop {
        match reader.next() {
            Ok(Piece::Start { .. }) => skip(reader)?,
            Ok(Piece::Words { .. }) => {}
            Ok(Piece::Stop { .. }) => return Ok(()),
            Ok(Piece::Finish) => return Ok(()),
            Err(_) => return Err(Stopped::Cut),
        }
    }
}

/// What a text says that is a key document. Any other text is cut.
pub(crate) fn read_document(alloc: Global, bytes: &[u8]) -> Result<Document, Stopped>
    ensures { IsDocument (spec.root_of (answers bytes.now)) result }
{
    let mut reader = Reader::new(bytes);
    if !begins(&mut reader) {
        return Err(Stopped::Cut);
    }
    let document = read_root(alloc, &mut reader)?;
    reach_end(&mut reader)?;
    Ok(document)
}
