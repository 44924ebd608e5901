//! Files in memory, whose bytes are known, or whose refusal is: a document that is sealed over dice
//! that count, in the place of an older file.

ghost use Rattle.std.specs.Prelude.{◌≡◌};
ghost use Rattle.kdbx_frame.specs.Settings.{IsInOrder};

use crate::documents::{put_another, read};
use crate::fault::Fault;
use crate::row::Row;
use crate::sealing::{Target, open, seal};
use crate::sums::Sum;
use crate::texts::expanded;
use kdbx_frame::Settings;
use outside_objects::{CountingDice, MemoryFiles};
use std::alloc::Global;
use vault_model::Doc;

/// The name of the file.
const NAME: &str = "vault";

/// What the file was before.
const OLD: &[u8] = b"an older file";

// Puts the old file into a store, and lets the call of its number fail if the word is one.
fn prepare(files: &mut MemoryFiles, call: &str) -> Result<(), Fault> {
    if files.put(NAME, OLD).is_err() {
        return Err(Fault::NoMemory);
    }
    match call.parse::<u64>() {
        Ok(call) => match files.fail_at(call) {
            Ok(()) => Ok(()),
            Err(_) => Err(Fault::NoMemory),
        },
        Err(_) => Ok(()),
    }
}

// The sum of the file, which is there.
fn sum_of(files: &MemoryFiles) -> Result<Sum, Fault> {
    match files.bytes(NAME) {
        Some(bytes) => Ok(Sum::of(bytes)),
        None => Err(Fault::Changed),
    }
}

// Seals a document in memory, over dice that count.
fn seal_counted(
    alloc: Global,
    doc: &Doc,
    settings: &Settings,
    target: &Target<'_>,
    files: &mut MemoryFiles,
) -> Result<(), Fault>
    requires { IsInOrder settings.now }
{
    let mut dice = CountingDice::new(alloc);
    seal(alloc, doc, settings, target, files, &mut dice)
}

// Why what was sealed once is not sealed again, if it is not.
fn outcome_again(outcome: Result<(), Fault>) -> Result<(), Fault> {
    match outcome {
        Ok(()) => Ok(()),
        Err(Fault::NotSealed(fail)) => Err(Fault::NotSealedAgain(fail)),
        Err(_) => Err(Fault::NotTheSame),
    }
}

// Seals what was opened.
fn seal_opened(
    alloc: Global,
    opened: &Result<Doc, Fault>,
    settings: &Settings,
    target: &Target<'_>,
    files: &mut MemoryFiles,
) -> Result<(), Fault>
    requires { IsInOrder settings.now }
{
    match opened {
        Ok(doc) => outcome_again(seal_counted(alloc, doc, settings, target, files)),
        Err(fault) => Err(*fault),
    }
}

// Opens the file, and seals in its place the document that it holds.
fn seal_again(
    alloc: Global,
    settings: &Settings,
    target: &Target<'_>,
    files: &mut MemoryFiles,
) -> Result<(), Fault>
    requires { IsInOrder settings.now }
{
    let opened = open(alloc, target, files);
    let result = seal_opened(alloc, &opened, settings, target, files);
    drop(opened);
    result
}

// The sum of the file, once the document that it holds makes the same file again.
fn sealed_sum(
    alloc: Global,
    settings: &Settings,
    target: &Target<'_>,
    files: &mut MemoryFiles,
) -> Result<Sum, Fault>
    requires { IsInOrder settings.now }
{
    let sum = sum_of(files)?;
    seal_again(alloc, settings, target, files)?;
    if sum_of(files)?.is_same(&sum) {
        Ok(sum)
    } else {
        Err(Fault::NotTheSame)
    }
}

// Why a document was not sealed, while the old file is as it was.
fn refusal(files: &MemoryFiles, fault: Fault) -> Fault {
    if files.bytes(NAME) == Some(OLD) {
        fault
    } else {
        Fault::Changed
    }
}

// The sum of the file that a document is sealed as, in this store.
fn sum_in(
    alloc: Global,
    settings: &Settings,
    doc: &Doc,
    target: &Target<'_>,
    files: &mut MemoryFiles,
) -> Result<Sum, Fault>
    requires { IsInOrder settings.now }
{
    match seal_counted(alloc, doc, settings, target, files) {
        Ok(()) => sealed_sum(alloc, settings, target, files),
        Err(fault) => Err(refusal(files, fault)),
    }
}

// The sum of the file that a document is sealed as by a row.
fn sum_of_document(
    alloc: Global,
    row: &Row<'_>,
    settings: &Settings,
    doc: &Doc,
) -> Result<Sum, Fault>
    requires { IsInOrder settings.now }
{
    let mut files = MemoryFiles::new(alloc);
    match prepare(&mut files, row.word(7)) {
        Ok(()) => sum_in(
            alloc,
            settings,
            doc,
            &Target::new(NAME, row.word(5)),
            &mut files,
        ),
        Err(fault) => Err(fault),
    }
}

// The document that the text of a file stands for.
fn document_of(alloc: Global, text: &str) -> Result<Doc, Fault> {
    let text = expanded(alloc, text)?;
    read(alloc, text)
}

// Puts one entry more into a document if a word says so.
fn extend(alloc: Global, doc: &mut Doc, word: &str) -> Result<(), Fault> {
    if word == "another" {
        put_another(alloc, doc)
    } else {
        Ok(())
    }
}

// The sum of the file that a row makes of what was read for it.
fn sum_of_read(
    alloc: Global,
    row: &Row<'_>,
    settings: &Settings,
    doc: &mut Result<Doc, Fault>,
) -> Result<Sum, Fault>
    requires { IsInOrder settings.now }
{
    match doc {
        Ok(doc) => {
            extend(alloc, doc, row.word(8))?;
            sum_of_document(alloc, row, settings, doc)
        }
        Err(fault) => Err(*fault),
    }
}

/// The sum of the file that a row makes of the document whose text this is: version, cipher, key
/// derivation, public data, password, the file with the document, the number of the store's call that
/// fails, and `another` where the document is to have one entry more. What is in the file must make
/// the same file again.
pub fn seal_in_memory(
    alloc: Global,
    row: &Row<'_>,
    settings: &Settings,
    text: &str,
) -> Result<Sum, Fault>
    requires { IsInOrder settings.now }
{
    let mut doc = document_of(alloc, text);
    let result = sum_of_read(alloc, row, settings, &mut doc);
    drop(doc);
    result
}
