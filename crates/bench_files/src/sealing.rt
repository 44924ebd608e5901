//! Sealing a document, and opening its file.

ghost use Rattle.std.specs.Prelude.{◌≡◌, OnOk};
ghost use Rattle.kdbx_frame.specs.Settings.{IsInOrder};
ghost use Rattle.vault_making.specs.NeededVersion.{later, needed_version};
ghost use Rattle.vault_model.specs.SeenDoc.{doc_seen};

use crate::fault::Fault;
use kdbx_frame::{FileVersion, Settings};
use kdbx_open::{Opened, open_file};
use kdbx_seal::{draw, seal_file};
use key_core::composite;
use outside_core::{Dice, FileStore};
use std::alloc::Global;
use vault_making::needed;
use vault_model::Doc;

/// A file by its name, and the password that it is under.
#[derive(Clone, Copy)]
pub struct Target<'a> {
    name: &'a str,
    password: &'a str,
}

impl<'a> Target<'a> {
    /// The file of a name, under the password of a word; `-` is the empty one.
    pub fn new(name: &'a str, word: &'a str) -> Target<'a> {
        if word == "-" {
            return Target { name, password: "" };
        }
        Target {
            name,
            password: word,
        }
    }
}

// Refuses a file of a version that does not keep all of what needs another one.
fn check_version(needed: FileVersion, version: FileVersion) -> Result<(), Fault>
    ensures { OnOk result (later needed version ≡ version) }
{
    match (needed, version) {
        (FileVersion::V31, _) => Ok(()),
        (FileVersion::V40, FileVersion::V40) => Ok(()),
        (FileVersion::V40, FileVersion::V41) => Ok(()),
        (FileVersion::V41, FileVersion::V41) => Ok(()),
        _ => Err(Fault::TooOld),
    }
}

// Refuses a file of a version that does not keep all of a document.
fn check_document(doc: &Doc, version: FileVersion) -> Result<(), Fault>
    ensures { OnOk result (later (needed_version (doc_seen doc.now)) version ≡ version) }
{
    check_version(needed(doc), version)
}

/// Seals a document as a file under a password.
pub fn seal<F: FileStore, D: Dice>(
    alloc: Global,
    doc: &Doc,
    settings: &Settings,
    target: &Target<'_>,
    files: &mut F,
    dice: &mut D,
) -> Result<(), Fault>
    requires { IsInOrder settings.now }
{
    check_document(doc, settings.version)?;
    let Ok(draws) = draw(settings, dice) else {
        return Err(Fault::NoBytes);
    };
    let mut key = composite(Some(target.password.as_bytes()), None);
    let result = seal_file(alloc, doc, settings, &key, draws, files, target.name);
    key.clear();
    key.release();
    match result {
        Ok(()) => Ok(()),
        Err(fail) => Err(Fault::NotSealed(fail)),
    }
}

/// The document that a file holds under a password.
pub fn open<F: FileStore>(alloc: Global, target: &Target<'_>, files: &mut F) -> Result<Doc, Fault> {
    let key = composite(Some(target.password.as_bytes()), None);
    match open_file(alloc, files, target.name, key) {
        Ok(
            Opened {
                doc,
                settings: _,
                mut composite,
            },
        ) => {
            composite.clear();
            composite.release();
            Ok(doc)
        }
        Err(fail) => Err(Fault::NotOpened(fail)),
    }
}
