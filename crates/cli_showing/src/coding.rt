//! `show -t` on a document.
ghost use Rattle.std.specs.Prelude.{[], IfErr, map};
ghost use Rattle.outside_core.specs.Results as results;
ghost use Rattle.vault_model.specs.Seen.{bare_field};
ghost use Rattle.vault_model.specs.SeenDoc.{doc_seen};
ghost use Rattle.cli_messages.specs.Phases.{IsPlainStop, Returns};
ghost use Rattle.find_references.specs.Results.{meaning_of};
ghost use Rattle.cli_showing.specs.Showing.{code_shown, with_code, with_names};

use crate::refusals::{lacking, unfound};
use crate::showing::entry_named;
use crate::texts::append;
use crate::values::{append_names, missing_name};
use cli_codes::refused_code;
use cli_messages::{Reason, Stop, refused};
use find_references::FindFail;
use outside_core::{NoMemory, Text};
use secret_core::Secret;
use std::alloc::Global;
use tree_core::version_numbered;
use vault_model::{Doc, Field};

/// What `show -t` is given beside its document and the path of its entry.
#[derive(Clone, Copy)]
pub struct CodeGiven<'a> {
    /// The file of the document, which a refusal names.
    pub file: &'a str,
    /// The names of the fields whose values are shown before the code.
    pub names: &'a [Text],
    /// The number of the version that is shown: 0 is the current one.
    pub at: u64,
    /// The moment, in seconds since the year 1.
    pub now: u64,
}

// The values of the fields of these names, each on a line.
fn names_shown(
    alloc: Global,
    doc: &Doc,
    names: &[Text],
    fields: &[Field],
) -> Result<Secret, FindFail>
    ensures { results.Returns meaning_of (λ text. text.bytes) result
        (with_names (doc_seen doc.now) (map bare_field fields.now) names.now []) }
{
    let mut text = Secret::with_room(alloc, 0)?;
    match append_names(alloc, doc, &mut text, fields, names) {
        Ok(()) => Ok(text),
        Err(fail) => {
            drop(text);
            Err(fail)
        }
    }
}

// Puts the line of the code that these fields give after a text.
fn append_code(
    alloc: Global,
    text: &mut Secret,
    fields: &[Field],
    given: CodeGiven<'_>,
) -> Result<(), Stop>
    ensures told { Returns (λ _. text.new.bytes) result (with_code given.entry.file.now
        (map bare_field fields.now) given.entry.now text.old.bytes) }
    ensures cause { IfErr result IsPlainStop }
{
    let line = match cli_codes::code_line(alloc, fields, given.now) {
        Ok(line) => line,
        Err(fail) => return Err(refused_code(alloc, fail, given.file)),
    };
    let added = append(alloc, text, line.lend(0, line.len()));
    drop(line);
    match added {
        Ok(()) => Ok(()),
        Err(NoMemory) => Err(Stop::NoMemory),
    }
}

/// What `show -t` prints of the version that has a number, of the entry that a path names: the
/// values of the fields that are named, and then its one-time code at the moment, in memory that is
/// wiped.
#[tactic(auto, unfolding(crate::specs::Showing::code_shown))]
pub fn show_code(alloc: Global, doc: &Doc, path: &str, given: CodeGiven<'_>) -> Result<Secret, Stop>
    ensures told { Returns (λ text. text.bytes) result (code_shown given.entry.file.now
        given.entry.names.now given.entry.at path.now given.entry.now (doc_seen doc.now)) }
    ensures cause { IfErr result IsPlainStop }
{
    let Some(entry) = entry_named(doc, path) else {
        return Err(refused(alloc, Reason::NoSuchPath, given.file));
    };
    let Some(version) = version_numbered(entry, given.at) else {
        return Err(refused(alloc, Reason::NoVersion(given.at), given.file));
    };
    let fields = version.content.fields.as_slice();
    if let Some(name) = missing_name(fields, given.names) {
        return Err(lacking(alloc, name, given.file));
    }
    let mut text = match names_shown(alloc, doc, given.names, fields) {
        Ok(text) => text,
        Err(fail) => return Err(unfound(alloc, fail, given.file)),
    };
    match append_code(alloc, &mut text, fields, given) {
        Ok(()) => Ok(text),
        Err(stop) => {
            drop(text);
            Err(stop)
        }
    }
}
