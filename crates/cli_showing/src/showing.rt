//! `show` on a document.
ghost use Rattle.std.specs.Prelude.{◌≡◌, ◌++◌, IfErr, OnOk, map, option_map};
ghost use Rattle.find_references.specs.Results.{meaning_of};
ghost use Rattle.outside_core.specs.Results as results;
ghost use Rattle.vault_model.specs.Seen.{bare_field};
ghost use Rattle.vault_model.specs.SeenDoc.{doc_seen};
ghost use Rattle.vault_model.specs.SeenNodes.{bare_version, entry_row};
ghost use Rattle.cli_messages.specs.Phases.{IsPlainStop, Returns};
ghost use Rattle.cli_showing.specs.Showing as spec;
ghost use Rattle.cli_showing.specs.Showing.{entry_shown, id_and_tags, with_current, with_fields_shown};
ghost use Rattle.cli_showing.specs.inside.Entries.{entry_sought};

use crate::attachments::append_attachments;
use crate::refusals::{lacking, unfound};
use crate::texts::{append, append_three};
use crate::values::{NAMED_KEYS, append_keys, append_names, append_others, missing_name};
use cli_messages::{Reason, Stop, refused};
use find_references::FindFail;
use outside_core::{NoMemory, Text};
use secret_core::Secret;
use std::alloc::Global;
use tree_core::{find_entry, version_numbered};
use tree_steps::{entry_of, holder};
use vault_model::{Doc, Entry, Field, Version};

/// What `show` is given beside its document and the path of its entry.
#[derive(Clone, Copy)]
pub struct ShowGiven<'a> {
    /// The file of the document, which a refusal names.
    pub file: &'a str,
    /// Whether hidden values are shown too.
    pub clear: bool,
    /// Whether all fields are shown, and not only the five that every entry has.
    pub all: bool,
    /// Whether the attachments are listed.
    pub attachments: bool,
    /// The names of the fields whose values are shown alone; where there is none, the entry is
    /// shown.
    pub names: &'a [Text],
    /// The number of the version that is shown: 0 is the current one.
    pub at: u64,
}

/// The entry that a path names.
pub(crate) fn entry_named<'a>(doc: &'a Doc, path: &str) -> Option<&'a Entry>
    ensures { option_map (λ entry. entry_row entry.now) result
        ≡ entry_sought path.now (doc_seen doc.now) }
{
    let id = find_entry(doc, path)?;
    let group = holder(&doc.root, id)?;
    entry_of(&doc.root, group, id)
}

// Puts the lines of an entry's id and of the tags of a version after a text.
fn append_id_and_tags(
    alloc: Global,
    text: &mut Secret,
    entry: &Entry,
    version: &Version,
) -> Result<(), NoMemory>
    ensures { OnOk result (text.new.bytes ≡ text.old.bytes
        ++ id_and_tags (with_current (entry_row entry.now) (bare_version version.now))) }
{
    let mut digits = [0; 36];
    let id = entry.id.encode_hyphenated(&mut digits);
    append_three(
        alloc,
        text,
        b"Uuid: {",
        id.as_bytes(),
        b"}
Tags: ",
    )?;
    append(alloc, text, version.content.tags.as_str().as_bytes())?;
    append(alloc, text, b"\n")
}

// Puts the lines of an entry's fields after a text: of those that every entry has, and of all
// others where they are asked for.
fn append_fields(
    alloc: Global,
    doc: &Doc,
    clear: bool,
    all: bool,
    text: &mut Secret,
    fields: &[Field],
) -> Result<(), FindFail>
    ensures { results.Returns meaning_of (λ _. text.new.bytes) result
        (with_fields_shown (doc_seen doc.now) clear all (map bare_field fields.now)
        text.old.bytes) }
{
    append_keys(alloc, doc, clear, text, fields, &NAMED_KEYS)?;
    if all {
        append_others(alloc, doc, clear, text, fields)?;
    }
    Ok(())
}

// What is shown of a version of an entry where no fields are named.
fn whole_entry(
    alloc: Global,
    doc: &Doc,
    clear: bool,
    all: bool,
    entry: &Entry,
    version: &Version,
) -> Result<Secret, FindFail>
    ensures { results.Returns meaning_of (λ text. text.bytes) result
        (spec.whole_entry (doc_seen doc.now) clear all
        (with_current (entry_row entry.now) (bare_version version.now))) }
{
    let fields = version.content.fields.as_slice();
    let mut text = Secret::with_room(alloc, 0)?;
    if let Err(fail) = append_fields(alloc, doc, clear, all, &mut text, fields) {
        drop(text);
        return Err(fail);
    }
    match append_id_and_tags(alloc, &mut text, entry, version) {
        Ok(()) => Ok(text),
        Err(fail) => {
            drop(text);
            Err(FindFail::from(fail))
        }
    }
}

// The values that are shown of a version of an entry.
fn values_shown(
    alloc: Global,
    doc: &Doc,
    given: ShowGiven<'_>,
    entry: &Entry,
    version: &Version,
) -> Result<Secret, FindFail>
    ensures { results.Returns meaning_of (λ text. text.bytes) result
        (spec.values_shown (doc_seen doc.now) given.entry.clear given.entry.all
        given.entry.names.now (with_current (entry_row entry.now) (bare_version version.now))) }
{
    if given.names.is_empty() {
        return whole_entry(alloc, doc, given.clear, given.all, entry, version);
    }
    let mut text = Secret::with_room(alloc, 0)?;
    let fields = version.content.fields.as_slice();
    match append_names(alloc, doc, &mut text, fields, given.names) {
        Ok(()) => Ok(text),
        Err(fail) => {
            drop(text);
            Err(fail)
        }
    }
}

// What is shown of a version of an entry.
fn entry_text(
    alloc: Global,
    doc: &Doc,
    given: ShowGiven<'_>,
    entry: &Entry,
    version: &Version,
) -> Result<Secret, FindFail>
    ensures { results.Returns meaning_of (λ text. text.bytes) result
        (spec.entry_text (doc_seen doc.now) given.entry.clear given.entry.all
        given.entry.attachments given.entry.names.now
        (with_current (entry_row entry.now) (bare_version version.now))) }
{
    let mut text = values_shown(alloc, doc, given, entry, version)?;
    if !given.attachments {
        return Ok(text);
    }
    let attachments = version.content.attachments.as_slice();
    match append_attachments(alloc, &mut text, attachments) {
        Ok(()) => Ok(text),
        Err(fail) => {
            drop(text);
            Err(FindFail::from(fail))
        }
    }
}

/// What `show` prints of the version that has a number, of the entry that a path names, in memory
/// that is wiped.
#[tactic(auto, unfolding(crate::specs::Showing::entry_shown))]
pub fn show_entry(
    alloc: Global,
    doc: &Doc,
    path: &str,
    given: ShowGiven<'_>,
) -> Result<Secret, Stop>
    ensures told { Returns (λ text. text.bytes) result (entry_shown given.entry.file.now
        given.entry.clear given.entry.all given.entry.attachments given.entry.names.now
        given.entry.at path.now (doc_seen doc.now)) }
    ensures cause { IfErr result IsPlainStop }
{
    let Some(entry) = entry_named(doc, path) else {
        return Err(refused(alloc, Reason::NoSuchPath, given.file));
    };
    let Some(version) = version_numbered(entry, given.at) else {
        return Err(refused(alloc, Reason::NoVersion(given.at), given.file));
    };
    let fields = version.content.fields.as_slice();
    if let Some(name) = missing_name(fields, given.names) {
        return Err(lacking(alloc, name, given.file));
    }
    match entry_text(alloc, doc, given, entry, version) {
        Ok(text) => Ok(text),
        Err(fail) => Err(unfound(alloc, fail, given.file)),
    }
}
