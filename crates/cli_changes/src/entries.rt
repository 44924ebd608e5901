//! `add` and `edit` on a document.
ghost use Rattle.std.specs.Prelude.{◌≡◌, IfErr, IfSome, MatchResult, Err, None, Ok, map, true};
ghost use Rattle.std.specs.List.{list_all};
ghost use Rattle.std.specs.Str.{is_utf8};
ghost use Rattle.vault_model.specs.SeenDoc.{doc_seen};
ghost use Rattle.tree_core.specs.After.{Changes};
ghost use Rattle.tree_core.specs.FurtherChanges.{further_seen};
ghost use Rattle.tree_core.specs.NewNodes as nodes;
ghost use Rattle.cli_messages.specs.Phases.{IsPlainStop};
ghost use Rattle.cli_changes.specs.Entries as spec;
ghost use Rattle.cli_changes.specs.Entries.{CommandChanges, after_add_command, after_edit_command};

use crate::fails::{unchanged, unchanged_by};
use crate::texts::report;
use cli_codes::check_code;
use cli_messages::Stop;
use cli_needs::{Asked, FurtherAsked};
use outside_core::Text;
use secret_core::Secret;
use std::alloc::Global;
use tree_core::{FurtherChange, TreeFail, Values, find_entry, title};
use tree_edits::{add, edit};
use tree_steps::{entry_of, holder, name_after};
use uuid_core::Uuid;
use vault_model::{Doc, Stamp};

/// What a command is given beside its document and its entry.
#[derive(Clone, Copy)]
pub struct Given<'a> {
    /// The file of the document, which a refusal names.
    pub file: &'a str,
    /// Whether the command reports nothing.
    pub quiet: bool,
    /// The entry's password, in UTF-8, where one is given.
    pub password: Option<&'a [u8]>,
    /// What the entry's one-time codes are made from, in UTF-8, where an edit gives it.
    pub otp: Option<&'a [u8]>,
    /// The values of the fields that an edit names, in UTF-8 and in their order.
    pub fields: &'a [Secret],
    /// The moment, in seconds since the year 1.
    pub now: u64,
}

// The text that is given, if one is.
fn text_in(text: &Option<Text>) -> Option<&str>
    ensures { nodes.lent_value result ≡ text.now }
{
    match text {
        Some(text) => Some(text.as_str()),
        None => None,
    }
}

// The values that an entry is to have.
fn values_of<'a>(asked: &'a Asked, password: Option<&'a [u8]>, otp: Option<&'a [u8]>) -> Values<'a>
    ensures values { nodes.given_values result
        ≡ spec.values_of asked.now (nodes.lent_value password.entry) (nodes.lent_value otp.entry) }
    ensures password { result.password ≡ password.entry }
    ensures otp { result.otp ≡ otp.entry }
{
    Values {
        title: text_in(&asked.title),
        user: text_in(&asked.user),
        password,
        url: text_in(&asked.url),
        notes: text_in(&asked.notes),
        otp,
    }
}

/// A moment as a time of the calendar, which ends with the year 9999.
pub fn time_of(now: u64) -> Result<Stamp, TreeFail>
    ensures { MatchResult result (λ time. spec.time_of now ≡ Ok time)
        (λ fail. spec.time_of now ≡ Err fail) }
{
    match Stamp::of(now) {
        Some(time) => Ok(time),
        None => Err(TreeFail::StampLimit(now)),
    }
}

// Adds an entry at a moment.
fn add_at(
    alloc: Global,
    doc: &mut Doc,
    path: &str,
    id: Uuid,
    values: &Values<'_>,
    now: u64,
) -> Result<(), TreeFail>
    requires { IfSome values.now.password (λ password. is_utf8 password.now ≡ true) }
    ensures { Changes (spec.with_entry_at path.now id (nodes.given_values values.now) now
        (doc_seen doc.old)) result (doc_seen doc.old) (doc_seen doc.new) }
{
    let time = time_of(now)?;
    add(alloc, doc, path, id, values, time)
}

// What else of an entry is to change.
fn further_of<'a>(asked: &'a FurtherAsked, values: &'a [Secret]) -> FurtherChange<'a>
    ensures seen { further_seen result
        ≡ spec.further_of asked.now (map (λ value. value.bytes) values.now) }
    ensures values { result.values.now ≡ values.now }
{
    FurtherChange {
        names: asked.set.as_slice(),
        values,
        protect: asked.protect,
        unset: asked.unset.as_slice(),
        tags: asked.tags.as_slice(),
        untags: asked.untags.as_slice(),
        expiry: asked.expiry,
    }
}

// Edits an entry at a moment.
fn edit_at(
    alloc: Global,
    doc: &mut Doc,
    path: &str,
    values: &Values<'_>,
    further: &FurtherChange<'_>,
    now: u64,
) -> Result<(), TreeFail>
    requires password { IfSome values.now.password (λ password. is_utf8 password.now ≡ true) }
    requires otp { IfSome values.now.otp (λ otp. is_utf8 otp.now ≡ true) }
    requires fields { list_all (λ value. is_utf8 value.bytes) further.now.values.now ≡ true }
    ensures { Changes (spec.with_edited_at path.now (nodes.given_values values.now)
        (further_seen further.now) now (doc_seen doc.old)) result (doc_seen doc.old)
        (doc_seen doc.new) }
{
    let time = time_of(now)?;
    edit(alloc, doc, path, values, further, time)
}

/// What `add` makes of a document: an entry more, of this path and this id. A refusal changes
/// nothing.
#[tactic(auto, unfolding(crate::specs::Entries::after_add_command))]
pub fn add_entry<'a>(
    alloc: Global,
    doc: &mut Doc,
    path: &str,
    id: Uuid,
    asked: &'a Asked,
    given: Given<'a>,
) -> Result<Secret, Stop>
    requires { IfSome given.password (λ password. is_utf8 password.now ≡ true) }
    ensures told { CommandChanges result (after_add_command given.entry.file.now given.entry.quiet
        path.now id (spec.values_of asked.now (nodes.lent_value given.entry.password) None)
        given.entry.now (doc_seen doc.old)) (doc_seen doc.old) (doc_seen doc.new) }
    ensures cause { IfErr result IsPlainStop }
{
    let text = report(alloc, given.quiet, b"added", name_after(path).as_bytes())?;
    let values = values_of(asked, given.password, None);
    match add_at(alloc, doc, path, id, &values, given.now) {
        Ok(()) => Ok(text),
        Err(fail) => {
            drop(text);
            Err(unchanged(alloc, fail, given.file))
        }
    }
}

/// The title of the entry that a path names, and nothing where it names none.
pub fn entry_title<'a>(doc: &'a Doc, path: &str) -> &'a [u8]
    ensures { result.now ≡ spec.entry_title path.now (doc_seen doc.now) }
{
    let Some(id) = find_entry(doc, path) else {
        return &[];
    };
    let Some(group) = holder(&doc.root, id) else {
        return &[];
    };
    match entry_of(&doc.root, group, id) {
        Some(entry) => title(entry),
        None => &[],
    }
}

// The title that an entry has once it is edited.
fn edited_title<'a>(doc: &'a Doc, path: &str, given: Option<&'a str>) -> &'a [u8]
    ensures { result.now
        ≡ spec.edited_title (nodes.lent_value given.entry) path.now (doc_seen doc.now) }
{
    match given {
        Some(title) => title.as_bytes(),
        None => entry_title(doc, path),
    }
}

/// What `edit` makes of a document: the entry that a path names has other values, and else says what
/// is to change of it. A text that no one-time codes are made from is refused first. A refusal
/// changes nothing.
#[tactic(auto, unfolding(crate::specs::Entries::after_edit_command))]
pub fn edit_entry(
    alloc: Global,
    doc: &mut Doc,
    path: &str,
    asked: &Asked,
    further: &FurtherAsked,
    given: Given<'_>,
) -> Result<Secret, Stop>
    requires password { IfSome given.password (λ password. is_utf8 password.now ≡ true) }
    requires otp { IfSome given.otp (λ otp. is_utf8 otp.now ≡ true) }
    requires fields { list_all (λ value. is_utf8 value.bytes) given.fields.now ≡ true }
    ensures told { CommandChanges result (after_edit_command given.entry.file.now given.entry.quiet
        path.now (spec.values_of asked.now (nodes.lent_value given.entry.password)
        (nodes.lent_value given.entry.otp))
        (spec.further_of further.now (map (λ value. value.bytes) given.entry.fields.now))
        given.entry.now (doc_seen doc.old)) (doc_seen doc.old) (doc_seen doc.new) }
    ensures cause { IfErr result IsPlainStop }
{
    check_code(alloc, given.file, given.otp)?;
    let values = values_of(asked, given.password, given.otp);
    let text = report(
        alloc,
        given.quiet,
        b"edited",
        edited_title(doc, path, values.title),
    )?;
    let change = further_of(further, given.fields);
    match edit_at(alloc, doc, path, &values, &change, given.now) {
        Ok(()) => Ok(text),
        Err(fail) => {
            drop(text);
            Err(unchanged_by(alloc, fail, given.file, further.unset.as_slice(), ""))
        }
    }
}
