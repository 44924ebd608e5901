//! Attachments put to entries, and taken away.

ghost use Rattle.std.specs.Prelude.{◌≡◌, IfOk, map, true};
ghost use Rattle.vault_model.specs.Proper.{is_proper_content};
ghost use Rattle.vault_model.specs.Seen.{bare_content};
ghost use Rattle.vault_model.specs.SeenDoc.{doc_seen};
ghost use Rattle.vault_model.specs.SeenNodes.{bare_version, entry_record};
ghost use Rattle.vault_model.specs.Tree.{is_proper_entry};
ghost use Rattle.tree_core.specs.After.{Changes, after_attach, after_detach, changed_content};
ghost use Rattle.tree_core.specs.Attachments as spec;

use crate::changing::{Versions, change_versions, versions_saying};
use outside_core::NoMemory;
use std::alloc::Global;
use tree_contents::{put_attachment, remove_attachment};
use tree_core::{Attached, TreeFail};
use tree_steps::{attachment_of, entry_named, time_after};
use vault_making::copies::copy_content;
use vault_model::{Content, Doc, Entry, Meta, Stamp, entry_stamp};

// Reports whether a version may get an attachment.
fn check_attachable(content: &Content, attached: &Attached<'_>) -> Result<(), TreeFail>
    ensures { result ≡ spec.is_attachable attached.now.name.now attached.now.replaces
        (bare_content content.now) }
{
    if attached.replaces {
        return Ok(());
    }
    match attachment_of(content, attached.name) {
        Some(_) => Err(TreeFail::NameTaken),
        None => Ok(()),
    }
}

// Reports whether a version has an attachment of a name.
fn check_attached(content: &Content, name: &str) -> Result<(), TreeFail>
    ensures { result ≡ spec.has_attachment name.now (bare_content content.now) }
{
    match attachment_of(content, name) {
        Some(_) => Ok(()),
        None => Err(TreeFail::NoAttachment),
    }
}

// A copy of what an entry says, with an attachment.
fn attached_content(
    alloc: Global,
    old: &Content,
    attached: &Attached<'_>,
) -> Result<Content, NoMemory>
    ensures is { IfOk result (λ new. bare_content new
        ≡ spec.with_attachment attached.now.name.now attached.now.bytes.now.value.bytes
        (bare_content old.now)) }
    ensures proper { IfOk result (λ new. is_proper_content (bare_content old.now) ≡ true
        → is_proper_content (bare_content new) ≡ true) }
{
    let mut new = copy_content(alloc, old)?;
    match put_attachment(alloc, &mut new, attached) {
        Ok(()) => Ok(new),
        Err(fail) => {
            drop(new);
            Err(fail)
        }
    }
}

// The versions of an entry that gets an attachment at this time.
fn attached_versions(
    alloc: Global,
    entry: &Entry,
    meta: &Meta,
    attached: &Attached<'_>,
    time: Stamp,
) -> Result<Versions, NoMemory>
    ensures is { IfOk result (λ versions. record (entry_record entry.now) {
      current = bare_version versions.current;
      history = map bare_version versions.history;
    } ≡ changed_content meta.now
        (spec.with_attachment attached.now.name.now attached.now.bytes.now.value.bytes) time
        (entry_record entry.now)) }
    ensures proper { IfOk result (λ versions. is_proper_entry (entry_record entry.now) ≡ true
        → is_proper_entry (record (entry_record entry.now) {
          current = bare_version versions.current;
          history = map bare_version versions.history;
        }) ≡ true) }
{
    let content = attached_content(alloc, &entry.current.content, attached)?;
    versions_saying(alloc, entry, meta, content, time)
}

/// Puts bytes under a name among the attachments of the entry that a path names, unless there is one
/// of that name that may not be replaced. One that is new is hidden. The entry says so in a new
/// version, as when it is edited. A refusal changes nothing.
pub fn attach(
    alloc: Global,
    doc: &mut Doc,
    path: &str,
    attached: &Attached<'_>,
    now: Stamp,
) -> Result<(), TreeFail>
    ensures { Changes (after_attach path.now attached.now.name.now
        attached.now.bytes.now.value.bytes attached.now.replaces now (doc_seen doc.old))
        result (doc_seen doc.old) (doc_seen doc.new) }
{
    let held = match entry_named(doc, path) {
        Ok(held) => held,
        Err(fail) => return Err(fail),
    };
    check_attachable(&held.entry.current.content, attached)?;
    let time = time_after(now, entry_stamp(held.entry))?;
    let (group, id) = (held.group, held.entry.id);
    match attached_versions(alloc, held.entry, &doc.meta, attached, time) {
        Ok(versions) => {
            change_versions(doc, group, id, versions);
            Ok(())
        }
        Err(_) => Err(TreeFail::NoMemory),
    }
}

// A copy of what an entry says, without the attachment of a name.
fn detached_content(alloc: Global, old: &Content, name: &str) -> Result<Content, NoMemory>
    ensures is { IfOk result (λ new. bare_content new
        ≡ spec.without_attachment name.now (bare_content old.now)) }
    ensures proper { IfOk result (λ new. is_proper_content (bare_content old.now) ≡ true
        → is_proper_content (bare_content new) ≡ true) }
{
    let mut new = copy_content(alloc, old)?;
    remove_attachment(&mut new, name);
    Ok(new)
}

// The versions of an entry that loses the attachment of a name at this time.
fn detached_versions(
    alloc: Global,
    entry: &Entry,
    meta: &Meta,
    name: &str,
    time: Stamp,
) -> Result<Versions, NoMemory>
    ensures is { IfOk result (λ versions. record (entry_record entry.now) {
      current = bare_version versions.current;
      history = map bare_version versions.history;
    } ≡ changed_content meta.now (spec.without_attachment name.now) time
        (entry_record entry.now)) }
    ensures proper { IfOk result (λ versions. is_proper_entry (entry_record entry.now) ≡ true
        → is_proper_entry (record (entry_record entry.now) {
          current = bare_version versions.current;
          history = map bare_version versions.history;
        }) ≡ true) }
{
    let content = detached_content(alloc, &entry.current.content, name)?;
    versions_saying(alloc, entry, meta, content, time)
}

/// Takes the attachment of a name away from the entry that a path names, which says so in a new
/// version, as when it is edited. A refusal changes nothing.
pub fn detach(
    alloc: Global,
    doc: &mut Doc,
    path: &str,
    name: &str,
    now: Stamp,
) -> Result<(), TreeFail>
    ensures { Changes (after_detach path.now name.now now (doc_seen doc.old))
        result (doc_seen doc.old) (doc_seen doc.new) }
{
    let held = match entry_named(doc, path) {
        Ok(held) => held,
        Err(fail) => return Err(fail),
    };
    check_attached(&held.entry.current.content, name)?;
    let time = time_after(now, entry_stamp(held.entry))?;
    let (group, id) = (held.group, held.entry.id);
    match detached_versions(alloc, held.entry, &doc.meta, name, time) {
        Ok(versions) => {
            change_versions(doc, group, id, versions);
            Ok(())
        }
        Err(_) => Err(TreeFail::NoMemory),
    }
}
