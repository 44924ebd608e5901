//! The commands of attachments on a document.
ghost use Rattle.std.specs.Prelude.{◌≡◌, IfErr, IfOk};
ghost use Rattle.vault_model.specs.SeenDoc.{doc_seen};
ghost use Rattle.tree_core.specs.After.{Changes};
ghost use Rattle.cli_messages.specs.Phases.{IsPlainStop, Returns};
ghost use Rattle.cli_changes.specs.Attachments as spec;
ghost use Rattle.cli_changes.specs.Attachments.{after_attach_command, after_detach_command, attachment_bytes};
ghost use Rattle.cli_changes.specs.Entries.{CommandChanges};
ghost use Rattle.cli_changes.specs.SeenAttached.{attached_seen};

use crate::Given;
use crate::entries::time_of;
use crate::fails::unchanged_by;
use crate::reports::line_of;
use cli_messages::Stop;
use outside_core::NoMemory;
use secret_core::Secret;
use std::alloc::Global;
use std::rc::Rc;
use tree_core::{Attached, TreeFail};
use tree_edits::{attach, detach};
use tree_steps::attachment_in;
use vault_model::Doc;

/// The bytes of the attachment of a name that the entry that a path names has, in a document of this
/// file. They are shared with the document.
pub fn attachment_of(
    alloc: Global,
    doc: &Doc,
    file: &str,
    path: &str,
    name: &str,
) -> Result<Rc<Secret>, Stop>
    ensures told { Returns (λ bytes. bytes.value.bytes) result
        (attachment_bytes file.now path.now name.now (doc_seen doc.now)) }
    ensures cause { IfErr result IsPlainStop }
{
    match attachment_in(doc, path, name) {
        Ok(attachment) => match attachment.bytes.clone() {
            Ok(bytes) => Ok(bytes),
            Err(_) => Err(Stop::NoMemory),
        },
        Err(fail) => Err(unchanged_by(alloc, fail, file, &[], name)),
    }
}

/// The line that reports that an attachment was taken out into a file; nothing where the command is
/// quiet. A name may be secret, so the line is made in memory that is wiped.
pub fn export_report(
    alloc: Global,
    quiet: bool,
    path: &str,
    name: &str,
    to: &str,
) -> Result<Secret, NoMemory>
    ensures { IfOk result (λ text. text.bytes
        ≡ spec.export_report quiet path.now name.now to.now) }
{
    if quiet {
        return Secret::with_room(alloc, 0);
    }
    line_of(
        alloc,
        &[
            b"exported attachment ",
            name.as_bytes(),
            b" of entry ",
            path.as_bytes(),
            b" to ",
            to.as_bytes(),
        ],
    )
}

/// A file that is put to an entry.
#[derive(Clone, Copy)]
pub struct AttachedFile<'a> {
    /// The name that the attachment gets.
    pub name: &'a str,
    /// The name of the file, which is reported.
    pub source: &'a str,
    /// Its bytes.
    pub bytes: &'a Rc<Secret>,
    /// Whether an attachment of this name is replaced.
    pub replaces: bool,
}

/// What `attachment-import` makes of a document: the entry that a path names has an attachment more,
/// or another one of this name. A refusal changes nothing.
#[tactic(auto, unfolding(crate::specs::Attachments::after_attach_command))]
pub fn attach_file(
    alloc: Global,
    doc: &mut Doc,
    path: &str,
    attached: AttachedFile<'_>,
    given: Given<'_>,
) -> Result<Secret, Stop>
    ensures told { CommandChanges result (after_attach_command given.entry.file.now
        given.entry.quiet path.now (attached_seen attached.entry) given.entry.now
        (doc_seen doc.old)) (doc_seen doc.old) (doc_seen doc.new) }
    ensures cause { IfErr result IsPlainStop }
{
    let text = import_report(alloc, given.quiet, path, &attached)?;
    match attach_at(alloc, doc, path, &attached, given.now) {
        Ok(()) => Ok(text),
        Err(fail) => {
            drop(text);
            Err(unchanged_by(alloc, fail, given.file, &[], attached.name))
        }
    }
}

/// What `attachment-rm` makes of a document: the entry that a path names has an attachment less. A
/// refusal changes nothing.
#[tactic(auto, unfolding(crate::specs::Attachments::after_detach_command))]
pub fn detach_file(
    alloc: Global,
    doc: &mut Doc,
    path: &str,
    name: &str,
    given: Given<'_>,
) -> Result<Secret, Stop>
    ensures told { CommandChanges result (after_detach_command given.entry.file.now
        given.entry.quiet path.now name.now given.entry.now (doc_seen doc.old)) (doc_seen doc.old)
        (doc_seen doc.new) }
    ensures cause { IfErr result IsPlainStop }
{
    let text = removal_report(alloc, given.quiet, path, name)?;
    match detach_at(alloc, doc, path, name, given.now) {
        Ok(()) => Ok(text),
        Err(fail) => {
            drop(text);
            Err(unchanged_by(alloc, fail, given.file, &[], name))
        }
    }
}

// The line that reports that a file was put to an entry; nothing where the command is quiet.
fn import_report(
    alloc: Global,
    quiet: bool,
    path: &str,
    attached: &AttachedFile<'_>,
) -> Result<Secret, NoMemory>
    ensures { IfOk result (λ text. text.bytes
        ≡ spec.import_report quiet path.now attached.now.name.now attached.now.source.now) }
{
    if quiet {
        return Secret::with_room(alloc, 0);
    }
    line_of(
        alloc,
        &[
            b"imported attachment ",
            attached.source.as_bytes(),
            b" as ",
            attached.name.as_bytes(),
            b" to entry ",
            path.as_bytes(),
        ],
    )
}

// The line that reports that an attachment was taken away; nothing where the command is quiet.
fn removal_report(alloc: Global, quiet: bool, path: &str, name: &str) -> Result<Secret, NoMemory>
    ensures { IfOk result (λ text. text.bytes ≡ spec.removal_report quiet path.now name.now) }
{
    if quiet {
        return Secret::with_room(alloc, 0);
    }
    line_of(
        alloc,
        &[
            b"removed attachment ",
            name.as_bytes(),
            b" from entry ",
            path.as_bytes(),
        ],
    )
}

// Puts a file to an entry at a moment.
fn attach_at(
    alloc: Global,
    doc: &mut Doc,
    path: &str,
    attached: &AttachedFile<'_>,
    now: u64,
) -> Result<(), TreeFail>
    ensures { Changes (spec.with_attached_at path.now attached.now.name.now
        attached.now.bytes.now.value.bytes attached.now.replaces now (doc_seen doc.old)) result
        (doc_seen doc.old) (doc_seen doc.new) }
{
    let time = time_of(now)?;
    let attached = Attached {
        name: attached.name,
        bytes: attached.bytes,
        replaces: attached.replaces,
    };
    attach(alloc, doc, path, &attached, time)
}

// Takes an attachment of an entry away at a moment.
fn detach_at(alloc: Global, doc: &mut Doc, path: &str, name: &str, now: u64) -> Result<(), TreeFail>
    ensures { Changes (spec.with_detached_at path.now name.now now (doc_seen doc.old)) result
        (doc_seen doc.old) (doc_seen doc.new) }
{
    let time = time_of(now)?;
    detach(alloc, doc, path, name, time)
}
