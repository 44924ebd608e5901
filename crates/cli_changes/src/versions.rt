//! `edit --restore` on a document.
ghost use Rattle.std.specs.Prelude.{◌≡◌, IfErr, option_map};
ghost use Rattle.vault_model.specs.SeenDoc.{doc_seen};
ghost use Rattle.vault_model.specs.SeenNodes.{bare_version};
ghost use Rattle.tree_core.specs.After.{Changes};
ghost use Rattle.cli_messages.specs.Phases.{IsPlainStop};
ghost use Rattle.cli_changes.specs.Entries.{CommandChanges};
ghost use Rattle.cli_changes.specs.Versions as spec;
ghost use Rattle.cli_changes.specs.Versions.{after_restore_command};

use crate::Given;
use crate::entries::time_of;
use crate::fails::unchanged;
use crate::texts::report;
use cli_messages::Stop;
use secret_core::Secret;
use std::alloc::Global;
use tree_core::{TreeFail, find_entry, title_of_version, version_numbered};
use tree_edits::restore;
use tree_steps::{entry_of, holder};
use vault_model::{Doc, Version};

// The title that a version says, if there is one.
fn title_in(version: Option<&Version>) -> &[u8]
    ensures { result.now ≡ spec.title_in (option_map (λ v. bare_version v.now) version.entry) }
{
    match version {
        Some(version) => title_of_version(version),
        None => &[],
    }
}

// The title that the entry that a path names has once it is restored.
fn restored_title<'a>(doc: &'a Doc, path: &str, number: u64) -> &'a [u8]
    ensures { result.now ≡ spec.restored_title path.now number (doc_seen doc.now) }
{
    let Some(id) = find_entry(doc, path) else {
        return &[];
    };
    let Some(group) = holder(&doc.root, id) else {
        return &[];
    };
    match entry_of(&doc.root, group, id) {
        Some(entry) => title_in(version_numbered(entry, number)),
        None => &[],
    }
}

// Restores a version of an entry at a moment.
fn restore_at(
    alloc: Global,
    doc: &mut Doc,
    path: &str,
    number: u64,
    now: u64,
) -> Result<(), TreeFail>
    ensures { Changes (spec.with_restored_at path.now number now (doc_seen doc.old)) result
        (doc_seen doc.old) (doc_seen doc.new) }
{
    let time = time_of(now)?;
    restore(alloc, doc, path, number, time)
}

/// What `edit --restore` makes of a document: the entry that a path names says what its version of
/// this number said. A refusal changes nothing.
#[tactic(auto, unfolding(crate::specs::Versions::after_restore_command))]
pub fn restore_entry(
    alloc: Global,
    doc: &mut Doc,
    path: &str,
    number: u64,
    given: Given<'_>,
) -> Result<Secret, Stop>
    ensures told { CommandChanges result (after_restore_command given.entry.file.now
        given.entry.quiet path.now number given.entry.now (doc_seen doc.old)) (doc_seen doc.old)
        (doc_seen doc.new) }
    ensures cause { IfErr result IsPlainStop }
{
    let title = restored_title(doc, path, number);
    let text = report(alloc, given.quiet, b"edited", title)?;
    match restore_at(alloc, doc, path, number, given.now) {
        Ok(()) => Ok(text),
        Err(fail) => {
            drop(text);
            Err(unchanged(alloc, fail, given.file))
        }
    }
}
