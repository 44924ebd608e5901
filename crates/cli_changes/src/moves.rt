//! `mv` on a document.
ghost use Rattle.std.specs.Prelude.{◌≡◌, IfErr};
ghost use Rattle.vault_model.specs.SeenDoc.{doc_seen};
ghost use Rattle.tree_core.specs.After.{Changes};
ghost use Rattle.cli_messages.specs.Phases.{IsPlainStop};
ghost use Rattle.cli_changes.specs.Entries.{CommandChanges};
ghost use Rattle.cli_changes.specs.Nodes as spec;

use crate::groups::group_name;
use crate::reports::report;
use crate::{Given, entry_title, time_of, unchanged};
use cli_messages::Stop;
use secret_core::Secret;
use std::alloc::Global;
use tree_core::TreeFail;
use tree_removals::tree_moves::{move_entry, move_group};
use vault_model::Doc;

// Moves an entry at a moment.
fn move_entry_at(
    alloc: Global,
    doc: &mut Doc,
    path: &str,
    group: &str,
    now: u64,
) -> Result<(), TreeFail>
    ensures { Changes (spec.with_entry_moved_at path.now group.now now (doc_seen doc.old)) result
        (doc_seen doc.old) (doc_seen doc.new) }
{
    let time = time_of(now)?;
    move_entry(alloc, doc, path, group, time)
}

// Moves a group at a moment.
fn move_group_at(
    alloc: Global,
    doc: &mut Doc,
    path: &str,
    group: &str,
    now: u64,
) -> Result<(), TreeFail>
    ensures { Changes (spec.with_group_moved_at path.now group.now now (doc_seen doc.old)) result
        (doc_seen doc.old) (doc_seen doc.new) }
{
    let time = time_of(now)?;
    move_group(alloc, doc, path, group, time)
}

// Moves the entry that a path names, and reports it.
#[tactic(auto, unfolding(crate::specs::Nodes::after_entry_move))]
fn move_entry_of(
    alloc: Global,
    doc: &mut Doc,
    path: &str,
    group: &str,
    given: Given<'_>,
) -> Result<Secret, Stop>
    ensures told { CommandChanges result (spec.after_entry_move given.entry.file.now
        given.entry.quiet path.now group.now given.entry.now (doc_seen doc.old)) (doc_seen doc.old)
        (doc_seen doc.new) }
    ensures cause { IfErr result IsPlainStop }
{
    let title = entry_title(doc, path);
    let text = report(alloc, given.quiet, b"moved entry ", title, Some(group))?;
    match move_entry_at(alloc, doc, path, group, given.now) {
        Ok(()) => Ok(text),
        Err(fail) => {
            drop(text);
            Err(unchanged(alloc, fail, given.file))
        }
    }
}

// Moves the group that a path names, and reports it.
#[tactic(auto, unfolding(crate::specs::Nodes::after_group_move))]
fn move_group_of(
    alloc: Global,
    doc: &mut Doc,
    path: &str,
    group: &str,
    given: Given<'_>,
) -> Result<Secret, Stop>
    ensures told { CommandChanges result (spec.after_group_move given.entry.file.now
        given.entry.quiet path.now group.now given.entry.now (doc_seen doc.old)) (doc_seen doc.old)
        (doc_seen doc.new) }
    ensures cause { IfErr result IsPlainStop }
{
    let name = group_name(doc, path);
    let text = report(alloc, given.quiet, b"moved group ", name, Some(group))?;
    match move_group_at(alloc, doc, path, group, given.now) {
        Ok(()) => Ok(text),
        Err(fail) => {
            drop(text);
            Err(unchanged(alloc, fail, given.file))
        }
    }
}

// Reports whether a word names a group: it ends with a slash.
fn names_group(word: &[u8]) -> bool
    ensures { result ≡ spec.names_group word.now }
{
    match word {
        [.., b'/'] => true,
        _ => false,
    }
}

/// What `mv` makes of a document: the node that the first word names, a group where that ends with
/// a slash and else an entry, is in the group that the second names. A refusal changes nothing.
pub fn move_node(
    alloc: Global,
    doc: &mut Doc,
    node: &str,
    group: &str,
    given: Given<'_>,
) -> Result<Secret, Stop>
    ensures told { CommandChanges result (spec.after_mv given.entry.file.now given.entry.quiet
        node.now group.now given.entry.now (doc_seen doc.old)) (doc_seen doc.old)
        (doc_seen doc.new) }
    ensures cause { IfErr result IsPlainStop }
{
    if names_group(node.as_bytes()) {
        move_group_of(alloc, doc, node, group, given)
    } else {
        move_entry_of(alloc, doc, node, group, given)
    }
}
