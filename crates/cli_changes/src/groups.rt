//! `mkdir` on a document, and the names of groups.
ghost use Rattle.std.specs.Prelude.{◌≡◌, IfErr};
ghost use Rattle.vault_model.specs.SeenDoc.{doc_seen};
ghost use Rattle.vault_model.specs.SeenNodes.{tree_seen};
ghost use Rattle.vault_model.specs.Walk.{name_of};
ghost use Rattle.tree_core.specs.After.{Changes};
ghost use Rattle.cli_messages.specs.Phases.{IsPlainStop};
ghost use Rattle.cli_changes.specs.Entries.{CommandChanges};
ghost use Rattle.cli_changes.specs.Nodes as spec;

use crate::reports::report;
use crate::{Given, time_of, unchanged};
use cli_messages::Stop;
use secret_core::Secret;
use std::alloc::Global;
use tree_core::{TreeFail, find_group};
use tree_removals::tree_groups::{make_group, name_of_new};
use tree_steps::group_of;
use uuid_core::Uuid;
use vault_model::{Doc, Group};

// The name of a group.
#[tactic(auto, using(crate::proofs::Names::seen_name))]
fn own_name(group: &Group) -> &[u8]
    ensures { result.now ≡ name_of (tree_seen group.now) }
{
    group.state.content.name.as_str().as_bytes()
}

/// The name of the group that a path names, and nothing where it names none.
pub(crate) fn group_name<'a>(doc: &'a Doc, path: &str) -> &'a [u8]
    ensures { result.now ≡ spec.group_name path.now (doc_seen doc.now) }
{
    let Some(id) = find_group(doc, path) else {
        return &[];
    };
    match group_of(&doc.root, id) {
        Some(group) => own_name(group),
        None => &[],
    }
}

// Makes a group at a moment.
fn make_at(alloc: Global, doc: &mut Doc, path: &str, id: Uuid, now: u64) -> Result<(), TreeFail>
    ensures { Changes (spec.with_group_at path.now id now (doc_seen doc.old)) result
        (doc_seen doc.old) (doc_seen doc.new) }
{
    let time = time_of(now)?;
    make_group(alloc, doc, path, id, time)
}

/// What `mkdir` makes of a document: a group more, of this path and this id. A refusal changes
/// nothing.
#[tactic(auto, unfolding(crate::specs::Nodes::after_mkdir))]
pub fn make_group_of(
    alloc: Global,
    doc: &mut Doc,
    path: &str,
    id: Uuid,
    given: Given<'_>,
) -> Result<Secret, Stop>
    ensures told { CommandChanges result (spec.after_mkdir given.entry.file.now given.entry.quiet
        path.now id given.entry.now (doc_seen doc.old)) (doc_seen doc.old) (doc_seen doc.new) }
    ensures cause { IfErr result IsPlainStop }
{
    let name = name_of_new(path).as_bytes();
    let text = report(alloc, given.quiet, b"added group ", name, None)?;
    match make_at(alloc, doc, path, id, given.now) {
        Ok(()) => Ok(text),
        Err(fail) => {
            drop(text);
            Err(unchanged(alloc, fail, given.file))
        }
    }
}
