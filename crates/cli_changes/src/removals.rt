//! `rm` and `rmdir` on a document.
ghost use Rattle.std.specs.Prelude.{◌≡◌, IfErr, IfOk, None, is_some};
ghost use Rattle.vault_model.specs.SeenDoc.{doc_seen};
ghost use Rattle.tree_core.specs.After.{needs_bin};
ghost use Rattle.tree_removals.specs.Removes.{Removes};
ghost use Rattle.cli_messages.specs.Phases.{IsPlainStop};
ghost use Rattle.cli_changes.specs.Entries.{CommandChanges};
ghost use Rattle.cli_changes.specs.Nodes as spec;
ghost use Rattle.cli_changes.specs.Reports as lines;

use crate::groups::group_name;
use crate::reports::report;
use crate::{Given, entry_title, time_of, unchanged};
use cli_messages::Stop;
use outside_core::NoMemory;
use secret_core::Secret;
use std::alloc::Global;
use tree_core::{Removed, TreeFail};
use tree_removals::{remove_entry, remove_group};
use uuid_core::Uuid;
use vault_model::Doc;

// The reports of a removal, of which one will be told.
#[derive(Drop)]
struct Reports {
    recycled: Secret,
    deleted: Secret,
}

// Both reports of the removal of a node of this name.
fn reports_of(
    alloc: Global,
    quiet: bool,
    recycled: &[u8],
    deleted: &[u8],
    name: &[u8],
) -> Result<Reports, NoMemory>
    ensures recycled { IfOk result (λ both. both.recycled.bytes
        ≡ lines.report quiet recycled.now name.now None) }
    ensures deleted { IfOk result (λ both. both.deleted.bytes
        ≡ lines.report quiet deleted.now name.now None) }
{
    let recycled = report(alloc, quiet, recycled, name, None)?;
    match report(alloc, quiet, deleted, name, None) {
        Ok(deleted) => Ok(Reports { recycled, deleted }),
        Err(fail) => {
            drop(recycled);
            Err(fail)
        }
    }
}

// The report of what became of a node.
fn choose_report(reports: Reports, removed: Removed) -> Secret
    ensures { result.bytes
        ≡ lines.chosen_report removed reports.recycled.bytes reports.deleted.bytes }
{
    let Reports { recycled, deleted } = reports;
    match removed {
        Removed::Recycled => {
            drop(deleted);
            recycled
        }
        Removed::Deleted => {
            drop(recycled);
            deleted
        }
    }
}

// Removes an entry at a moment.
fn remove_entry_at(
    alloc: Global,
    doc: &mut Doc,
    path: &str,
    bin: Option<Uuid>,
    now: u64,
) -> Result<Removed, TreeFail>
    requires { is_some bin ≡ needs_bin (doc_seen doc.old) }
    ensures { Removes (spec.without_entry_at path.now bin now (doc_seen doc.old)) result
        (doc_seen doc.old) (doc_seen doc.new) }
{
    let time = time_of(now)?;
    remove_entry(alloc, doc, path, bin, time)
}

// Removes a group at a moment.
fn remove_group_at(
    alloc: Global,
    doc: &mut Doc,
    path: &str,
    bin: Option<Uuid>,
    now: u64,
) -> Result<Removed, TreeFail>
    requires { is_some bin ≡ needs_bin (doc_seen doc.old) }
    ensures { Removes (spec.without_group_at path.now bin now (doc_seen doc.old)) result
        (doc_seen doc.old) (doc_seen doc.new) }
{
    let time = time_of(now)?;
    remove_group(alloc, doc, path, bin, time)
}

/// What `rm` makes of a document: the entry that a path names is in the bin, which is made where it
/// is missing, or is deleted. A refusal changes nothing.
#[tactic(auto, unfolding(crate::specs::Nodes::after_rm))]
pub fn remove_entry_of(
    alloc: Global,
    doc: &mut Doc,
    path: &str,
    bin: Option<Uuid>,
    given: Given<'_>,
) -> Result<Secret, Stop>
    requires { is_some bin ≡ needs_bin (doc_seen doc.old) }
    ensures told { CommandChanges result (spec.after_rm given.entry.file.now given.entry.quiet
        path.now bin given.entry.now (doc_seen doc.old)) (doc_seen doc.old) (doc_seen doc.new) }
    ensures cause { IfErr result IsPlainStop }
{
    let title = entry_title(doc, path);
    let both = reports_of(
        alloc,
        given.quiet,
        b"recycled entry ",
        b"deleted entry ",
        title,
    )?;
    match remove_entry_at(alloc, doc, path, bin, given.now) {
        Ok(removed) => Ok(choose_report(both, removed)),
        Err(fail) => {
            drop(both);
            Err(unchanged(alloc, fail, given.file))
        }
    }
}

/// What `rmdir` makes of a document: the group that a path names is in the bin, which is made where
/// it is missing, or is deleted with all that is in it. A refusal changes nothing.
#[tactic(auto, unfolding(crate::specs::Nodes::after_rmdir))]
pub fn remove_group_of(
    alloc: Global,
    doc: &mut Doc,
    path: &str,
    bin: Option<Uuid>,
    given: Given<'_>,
) -> Result<Secret, Stop>
    requires { is_some bin ≡ needs_bin (doc_seen doc.old) }
    ensures told { CommandChanges result (spec.after_rmdir given.entry.file.now given.entry.quiet
        path.now bin given.entry.now (doc_seen doc.old)) (doc_seen doc.old) (doc_seen doc.new) }
    ensures cause { IfErr result IsPlainStop }
{
    let name = group_name(doc, path);
    let both = reports_of(
        alloc,
        given.quiet,
        b"recycled group ",
        b"deleted group ",
        name,
    )?;
    match remove_group_at(alloc, doc, path, bin, given.now) {
        Ok(removed) => Ok(choose_report(both, removed)),
        Err(fail) => {
            drop(both);
            Err(unchanged(alloc, fail, given.file))
        }
    }
}
