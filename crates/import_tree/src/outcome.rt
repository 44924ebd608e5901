//! What a tree is refused for: ids that two nodes have, and too many levels.

ghost use Rattle.std.specs.Prelude.{◌≡◌, ◌++◌, IfOk, OnOk};
ghost use Rattle.doc_resolving.specs.DocForms.Ids.{least_duplicate};
ghost use Rattle.import_tree.specs.Outcome as spec;
ghost use Rattle.vault_model.specs.SeenNodes.{tree_seen};
ghost use Rattle.vault_model.specs.Tree.{node_ids};

use crate::fails::TreeFail;
use doc_resolving::{ids_of, lesser};
use outside_core::NoMemory;
use std::alloc::Global;
use uuid_core::Uuid;
use vault_model::Group;

/// The most levels of groups.
const LEVELS: usize = 128;

// Adds the ids of the groups of a group that are below so many levels, its own level among them.
fn push_deep_ids(ids: &mut Vec<Uuid>, group: &Group, levels: usize) -> Result<(), NoMemory>
    ensures { OnOk result (ids.new.items
        ≡ ids.old.items ++ spec.groups_below levels (tree_seen group.now)) }
{
    if levels == 0 {
        ids.push(group.id)?;
    }
    let below = levels.saturating_sub(1);
    for child in group.groups.as_slice() {
        push_deep_ids(ids, child, below)?;
    }
    Ok(())
}

/// The least of some ids, if there is one.
pub(crate) fn least_of(ids: &[Uuid]) -> Option<Uuid>
    ensures { result ≡ spec.least_id ids.now }
{
    let mut least = None;
    let mut at = ids.len();
    while at > 0 {
        at -= 1;
        least = Some(lesser(ids[at], least));
    }
    least
}

// The least id of a group below the last level, if there is one.
fn least_deep(alloc: Global, root: &Group) -> Result<Option<Uuid>, NoMemory>
    ensures { IfOk result (λ least. least
        ≡ spec.least_id (spec.groups_below 128 (tree_seen root.now))) }
{
    let mut ids = Vec::new(alloc);
    push_deep_ids(&mut ids, root, LEVELS)?;
    Ok(least_of(ids.as_slice()))
}

/// Refuses a tree in which two nodes have one id, and then one with too many levels.
pub(crate) fn refusal_of(alloc: Global, root: &Group) -> Result<(), TreeFail>
    ensures { spec.Returns (λ u. u) result (spec.sound_tree (tree_seen root.now)) }
{
    let ids = ids_of(alloc, root)?;
    if let Some(id) = ids.duplicate {
        return Err(TreeFail::DuplicateId(id));
    }
    if let Some(id) = least_deep(alloc, root)? {
        return Err(TreeFail::TooDeep(id));
    }
    Ok(())
}
