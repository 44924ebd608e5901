//! The ids of a tree's nodes, none of which two nodes may have.

ghost use Rattle.doc_forms.specs.Ids as spec;
ghost use Rattle.std.specs.BTreeSet.{contains};
ghost use Rattle.std.specs.List.{list_any};
ghost use Rattle.std.specs.Prelude.{◌≡◌, ◌++◌, IfOk, OnOk, map};
ghost use Rattle.vault_model.specs.Db.{NodeId, id_cmp};
ghost use Rattle.vault_model.specs.Join.{is_id};
ghost use Rattle.vault_model.specs.SeenNodes.{entry_row, tree_seen};
ghost use Rattle.vault_model.specs.Tree.{node_ids};

use outside_core::NoMemory;
use std::alloc::Global;
use std::collections::BTreeSet;
use uuid_core::Uuid;
use vault_model::{Entry, Group};

/// Adds the ids of some entries.
fn push_entry_ids(ids: &mut Vec<Uuid>, entries: &[Entry]) -> Result<(), NoMemory>
    ensures { OnOk result (ids.new.items ≡ ids.old.items
        ++ map (λ e. e.0) (map entry_row entries.now)) }
{
    for entry in entries {
        ids.push(entry.id)?;
    }
    Ok(())
}

/// Adds the ids of a group and of all below it, in the order of the document.
fn push_group_ids(ids: &mut Vec<Uuid>, group: &Group) -> Result<(), NoMemory>
    ensures { OnOk result (ids.new.items ≡ ids.old.items ++ node_ids (tree_seen group.now)) }
{
    ids.push(group.id)?;
    push_entry_ids(ids, group.entries.as_slice())?;
    for below in group.groups.as_slice() {
        push_group_ids(ids, below)?;
    }
    Ok(())
}

/// Of two ids the lesser, or the first where there is no second.
pub fn lesser(id: Uuid, other: Option<Uuid>) -> Uuid
    ensures { result ≡ spec.lesser_id id other }
{
    match other {
        Some(other) if id.cmp(&other).is_ge() => other,
        _ => id,
    }
}

/// A set of ids, and the least that was put into it twice.
#[derive(Drop)]
pub struct IdSet {
    pub ids: BTreeSet<Uuid>,
    pub duplicate: Option<Uuid>,
}

/// The set of some ids, which are put into it from the last to the first.
fn set_of(alloc: Global, ids: &[Uuid]) -> Result<IdSet, NoMemory>
    ensures duplicate { IfOk result (λ s. s.duplicate ≡ spec.least_duplicate ids.now) }
    ensures ids { IfOk result (λ s. (u : NodeId)
        → contains id_cmp s.ids u ≡ list_any (is_id u) ids.now) }
{
    let mut set = BTreeSet::new(alloc);
    let mut duplicate = None;
    let mut at = ids.len();
    while at > 0 {
        at -= 1;
        let id = ids[at];
        if !set.insert(id)? {
            duplicate = Some(lesser(id, duplicate));
        }
    }
    Ok(IdSet {
        ids: set,
        duplicate,
    })
}

/// The ids of all nodes of a tree, and the least that two of them have. The only refusal is that
/// memory ran out.
pub fn ids_of(alloc: Global, root: &Group) -> Result<IdSet, NoMemory>
    ensures duplicate { IfOk result (λ s. s.duplicate
        ≡ spec.least_duplicate (node_ids (tree_seen root.now))) }
    ensures ids { IfOk result (λ s. (u : NodeId)
        → contains id_cmp s.ids u ≡ list_any (is_id u) (node_ids (tree_seen root.now))) }
{
    let mut ids = Vec::new(alloc);
    match push_group_ids(&mut ids, root) {
        Ok(()) => set_of(alloc, ids.as_slice()),
        Err(refusal) => {
            drop(ids);
            Err(refusal)
        }
    }
}
