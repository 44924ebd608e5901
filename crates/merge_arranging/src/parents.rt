//! Which nodes are in each group.
ghost use Rattle.std.specs.Prelude.{◌≡◌, ◌++◌, [], ◌∷◌, cond, IfOk, OnOk};
ghost use Rattle.std.specs.FinMap.{empty, get};
ghost use Rattle.std.specs.List.{filter};
ghost use Rattle.vault_model.specs.Db.{NodeId};
ghost use Rattle.vault_model.specs.Join.{is_id};
ghost use Rattle.vault_model.specs.Shape.{stands_in};
ghost use Rattle.merge_arranging.specs.Parents.{ids_under};

use crate::id_lists::IdList;
use merge_tables::placements::Placement;
use merge_tables::tables::Table;
use outside_core::NoMemory;
use std::alloc::Global;
use uuid_core::Uuid;

/// The ids that are in a group, taken out of the table.
fn take_ids(alloc: Global, children: &mut Table<IdList>, parent: &Uuid) -> IdList
    ensures taken { result ≡ ids_under children.old parent.now }
    ensures others { (g : NodeId) → ids_under children.new g
        ≡ cond (is_id g parent.now) [] (ids_under children.old g) }
{
    match children.remove(parent) {
        Some(ids) => ids,
        None => IdList::new(alloc),
    }
}

/// Puts an id after those that are in a group. A refusal means that memory ran out.
fn put_under(
    alloc: Global,
    children: &mut Table<IdList>,
    parent: Uuid,
    id: Uuid,
) -> Result<(), NoMemory>
    ensures { OnOk result ((g : NodeId) → ids_under children.new g
        ≡ ids_under children.old g ++ cond (is_id g parent) (id ∷ []) []) }
{
    let mut ids = take_ids(alloc, children, &parent);
    match ids.push(id) {
        Ok(()) => {
            children.put(parent, ids)?;
            Ok(())
        }
        Err(fail) => {
            drop(ids);
            Err(fail)
        }
    }
}

/// Puts an id after those that are in the group of its place, if it has one. A refusal means that
/// memory ran out.
fn put_at(
    alloc: Global,
    children: &mut Table<IdList>,
    place: Option<Placement>,
    id: Uuid,
) -> Result<(), NoMemory>
    ensures { OnOk result ((g : NodeId) → ids_under children.new g
        ≡ ids_under children.old g ++ cond (stands_in g place) (id ∷ []) []) }
{
    match place {
        Some(place) => put_under(alloc, children, place.parent, id),
        None => Ok(()),
    }
}

/// Puts ids under the groups of their places, where none are. A refusal means that memory ran out.
fn put_all(
    alloc: Global,
    children: &mut Table<IdList>,
    ids: &[Uuid],
    places: &Table<Placement>,
) -> Result<(), NoMemory>
    requires { children.old ≡ empty }
    ensures { OnOk result ((g : NodeId) → ids_under children.new g
        ≡ filter (λ u. stands_in g (get places.now u)) ids.now) }
{
    for id in ids {
        put_at(alloc, children, places.get(id).copied(), *id)?;
    }
    Ok(())
}

/// The ids that are in each group, in their order.
pub fn by_parent(
    alloc: Global,
    ids: &[Uuid],
    places: &Table<Placement>,
) -> Result<Table<IdList>, NoMemory>
    ensures { IfOk result (λ t. (g : NodeId) → ids_under t g
        ≡ filter (λ u. stands_in g (get places.now u)) ids.now) }
{
    let mut children = Table::new(alloc);
    match put_all(alloc, &mut children, ids, places) {
        Ok(()) => Ok(children),
        Err(fail) => {
            drop(children);
            Err(fail)
        }
    }
}
