//! Nodes that have the id of some document's root.
ghost use Rattle.std.specs.Prelude.{◌≡◌, ◌∷◌, None, IfOk, OnOk, map};
ghost use Rattle.std.specs.FinMap.{empty};
ghost use Rattle.std.specs.List.{list_any};
ghost use Rattle.vault_model.specs.Db.{NodeId};
ghost use Rattle.vault_model.specs.Join.{is_id};
ghost use Rattle.vault_model.specs.SeenDoc.{doc_seen};
ghost use Rattle.vault_model.specs.SeenNodes.{tree_seen};
ghost use Rattle.vault_model.specs.Tree.{id_of};
ghost use Rattle.merge_core.specs.Marking.{is_marked};
ghost use Rattle.merge_core.specs.Refusals.{least, lesser, root_clashes};
ghost use Rattle.merge_checks.specs.Clashes.{clash_below, clash_in_docs, least_with};

use merge_tables::tables::Table;
use outside_core::NoMemory;
use std::alloc::Global;
use uuid_core::Uuid;
use vault_model::{Doc, Group};

/// The lesser of two ids.
fn lesser(first: Uuid, second: Uuid) -> Uuid
    ensures { result ≡ lesser first second }
{
    if second.cmp(&first).is_lt() {
        second
    } else {
        first
    }
}

/// The least so far, and an id where it is a root's.
fn least_with(roots: &Table<bool>, so_far: Option<Uuid>, id: Uuid) -> Option<Uuid>
    ensures { result ≡ least_with (is_marked roots.now) so_far id }
{
    if roots.get(&id).is_none() {
        return so_far;
    }
    match so_far {
        None => Some(id),
        Some(other) => Some(lesser(other, id)),
    }
}

/// The least so far, and each node below a group that has a root's id.
fn clash_below(roots: &Table<bool>, group: &Group, so_far: Option<Uuid>) -> Option<Uuid>
    ensures { result ≡ clash_below (is_marked roots.now) (tree_seen group.now) so_far }
{
    let mut found = so_far;
    for entry in group.entries.as_slice() {
        found = least_with(roots, found, entry.id);
    }
    for child in group.groups.as_slice() {
        let with_child = least_with(roots, found, child.id);
        found = clash_below(roots, child, with_child);
    }
    found
}

/// Puts the ids of the roots where none are. A refusal means that memory ran out.
fn put_roots(roots: &mut Table<bool>, target: &Doc, sources: &[Doc]) -> Result<(), NoMemory>
    requires { roots.old ≡ empty }
    ensures { OnOk result ((u : NodeId) → is_marked roots.new u
        ≡ list_any (λ d. is_id u (id_of d.tree)) (doc_seen target.now ∷ map doc_seen sources.now)) }
{
    roots.put(target.root.id, true)?;
    for source in sources {
        roots.put(source.root.id, true)?;
    }
    Ok(())
}

/// The ids of the roots.
fn root_ids(alloc: Global, target: &Doc, sources: &[Doc]) -> Result<Table<bool>, NoMemory>
    ensures { IfOk result (λ t. (u : NodeId) → is_marked t u
        ≡ list_any (λ d. is_id u (id_of d.tree)) (doc_seen target.now ∷ map doc_seen sources.now)) }
{
    let mut roots = Table::new(alloc);
    match put_roots(&mut roots, target, sources) {
        Ok(()) => Ok(roots),
        Err(failed) => {
            drop(roots);
            Err(failed)
        }
    }
}

/// The least node of some documents that has a root's id, and is not the root of its own.
fn clash_in_docs(roots: &Table<bool>, target: &Doc, sources: &[Doc]) -> Option<Uuid>
    ensures { result ≡ clash_in_docs (is_marked roots.now)
        (doc_seen target.now ∷ map doc_seen sources.now) None }
{
    let mut found = clash_below(roots, &target.root, None);
    for source in sources {
        found = clash_below(roots, &source.root, found);
    }
    found
}

/// The least node that has the id of some document's root, and is not the root of its own.
pub fn root_clash(alloc: Global, target: &Doc, sources: &[Doc]) -> Result<Option<Uuid>, NoMemory>
    ensures { IfOk result (λ o. o
        ≡ least (root_clashes (doc_seen target.now ∷ map doc_seen sources.now))) }
{
    let roots = root_ids(alloc, target, sources)?;
    Ok(clash_in_docs(&roots, target, sources))
}
