//! Groups deleted.

ghost use Rattle.std.specs.Prelude.{◌≡◌, IfSome, IsSome, MatchResult, Ok, Some, true};
ghost use Rattle.vault_model.specs.SeenDoc.{doc_seen};
ghost use Rattle.vault_model.specs.SeenNodes.{tree_seen};
ghost use Rattle.vault_model.specs.Tree.{id_of};
ghost use Rattle.tree_core.specs.After.{group_deleted};
ghost use Rattle.tree_core.specs.Changes.{changed_at, group_with, parent_of, tree_buried, without_group};
ghost use Rattle.tree_moves.specs.GroupPlaces.{group_at};
ghost use Rattle.tree_removals.specs.Removes.{Removes};
ghost use Rattle.tree_removals.specs.Tombs.{ids_rise};

use crate::burying::tombs_with;
use outside_core::{List, NoMemory};
use std::alloc::Global;
use tree_core::{Removed, TreeFail};
use tree_moves::take_group;
use tree_steps::group_of;
use uuid_core::Uuid;
use vault_model::{Doc, Group, Stamp, Tombstone};

// Takes the group of this id out of the group that holds it, and puts the tombstones of all its
// nodes among the others, which are made first. A refusal changes nothing.
fn bury_group(
    alloc: Global,
    root: &mut Group,
    tombs: &mut List<Tombstone>,
    parent: Uuid,
    id: Uuid,
    now: Stamp,
) -> Result<(), NoMemory>
    requires held { IfSome (group_with id (tree_seen root.old))
        (λ g. group_at parent id (tree_seen root.old) ≡ Some g) }
    requires there { IsSome (group_with id (tree_seen root.old)) }
    requires rising { IfSome (group_with id (tree_seen root.old))
        (λ g. ids_rise (tree_buried now g tombs.old) ≡ true) }
    ensures { MatchResult result (λ _. IfSome (group_with id (tree_seen root.old))
        (λ g. (tree_seen root.new
        ≡ changed_at parent (without_group (id_of g)) (tree_seen root.old))
        × (tombs.new ≡ tree_buried now g tombs.old)))
        (λ _. (tree_seen root.new ≡ tree_seen root.old) × (tombs.new ≡ tombs.old)) }
{
    let Some(group) = group_of(root, id) else {
        return Err(NoMemory);
    };
    let all = tombs_with(alloc, tombs.as_slice(), group, now)?;
    drop(take_group(root, parent, id));
    *tombs = all;
    Ok(())
}

/// Deletes the group of this id, which another holds, and all nodes below it.
pub(crate) fn delete_group(
    alloc: Global,
    doc: &mut Doc,
    parent: Uuid,
    id: Uuid,
    now: Stamp,
) -> Result<Removed, TreeFail>
    requires parent { parent_of id (doc_seen doc.old).tree ≡ Some parent }
    requires there { IsSome (group_with id (doc_seen doc.old).tree) }
    ensures { IfSome (group_with id (doc_seen doc.old).tree)
        (λ g. Removes (Ok (group_deleted g now (doc_seen doc.old))) result (doc_seen doc.old)
        (doc_seen doc.new)) }
{
    match bury_group(alloc, &mut doc.root, &mut doc.tombs, parent, id, now) {
        Ok(()) => Ok(Removed::Deleted),
        Err(_) => Err(TreeFail::NoMemory),
    }
}
