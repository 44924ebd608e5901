//! Nodes deleted.

ghost use Rattle.std.specs.Prelude.{◌≡◌, ◌∷◌, [], IfSome, IsSome, MatchResult, Ok};
ghost use Rattle.vault_model.specs.SeenDoc.{doc_seen};
ghost use Rattle.vault_model.specs.SeenNodes.{tree_seen};
ghost use Rattle.tree_core.specs.After.{entry_deleted};
ghost use Rattle.tree_core.specs.Changes.{changed_at, entries_buried, entry_at, without_entry};
ghost use Rattle.tree_removals.specs.Removes.{Removes};

use crate::tombs::{later, put_tomb};
use outside_core::{List, NoMemory};
use tree_core::{Removed, TreeFail};
use tree_moves::take_entry;
use tree_steps::entry_of;
use uuid_core::Uuid;
use vault_model::{Doc, Group, Stamp, Tombstone, entry_stamp};

// Takes the entry of this id out of the group of another, and puts its tombstone among the others. A
// refusal changes nothing.
fn bury_entry(
    root: &mut Group,
    tombs: &mut List<Tombstone>,
    group: Uuid,
    id: Uuid,
    now: Stamp,
) -> Result<(), NoMemory>
    requires { IsSome (entry_at group id (tree_seen root.old)) }
    ensures { MatchResult result (λ _. IfSome (entry_at group id (tree_seen root.old))
        (λ e. (tree_seen root.new ≡ changed_at group (without_entry e.0) (tree_seen root.old))
        × (tombs.new ≡ entries_buried now (e ∷ []) tombs.old)))
        (λ _. (tree_seen root.new ≡ tree_seen root.old) × (tombs.new ≡ tombs.old)) }
{
    let Some(entry) = entry_of(root, group, id) else {
        return Err(NoMemory);
    };
    let tomb = Tombstone {
        id: entry.id,
        deleted: later(now, entry_stamp(entry)),
    };
    put_tomb(tombs, tomb)?;
    drop(take_entry(root, group, id));
    Ok(())
}

/// Deletes the entry of this id in the group of another.
pub(crate) fn delete_entry(
    doc: &mut Doc,
    group: Uuid,
    id: Uuid,
    now: Stamp,
) -> Result<Removed, TreeFail>
    requires { IsSome (entry_at group id (doc_seen doc.old).tree) }
    ensures { IfSome (entry_at group id (doc_seen doc.old).tree)
        (λ e. Removes (Ok (entry_deleted (record { group = group; entry = e }) now
        (doc_seen doc.old))) result (doc_seen doc.old) (doc_seen doc.new)) }
{
    match bury_entry(&mut doc.root, &mut doc.tombs, group, id, now) {
        Ok(()) => Ok(Removed::Deleted),
        Err(_) => Err(TreeFail::NoMemory),
    }
}
