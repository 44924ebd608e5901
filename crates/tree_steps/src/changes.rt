//! A group anywhere in a tree, changed in place.

ghost use Rattle.std.specs.Prelude.{◌≡◌, MatchOption, false};
ghost use Rattle.vault_model.specs.SeenNodes.{tree_seen};
ghost use Rattle.vault_model.specs.Tree.{Tree};
ghost use Rattle.tree_core.specs.Changes.{has_group};
ghost use Rattle.tree_steps.specs.ChangedAt.{ChangedAt};

use crate::searches::{is_same, way_to};
use uuid_core::Uuid;
use vault_model::Group;

/// What is done to one group.
pub trait Change: Drop {
    /// What is handed back.
    type Out: Drop;

    /// What the group is afterwards, by what is handed back and what it was.
    ghost makes: { Self → Self.Out → Tree → Tree → Type 0 };

    /// Does it.
    fn make(self, group: &mut Group) -> Self::Out
        ensures { makes self result (tree_seen group.old) (tree_seen group.new) };
}

/// Does something to the first group of this id in document order, where there is one.
pub fn change_at<C: Change>(group: &mut Group, id: Uuid, change: C) -> Option<C::Out>
    ensures none { MatchOption result
        ((has_group id (tree_seen group.old) ≡ false) × (tree_seen group.new ≡ tree_seen group.old))
        (λ out. ChangedAt id (C.makes change out) (tree_seen group.old) (tree_seen group.new)) }
{
    if is_same(group.id, id) {
        return Some(change.make(group));
    }
    let at = way_to(group, id)?;
    change_at(group.groups.get_mut(at)?, id, change)
}
