//! Groups taken out of groups, and put into places that were kept for them.

ghost use Rattle.std.specs.Prelude.{◌≡◌, MatchOption, None, Some, map, position};
ghost use Rattle.vault_model.specs.Join.{is_id};
ghost use Rattle.vault_model.specs.SeenNodes.{tree_seen};
ghost use Rattle.vault_model.specs.Tree.{all_trees};
ghost use Rattle.vault_model.specs.declared.nodes.Group.{out-Group};
ghost use Rattle.tree_core.specs.Changes.{changed_at, on_groups, without_group};
ghost use Rattle.tree_moves.specs.GroupPlaces.{groups_filled, group_at};

use outside_core::List;
use std::mem;
use tree_steps::{Change, change_at, is_same};
use uuid_core::Uuid;
use vault_model::Group;

// The place of the first group of this id.
fn place_in(groups: &[Group], id: Uuid) -> Option<usize>
    ensures { result ≡ position (λ g. is_id (out-Group g).id id) groups.now }
{
    groups.iter().position(|group| is_same(group.id, id))
}

// The group of this id is taken out of a group's own groups.
#[derive(Drop)]
struct TakeGroup {
    id: Uuid,
}

impl Change for TakeGroup {
    ghost use Rattle.std.specs.Prelude.{◌≡◌, MatchOption, None, Some};
    ghost use Rattle.vault_model.specs.SeenNodes.{tree_seen};
    ghost use Rattle.tree_core.specs.Changes.{child_with, without_group};

    type Out = Option<Group>;

    ghost makes = { λ take out old new. MatchOption out
        ((child_with take.id old ≡ None) × (new ≡ old))
        (λ g. (child_with take.id old ≡ Some (tree_seen g))
        × (new ≡ without_group take.id old)) };

    fn make(self, group: &mut Group) -> Option<Group> {
        let at = place_in(group.groups.as_slice(), self.id)?;
        Some(group.groups.remove(at))
    }
}

/// Takes the group of this id out of the group of another.
pub fn take_group(root: &mut Group, parent: Uuid, id: Uuid) -> Option<Group>
    ensures { MatchOption result ((group_at parent id (tree_seen root.old) ≡ None)
        × (tree_seen root.new ≡ tree_seen root.old))
        (λ g. (group_at parent id (tree_seen root.old) ≡ Some (tree_seen g))
        × (tree_seen root.new ≡ changed_at parent (without_group id) (tree_seen root.old))) }
{
    change_at(root, parent, TakeGroup { id })?
}

// Exchanges the first group without an id, which keeps a place, for another.
fn fill_place(groups: &mut List<Group>, group: &mut Group)
    ensures { all_trees (map tree_seen groups.new)
        ≡ groups_filled (tree_seen group.old) (all_trees (map tree_seen groups.old)) }
{
    match place_in(groups.as_slice(), Uuid::nil()) {
        Some(at) => {
            if let Some(place) = groups.get_mut(at) {
                mem::swap(place, group);
            }
        }
        None => {}
    }
}

// A group is put into the place of a group's own group without an id.
#[derive(Drop)]
struct FillGroup {
    group: Group,
}

impl Change for FillGroup {
    ghost use Rattle.std.specs.Prelude.{◌≡◌};
    ghost use Rattle.vault_model.specs.SeenNodes.{tree_seen};
    ghost use Rattle.tree_core.specs.Changes.{on_groups};
    ghost use Rattle.tree_moves.specs.GroupPlaces.{groups_filled};

    type Out = ();

    ghost makes = { λ fill out old new.
        new ≡ on_groups (groups_filled (tree_seen fill.group)) old };

    fn make(mut self, group: &mut Group) {
        fill_place(&mut group.groups, &mut self.group);
        drop(self);
    }
}

/// Puts a group into the place that is kept for it in the group of this id.
pub fn fill_group(root: &mut Group, into: Uuid, group: Group)
    ensures { tree_seen root.new
        ≡ changed_at into (on_groups (groups_filled (tree_seen group))) (tree_seen root.old) }
{
    change_at(root, into, FillGroup { group });
}
