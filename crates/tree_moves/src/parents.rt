//! The groups that groups are in.

ghost use Rattle.std.specs.Prelude.{◌≡◌, is_some, map};
ghost use Rattle.vault_model.specs.SeenNodes.{tree_seen};
ghost use Rattle.vault_model.specs.Tree.{all_trees};
ghost use Rattle.tree_core.specs.Changes as spec;

use tree_steps::is_same;
use uuid_core::Uuid;
use vault_model::Group;

// Reports whether one of some groups has this id.
fn has_own_group(groups: &[Group], id: Uuid) -> bool
    ensures { result ≡ is_some (spec.own_group id (all_trees (map tree_seen groups.now))) }
{
    for group in groups {
        if is_same(group.id, id) {
            return true;
        }
    }
    false
}

/// The group that holds the group of this id: this one or one below it.
pub fn parent_of(group: &Group, id: Uuid) -> Option<Uuid>
    ensures { result ≡ spec.parent_of id (tree_seen group.now) }
{
    if has_own_group(group.groups.as_slice(), id) {
        return Some(group.id);
    }
    for child in group.groups.as_slice() {
        if let Some(found) = parent_of(child, id) {
            return Some(found);
        }
    }
    None
}
