//! Levels of a tree, counted down from the last that there may be.

ghost use Rattle.std.specs.Prelude.{◌≡◌, ◌+◌, ◌<◌, MatchOption, nat_le};
ghost use Rattle.vault_model.specs.SeenNodes.{tree_seen};
ghost use Rattle.vault_model.specs.Tree.{height};
ghost use Rattle.tree_core.specs.Changes.{level_of};

use tree_steps::{has_group, is_same};
use uuid_core::Uuid;
use vault_model::Group;

/// The most levels of groups.
pub const LEVELS: usize = 128;

/// The levels that there are below the group of this id, of so many in all; none where the group
/// itself is below the last.
pub fn levels_below(group: &Group, id: Uuid, levels: usize) -> Option<usize>
    ensures { MatchOption result (levels < level_of id (tree_seen group.now))
        (λ below. below + level_of id (tree_seen group.now) ≡ levels) }
{
    if levels == 0 {
        return None;
    }
    let below = levels - 1;
    if is_same(group.id, id) {
        return Some(below);
    }
    for child in group.groups.as_slice() {
        if has_group(child, id) {
            return levels_below(child, id, below);
        }
    }
    Some(below)
}

/// Reports whether a group and those below it are on so many levels at most.
pub fn fits(group: &Group, levels: usize) -> bool
    ensures { result ≡ nat_le (height (tree_seen group.now)) levels }
{
    if levels == 0 {
        return false;
    }
    for child in group.groups.as_slice() {
        if !fits(child, levels - 1) {
            return false;
        }
    }
    true
}
