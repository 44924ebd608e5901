//! Groups put into groups.

ghost use Rattle.std.specs.Prelude.{◌≡◌, MatchOption, MatchResult, false};
ghost use Rattle.vault_model.specs.SeenNodes.{tree_seen};
ghost use Rattle.tree_core.specs.Changes.{changed_at, has_group, with_group};

use outside_core::NoMemory;
use tree_steps::{Change, change_at, put_last};
use uuid_core::Uuid;
use vault_model::Group;

// A group is put after the others of a group.
#[derive(Drop)]
struct PutGroup {
    group: Group,
}

impl Change for PutGroup {
    ghost use Rattle.std.specs.Prelude.{◌≡◌, MatchResult};
    ghost use Rattle.vault_model.specs.SeenNodes.{tree_seen};
    ghost use Rattle.tree_core.specs.Changes.{with_group};

    type Out = Result<(), NoMemory>;

    ghost makes = { λ put out old new. MatchResult out
        (λ _. new ≡ with_group (tree_seen put.group) old) (λ _. new ≡ old) };

    fn make(self, group: &mut Group) -> Result<(), NoMemory> {
        put_last(&mut group.groups, self.group)
    }
}

/// Puts a group after the others in the group of this id, where there is one. A refusal means that
/// memory ran out, and changes nothing.
pub fn put_group(root: &mut Group, into: Uuid, group: Group) -> Option<Result<(), NoMemory>>
    ensures { MatchOption result
        ((has_group into (tree_seen root.old) ≡ false) × (tree_seen root.new ≡ tree_seen root.old))
        (λ out. MatchResult out
        (λ _. tree_seen root.new
        ≡ changed_at into (with_group (tree_seen group)) (tree_seen root.old))
        (λ _. tree_seen root.new ≡ tree_seen root.old)) }
{
    change_at(root, into, PutGroup { group })
}
