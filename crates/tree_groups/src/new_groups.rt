//! New groups.

ghost use Rattle.std.specs.Prelude.{◌≡◌, [], IfOk};
ghost use Rattle.vault_model.specs.Empty as empty;
ghost use Rattle.vault_model.specs.SeenNodes.{tree_seen};
ghost use Rattle.vault_model.specs.Tree.{node, none};
ghost use Rattle.tree_core.specs.NewNodes.{empty_bin, empty_group};

use outside_core::{List, NoMemory, Text};
use std::alloc::Global;
use uuid_core::Uuid;
use vault_model::{Group, GroupContent, GroupState, GroupView, Stamp, Stats, Tri};

// What a new group of this name says of itself.
fn new_content(alloc: Global, name: &str, now: Stamp) -> Result<GroupContent, NoMemory>
    ensures { IfOk result (λ content. content ≡ (empty.new_group name.now now).state.content) }
{
    Ok(GroupContent {
        created: now,
        expiry: now,
        expires: false,
        name: Text::of(alloc, name)?,
        notes: Text::new(alloc),
        icon: 48,
        custom_icon: None,
        sequence: Text::new(alloc),
        auto_type: Tri::Inherit,
        searching: Tri::Inherit,
        items: List::new(alloc),
        tags: Text::new(alloc),
    })
}

// A new group that says this, with nothing in it.
fn group_saying(alloc: Global, id: Uuid, content: GroupContent, now: Stamp) -> Group
    ensures { tree_seen result ≡ node id (record (empty.new_group [] now) {
      state = record (empty.new_group [] now).state { content = content };
    }) [] none }
{
    Group {
        id,
        placed: now,
        previous: Uuid::nil(),
        state: GroupState {
            modified: now,
            content,
            stats: Stats {
                accessed: now,
                usage: 0,
            },
        },
        view: GroupView {
            expanded: true,
            top_entry: Uuid::nil(),
        },
        entries: List::new(alloc),
        groups: List::new(alloc),
    }
}

/// A new group of this name, with nothing in it, all of whose times are now.
pub fn new_group(alloc: Global, id: Uuid, name: &str, now: Stamp) -> Result<Group, NoMemory>
    ensures { IfOk result (λ group. tree_seen group ≡ empty_group id name.now now) }
{
    let content = new_content(alloc, name, now)?;
    Ok(group_saying(alloc, id, content, now))
}

/// A new bin, with nothing in it, all of whose times are now.
pub fn new_bin(alloc: Global, id: Uuid, now: Stamp) -> Result<Group, NoMemory>
    ensures { IfOk result (λ group. tree_seen group ≡ empty_bin id now) }
{
    let mut content = new_content(alloc, "Recycle Bin", now)?;
    content.icon = 43;
    content.auto_type = Tri::No;
    content.searching = Tri::No;
    Ok(group_saying(alloc, id, content, now))
}
