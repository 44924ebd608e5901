//! Entries moved from group to group.

ghost use Rattle.std.specs.Prelude.{◌≡◌, ◌≢◌, IfSome, IsSome, MatchResult, true};
ghost use Rattle.vault_model.specs.Db.{nil_id};
ghost use Rattle.vault_model.specs.SeenDoc.{doc_seen};
ghost use Rattle.vault_model.specs.SeenNodes.{tree_seen};
ghost use Rattle.vault_model.specs.Tree.{is_elsewhere};
ghost use Rattle.tree_core.specs.After.{Changes, after_move_entry};
ghost use Rattle.tree_core.specs.Changes.{entry_at, entry_moved, has_group};
ghost use Rattle.tree_moves.specs.Places.{entry_placed};

use crate::entries::{fill_entry, take_entry};
use outside_core::{List, NoMemory, Text};
use std::alloc::Global;
use tree_core::{TreeFail, find_entry, find_group};
use tree_steps::{entry_of, holder, is_same, put_entry, time_after};
use uuid_core::Uuid;
use vault_model::{AutoType, Content, Doc, Entry, Group, Stamp, Stats, Version};

// What a version says that says nothing.
fn no_content(alloc: Global) -> Content {
    let never = Stamp::of(0).unwrap();
    Content {
        created: never,
        expiry: never,
        expires: false,
        icon: 0,
        custom_icon: None,
        fields: List::new(alloc),
        attachments: List::new(alloc),
        tags: Text::new(alloc),
        fore: Text::new(alloc),
        back: Text::new(alloc),
        url_override: Text::new(alloc),
        auto_type: AutoType {
            enabled: false,
            obfuscation: 0,
            sequence: Text::new(alloc),
            pairs: List::new(alloc),
        },
        items: List::new(alloc),
        quality: true,
    }
}

/// An entry without an id, which keeps a place for another. Takes no memory.
pub fn no_entry(alloc: Global) -> Entry
    ensures { result.id ≡ nil_id }
{
    let never = Stamp::of(0).unwrap();
    Entry {
        id: Uuid::nil(),
        placed: never,
        previous: Uuid::nil(),
        current: Version {
            modified: never,
            content: no_content(alloc),
            stats: Stats {
                accessed: never,
                usage: 0,
            },
        },
        history: List::new(alloc),
    }
}

/// Moves an entry from one group to the place that is kept for it in another. Takes no memory.
pub fn move_to_place(root: &mut Group, from: Uuid, to: Uuid, id: Uuid, time: Stamp)
    requires there { IsSome (entry_at from id (tree_seen root.old)) }
    ensures { IfSome (entry_at from id (tree_seen root.old))
        (λ e. tree_seen root.new ≡ entry_placed from to time e (tree_seen root.old)) }
{
    if let Some(mut entry) = take_entry(root, from, id) {
        entry.placed = time;
        entry.previous = from;
        fill_entry(root, to, entry);
    }
}

/// Moves an entry from one group to the end of another's entries: a place is made for it first, which
/// is all that takes memory. A refusal changes nothing.
pub fn move_in(
    alloc: Global,
    root: &mut Group,
    from: Uuid,
    to: Uuid,
    id: Uuid,
    time: Stamp,
) -> Result<(), NoMemory>
    requires other { from ≢ to }
    requires there { IsSome (entry_at from id (tree_seen root.old)) }
    requires goal { has_group to (tree_seen root.old) ≡ true }
    requires no_nil { is_elsewhere (tree_seen root.old) nil_id ≡ true }
    ensures { MatchResult result (λ _. IfSome (entry_at from id (tree_seen root.old))
        (λ e. tree_seen root.new ≡ entry_moved from to time e (tree_seen root.old)))
        (λ _. tree_seen root.new ≡ tree_seen root.old) }
{
    match put_entry(root, to, no_entry(alloc)) {
        Some(Ok(())) => {
            move_to_place(root, from, to, id, time);
            Ok(())
        }
        _ => Err(NoMemory),
    }
}

/// Moves the entry that a path names to the end of the entries of the group that another path names.
/// It is there since now, or a second after the time since when it was in its old group if that is
/// later, and its old group is its previous parent. A refusal changes nothing.
pub fn move_entry(
    alloc: Global,
    doc: &mut Doc,
    path: &str,
    group: &str,
    now: Stamp,
) -> Result<(), TreeFail>
    ensures { Changes (after_move_entry path.now group.now now (doc_seen doc.old)) result
        (doc_seen doc.old) (doc_seen doc.new) }
{
    let Some(id) = find_entry(doc, path) else {
        return Err(TreeFail::NoSuchPath);
    };
    let Some(from) = holder(&doc.root, id) else {
        return Err(TreeFail::NoSuchPath);
    };
    let Some(entry) = entry_of(&doc.root, from, id) else {
        return Err(TreeFail::NoSuchPath);
    };
    let Some(to) = find_group(doc, group) else {
        return Err(TreeFail::NoSuchPath);
    };
    if is_same(from, to) {
        return Err(TreeFail::AlreadyThere);
    }
    let time = time_after(now, entry.placed)?;
    match move_in(alloc, &mut doc.root, from, to, id, time) {
        Ok(()) => Ok(()),
        Err(_) => Err(TreeFail::NoMemory),
    }
}
