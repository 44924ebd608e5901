//! Entries taken out of groups, and put into places that were kept for them.

ghost use Rattle.std.specs.Prelude.{◌≡◌, MatchOption, None, Some, map, position};
ghost use Rattle.vault_model.specs.Join.{is_id};
ghost use Rattle.vault_model.specs.SeenNodes.{entry_row, tree_seen};
ghost use Rattle.tree_core.specs.Changes.{changed_at, entry_at, on_entries, without_entry};
ghost use Rattle.tree_moves.specs.Places.{entries_filled};

use outside_core::List;
use std::mem;
use tree_steps::{Change, change_at, is_same};
use uuid_core::Uuid;
use vault_model::{Entry, Group};

// The place of the first entry of this id.
fn place_in(entries: &[Entry], id: Uuid) -> Option<usize>
    ensures { result ≡ position (λ e. is_id e.id id) entries.now }
{
    entries.iter().position(|entry| is_same(entry.id, id))
}

// The entry of this id is taken out of a group's own entries.
#[derive(Drop)]
struct TakeEntry {
    id: Uuid,
}

impl Change for TakeEntry {
    ghost use Rattle.std.specs.Prelude.{◌≡◌, MatchOption, None, Some};
    ghost use Rattle.vault_model.specs.SeenNodes.{entry_row};
    ghost use Rattle.tree_core.specs.Changes.{own_entry, without_entry};

    type Out = Option<Entry>;

    ghost makes = { λ take out old new. MatchOption out ((own_entry take.id old ≡ None) × (new ≡ old))
        (λ e. (own_entry take.id old ≡ Some (entry_row e)) × (new ≡ without_entry take.id old)) };

    fn make(self, group: &mut Group) -> Option<Entry> {
        let at = place_in(group.entries.as_slice(), self.id)?;
        Some(group.entries.remove(at))
    }
}

/// Takes the entry of this id out of the group of another.
pub fn take_entry(root: &mut Group, group: Uuid, id: Uuid) -> Option<Entry>
    ensures { MatchOption result ((entry_at group id (tree_seen root.old) ≡ None)
        × (tree_seen root.new ≡ tree_seen root.old))
        (λ e. (entry_at group id (tree_seen root.old) ≡ Some (entry_row e))
        × (tree_seen root.new ≡ changed_at group (without_entry id) (tree_seen root.old))) }
{
    change_at(root, group, TakeEntry { id })?
}

// Exchanges the first entry without an id, which keeps a place, for another.
fn fill_place(entries: &mut List<Entry>, entry: &mut Entry)
    ensures { map entry_row entries.new
        ≡ entries_filled (entry_row entry.old) (map entry_row entries.old) }
{
    match place_in(entries.as_slice(), Uuid::nil()) {
        Some(at) => {
            if let Some(place) = entries.get_mut(at) {
                mem::swap(place, entry);
            }
        }
        None => {}
    }
}

// An entry is put into the place of a group's own entry without an id.
#[derive(Drop)]
struct FillEntry {
    entry: Entry,
}

impl Change for FillEntry {
    ghost use Rattle.std.specs.Prelude.{◌≡◌};
    ghost use Rattle.vault_model.specs.SeenNodes.{entry_row};
    ghost use Rattle.tree_core.specs.Changes.{on_entries};
    ghost use Rattle.tree_moves.specs.Places.{entries_filled};

    type Out = ();

    ghost makes = { λ fill out old new.
        new ≡ on_entries (entries_filled (entry_row fill.entry)) old };

    fn make(mut self, group: &mut Group) {
        fill_place(&mut group.entries, &mut self.entry);
        drop(self);
    }
}

/// Puts an entry into the place that is kept for it in the group of this id.
pub(crate) fn fill_entry(root: &mut Group, group: Uuid, entry: Entry)
    ensures { tree_seen root.new
        ≡ changed_at group (on_entries (entries_filled (entry_row entry))) (tree_seen root.old) }
{
    change_at(root, group, FillEntry { entry });
}
