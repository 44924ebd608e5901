//! Entries put into groups, and their versions changed.

ghost use Rattle.std.specs.Prelude.{◌≡◌, ◌++◌, ◌∷◌, [], MatchOption, MatchResult, OnErr, OnOk, false, map, position};
ghost use Rattle.vault_model.specs.Join.{is_id};
ghost use Rattle.vault_model.specs.SeenNodes.{bare_version, entry_row, tree_seen};
ghost use Rattle.tree_core.specs.Changes.{changed_at, changed_entry, has_group, with_changed, with_entry};

use crate::changes::{Change, change_at};
use crate::searches::is_same;
use outside_core::{List, NoMemory};
use std::mem;
use uuid_core::Uuid;
use vault_model::{Entry, Group, Version};

/// Puts an item after the others of a list. A refusal means that memory ran out, and changes nothing.
pub fn put_last<T: Drop>(list: &mut List<T>, item: T) -> Result<(), NoMemory>
    ensures ok { OnOk result (list.new ≡ list.old ++ item ∷ []) }
    ensures err { OnErr result (list.new ≡ list.old) }
{
    match list.push(item) {
        Ok(()) => Ok(()),
        Err(_) => Err(NoMemory),
    }
}

// An entry is put after the others of a group.
#[derive(Drop)]
struct PutEntry {
    entry: Entry,
}

impl Change for PutEntry {
    ghost use Rattle.std.specs.Prelude.{◌≡◌, MatchResult};
    ghost use Rattle.vault_model.specs.SeenNodes.{entry_row};
    ghost use Rattle.tree_core.specs.Changes.{with_entry};

    type Out = Result<(), NoMemory>;

    ghost makes = { λ put out old new. MatchResult out
        (λ _. new ≡ with_entry (entry_row put.entry) old) (λ _. new ≡ old) };

    fn make(self, group: &mut Group) -> Result<(), NoMemory> {
        put_last(&mut group.entries, self.entry)
    }
}

/// Puts an entry after the others of the group of this id, where there is one. A refusal means that
/// memory ran out, and changes nothing.
pub fn put_entry(root: &mut Group, group: Uuid, entry: Entry) -> Option<Result<(), NoMemory>>
    ensures { MatchOption result
        ((has_group group (tree_seen root.old) ≡ false) × (tree_seen root.new ≡ tree_seen root.old))
        (λ out. MatchResult out
        (λ _. tree_seen root.new
        ≡ changed_at group (with_entry (entry_row entry)) (tree_seen root.old))
        (λ _. tree_seen root.new ≡ tree_seen root.old)) }
{
    change_at(root, group, PutEntry { entry })
}

// The place of the first entry of this id.
fn place_in(entries: &[Entry], id: Uuid) -> Option<usize>
    ensures { result ≡ position (λ e. is_id e.id id) entries.now }
{
    entries.iter().position(|entry| is_same(entry.id, id))
}

// Exchanges the versions of an entry for others.
fn exchange(entry: &mut Entry, current: &mut Version, history: &mut List<Version>)
    ensures { entry.new ≡ record entry.old { current = current.old; history = history.old } }
{
    mem::swap(&mut entry.current, current);
    mem::swap(&mut entry.history, history);
}

// Exchanges the versions of the first entry of this id for others.
fn exchange_first(
    entries: &mut List<Entry>,
    id: Uuid,
    current: &mut Version,
    history: &mut List<Version>,
)
    ensures { map entry_row entries.new
        ≡ with_changed id (λ e. record e {
          current = bare_version current.old;
          history = map bare_version history.old;
        }) (map entry_row entries.old) }
{
    match place_in(entries.as_slice(), id) {
        Some(at) => {
            if let Some(entry) = entries.get_mut(at) {
                exchange(entry, current, history);
            }
        }
        None => {}
    }
}

// A group's own entry of this id gets other versions.
#[derive(Drop)]
struct SetVersions {
    id: Uuid,
    current: Version,
    history: List<Version>,
}

impl Change for SetVersions {
    ghost use Rattle.std.specs.Prelude.{◌≡◌, map};
    ghost use Rattle.vault_model.specs.SeenNodes.{bare_version};
    ghost use Rattle.tree_core.specs.Changes.{changed_entry};

    type Out = ();

    ghost makes = { λ set out old new. new ≡ changed_entry set.id (λ e. record e {
      current = bare_version set.current;
      history = map bare_version set.history;
    }) old };

    fn make(mut self, group: &mut Group) {
        exchange_first(
            &mut group.entries,
            self.id,
            &mut self.current,
            &mut self.history,
        );
        drop(self);
    }
}

/// Gives the entry of this id in the group of another other versions. Takes no memory.
pub fn set_versions(
    root: &mut Group,
    group: Uuid,
    id: Uuid,
    current: Version,
    history: List<Version>,
)
    ensures { tree_seen root.new ≡ changed_at group (changed_entry id (λ e. record e {
      current = bare_version current;
      history = map bare_version history;
    })) (tree_seen root.old) }
{
    change_at(
        root,
        group,
        SetVersions {
            id,
            current,
            history,
        },
    );
}
