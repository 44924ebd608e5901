//! Entries with their versions, groups, and tombstones.

ghost use Rattle.std.specs.Prelude.{◌≡◌};
ghost use Rattle.vault_model.specs.SeenNodes.{entry_record, entry_time};

use crate::contents::{Content, GroupContent, Stats};
use secret_core::outside_core::List;
use time_core::Stamp;
use uuid_core::Uuid;

/// What a group is at one moment: when it was changed, what it says, and how it was used.
#[derive(Drop)]
pub struct GroupState {
    pub modified: Stamp,
    pub content: GroupContent,
    pub stats: Stats,
}

/// How a group was last looked at.
#[derive(Clone, Copy)]
pub struct GroupView {
    pub expanded: bool,
    pub top_entry: Uuid,
}

/// A deleted node's id, and when it was deleted.
#[derive(Clone, Copy)]
pub struct Tombstone {
    pub id: Uuid,
    pub deleted: Stamp,
}

/// A version of an entry: when it was made, what it says, and how it was used.
#[derive(Drop)]
pub struct Version {
    pub modified: Stamp,
    pub content: Content,
    pub stats: Stats,
}

/// An entry: since when it is in its group, its current version, and those before it. `previous`, the
/// group that it was in before, is nil where none is known, and need not name a group.
#[derive(Drop)]
pub struct Entry {
    pub id: Uuid,
    pub placed: Stamp,
    pub previous: Uuid,
    pub current: Version,
    pub history: List<Version>,
}

/// A group with its entries and its groups, in their order; `placed` and `previous` are as those of
/// an entry.
#[derive(Drop)]
pub struct Group {
    pub id: Uuid,
    pub placed: Stamp,
    pub previous: Uuid,
    pub state: GroupState,
    pub view: GroupView,
    pub entries: List<Entry>,
    pub groups: List<Group>,
}

/// When an entry was last modified: the greatest modification time of its versions, the current one
/// and those before it.
pub fn entry_stamp(entry: &Entry) -> Stamp
    ensures { result ≡ entry_time (entry_record entry.now) }
{
    let mut newest = entry.current.modified;
    for version in entry.history.as_slice() {
        newest = newest.max(version.modified);
    }
    newest
}
