//! Which nodes stay, and where each is, all members looked at together.
ghost use Rattle.std.specs.Prelude.{◌≡◌, ◌<◌, [], length, IfOk, OnOk, ◌++◌};
ghost use Rattle.std.specs.FinMap as table;
ghost use Rattle.std.specs.List.{list_any};
ghost use Rattle.vault_model.specs.Db.{holds, stamp_in, place_cmp};
ghost use Rattle.vault_model.specs.Join.{is_id, latest, above, path, stamp, is_from, is_held, buried, own, ids, trail};
ghost use Rattle.vault_model.specs.Unite.{gather, greater, join_options};
ghost use Rattle.merge_tables.specs.Databases.{database, databases};
ghost use Rattle.merge_parts.specs.KnownIds.{known_ids};

use merge_tables::databases::Database;
use merge_tables::ids::{is_same, push_both};
use merge_tables::placements::{Placement, later_placement};
use outside_core::NoMemory;
use std::alloc::Global;
use uuid_core::Uuid;

/// Whether a database holds a node.
fn holds(member: &Database, id: &Uuid) -> bool
    ensures { result ≡ holds (database member.now) id.now }
{
    member.entries.get(id).is_some() || member.groups.get(id).is_some()
}

/// The greatest modification time that a database has of a node, in seconds.
#[tactic(auto, unfolding(vault_model::specs::Db::stamp_in))]
fn stamp_in(member: &Database, id: &Uuid) -> u64
    ensures { result ≡ stamp_in (database member.now) id.now }
{
    let entry = match member.entries.get(id) {
        Some(versions) => versions.newest(),
        None => 0,
    };
    let group = match member.groups.get(id) {
        Some(state) => state.modified().seconds(),
        None => 0,
    };
    entry.max(group)
}

/// The greatest place of a node among the members that hold it.
pub fn latest(members: &[Database], id: &Uuid) -> Option<Placement>
    ensures { result ≡ latest (databases members.now) id.now }
{
    let mut best = None;
    for member in members {
        best = later_placement(member.places.get(id).copied(), best);
    }
    best
}

/// The latest parent of a node; the root has no place, and stays.
pub fn above(members: &[Database], id: &Uuid) -> Uuid
    ensures { result ≡ above (databases members.now) id.now }
{
    match latest(members, id) {
        Some(place) => place.parent,
        None => *id,
    }
}

/// The greatest modification time of a node over the members and all their versions, in seconds.
pub fn stamp(members: &[Database], id: &Uuid) -> u64
    ensures { result ≡ stamp (databases members.now) id.now }
{
    let mut greatest = 0;
    for member in members {
        greatest = stamp_in(member, id).max(greatest);
    }
    greatest
}

/// Whether some member holds the node.
fn is_held(members: &[Database], id: &Uuid) -> bool
    ensures { result ≡ is_held (databases members.now) id.now }
{
    for member in members {
        if holds(member, id) {
            return true;
        }
    }
    false
}

/// Whether a database has a tombstone of the node at or after a time.
fn is_deleted_from(member: &Database, id: &Uuid, time: u64) -> bool
    ensures { result ≡ is_from time (table.get member.now.tombs id.now) }
{
    match member.tombs.get(id) {
        Some(deleted) => deleted.seconds() >= time,
        None => false,
    }
}

/// Whether some member has a tombstone of the node at or after its stamp.
fn is_buried(members: &[Database], id: &Uuid) -> bool
    ensures { result ≡ buried (databases members.now) id.now }
{
    let time = stamp(members, id);
    for member in members {
        if is_deleted_from(member, id, time) {
            return true;
        }
    }
    false
}

/// Whether a node is own: it is the root, or a member holds it and none has a tombstone of it at or
/// after its stamp.
#[tactic(auto, unfolding(vault_model::specs::Join::own))]
pub fn is_own(members: &[Database], id: &Uuid) -> bool
    requires { 0 < length members.now }
    ensures { result ≡ own (databases members.now) id.now }
{
    is_same(id, &members[0].root) || is_held(members, id) && !is_buried(members, id)
}

/// Puts all ids that a member holds where none are. A refusal means that memory ran out.
fn push_held(held: &mut Vec<Uuid>, members: &[Database]) -> Result<(), NoMemory>
    requires { held.old.items ≡ [] }
    ensures { OnOk result (held.new.items ≡ ids (databases members.now)) }
{
    for member in members {
        push_both(held, &member.entries, &member.groups)?;
    }
    Ok(())
}

/// All ids that a member holds, those of entries before those of groups, member by member.
pub fn all_ids(alloc: Global, members: &[Database]) -> Result<Vec<Uuid>, NoMemory>
    ensures { IfOk result (λ us. us.items ≡ ids (databases members.now)) }
{
    let mut held = Vec::new(alloc);
    match push_held(&mut held, members) {
        Ok(()) => Ok(held),
        Err(fail) => {
            drop(held);
            Err(fail)
        }
    }
}

/// Puts all ids that a member knows of where none are. A refusal means that memory ran out.
fn push_known(known: &mut Vec<Uuid>, members: &[Database]) -> Result<(), NoMemory>
    requires { known.old.items ≡ [] }
    ensures { OnOk result (known.new.items ≡ known_ids (databases members.now)) }
{
    for member in members {
        push_both(known, &member.entries, &member.groups)?;
        push_both(known, &member.places, &member.tombs)?;
    }
    Ok(())
}

/// All ids that a member knows of, those of nodes, of places and of tombstones.
pub fn known_ids(alloc: Global, members: &[Database]) -> Result<Vec<Uuid>, NoMemory>
    ensures { IfOk result (λ us. us.items ≡ known_ids (databases members.now)) }
{
    let mut known = Vec::new(alloc);
    match push_known(&mut known, members) {
        Ok(()) => Ok(known),
        Err(fail) => {
            drop(known);
            Err(fail)
        }
    }
}

/// Whether a node is among another one and those that so many steps up lead to.
pub fn is_on_trail(members: &[Database], steps: usize, from: Uuid, id: &Uuid) -> bool
    ensures { result ≡ list_any (is_id id.now) (trail (databases members.now) steps from) }
{
    let mut left = steps;
    let mut at = from;
    while left > 0 {
        if is_same(id, &at) {
            return true;
        }
        at = above(members, &at);
        left -= 1;
    }
    is_same(id, &at)
}
