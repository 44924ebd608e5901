//! Tombstones in the order of their ids, of those that name no node.

ghost use Rattle.doc_forms.specs.Ids as spec;
ghost use Rattle.std.specs.BTreeSet.{contains};
ghost use Rattle.std.specs.List.{filter};
ghost use Rattle.std.specs.Option.{unwrap_or};
ghost use Rattle.std.specs.Prelude.{◌≡◌, ◌++◌, [], ◌∷◌, IfOk, OnOk, map, max, not};
ghost use Rattle.vault_model.specs.Db.{id_cmp};

use outside_core::{List, NoMemory};
use std::alloc::Global;
use std::collections::{BTreeMap, BTreeSet};
use uuid_core::Uuid;
use vault_model::{Stamp, Tombstone};

/// The later of a time and another, or the first where there is no other.
fn later(time: Stamp, other: Option<Stamp>) -> Stamp
    ensures { result ≡ max time (unwrap_or other 0) }
{
    match other {
        Some(other) => time.max(other),
        None => time,
    }
}

/// When each id of some tombstones was deleted last.
fn latest_of(alloc: Global, tombs: &[Tombstone]) -> Result<BTreeMap<Uuid, Stamp>, NoMemory>
    ensures { IfOk result (λ latest. map spec.tomb_of latest.entries ≡ spec.bury_all tombs.now) }
{
    let mut latest = BTreeMap::new(alloc);
    let mut at = tombs.len();
    while at > 0 {
        at -= 1;
        let tomb = tombs[at];
        let deleted = later(tomb.deleted, latest.get(&tomb.id).copied());
        if let Err(_full) = latest.insert(tomb.id, deleted) {
            drop(latest);
            return Err(NoMemory);
        }
    }
    Ok(latest)
}

/// Puts a tombstone after the others.
fn push(tombs: &mut List<Tombstone>, tomb: Tombstone) -> Result<(), NoMemory>
    ensures { OnOk result (tombs.new ≡ tombs.old ++ tomb ∷ []) }
{
    tombs.push(tomb).map_err(|_tomb| NoMemory)
}

/// Tombstones in the order of their ids, of two of one id that of the later time, without those of
/// these ids.
pub(crate) fn tombs_without(
    alloc: Global,
    ids: &BTreeSet<Uuid>,
    tombs: &[Tombstone],
) -> Result<List<Tombstone>, NoMemory>
    ensures { IfOk result (λ l. l ≡ filter (λ t. not (contains id_cmp ids.now t.id))
        (spec.bury_all tombs.now)) }
{
    let latest = latest_of(alloc, tombs)?;
    let mut others = List::new(alloc);
    for (id, deleted) in &latest {
        if !ids.contains(id) {
            let tomb = Tombstone {
                id: *id,
                deleted: *deleted,
            };
            if let Err(refusal) = push(&mut others, tomb) {
                drop(others);
                return Err(refusal);
            }
        }
    }
    Ok(others)
}
