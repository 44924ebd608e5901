//! Branches of a draft, taken apart by the names that lead to its places.

ghost use Rattle.std.specs.Prelude.{◌≡◌, [], ◌∷◌, ◌++◌, IfOk, OnOk, map};
ghost use Rattle.std.specs.Option.{option_copied};
ghost use Rattle.import_tree.specs.Branches as spec;
ghost use Rattle.import_tree.specs.SeenBranches.{way_seen, ways_seen};
ghost use Rattle.import_tree.specs.SeenDrafts.{rows_seen};

use crate::drafts::ImportedPlace;
use outside_core::{NoMemory, Text};
use std::alloc::Global;
use uuid_core::Uuid;
use vault_model::Entry;

/// A place, and the names that still lead to it.
#[derive(Clone, Copy)]
pub(crate) struct Way<'a> {
    pub(crate) names: &'a [Text],
    pub(crate) place: &'a ImportedPlace,
}

/// The places in one group and in the groups in it, and the number of levels that may be below it.
#[derive(Drop)]
pub(crate) struct Branch<'a> {
    pub(crate) id: Uuid,
    pub(crate) levels: usize,
    pub(crate) ways: Vec<Way<'a>>,
}

/// Places that are in the group of a name, and the others.
#[derive(Drop)]
pub(crate) struct Parts<'a> {
    pub(crate) inside: Vec<Way<'a>>,
    pub(crate) others: Vec<Way<'a>>,
}

// Adds the id of an entry, if there is one.
fn add_own(ids: &mut Vec<Uuid>, entry: &Option<Entry>) -> Result<(), NoMemory>
    ensures { OnOk result (ids.new.items
        ≡ ids.old.items ++ map (λ row. row.0) (rows_seen entry.now)) }
{
    if let Some(entry) = entry {
        ids.push(entry.id)?;
    }
    Ok(())
}

// Adds the id of an entry to which no more names lead, and another place to those that are named.
fn add_way<'a>(ids: &mut Vec<Uuid>, named: &mut Vec<Way<'a>>, way: Way<'a>) -> Result<(), NoMemory>
    ensures ids { OnOk result (ids.new.items
        ≡ ids.old.items ++ spec.own_ids (way_seen way.entry ∷ [])) }
    ensures named { OnOk result (ways_seen named.new.items
        ≡ ways_seen named.old.items ++ spec.places_below (way_seen way.entry ∷ [])) }
{
    if way.names.is_empty() {
        add_own(ids, &way.place.entry)?;
    } else {
        named.push(way)?;
    }
    Ok(())
}

/// Adds the ids of the entries to which no more names lead; the result is the places to which more
/// lead.
pub(crate) fn named_ways<'a>(
    alloc: Global,
    ids: &mut Vec<Uuid>,
    ways: &[Way<'a>],
) -> Result<Vec<Way<'a>>, NoMemory>
    ensures ids { OnOk result (ids.new.items
        ≡ ids.old.items ++ spec.own_ids (ways_seen ways.now)) }
    ensures named { IfOk result (λ named. ways_seen named.items
        ≡ spec.places_below (ways_seen ways.now)) }
{
    let mut named = Vec::new(alloc);
    for way in ways {
        add_way(ids, &mut named, *way)?;
    }
    Ok(named)
}

/// The name that leads first to the first of some places, if there is one.
pub(crate) fn first_name<'a>(ways: &[Way<'a>]) -> Option<&'a Text>
    ensures { option_copied result ≡ spec.first_name (ways_seen ways.now) }
{
    match ways {
        [way, ..] => way.names.first(),
        [] => None,
    }
}

// Adds a place to those in the group of a name or to the others.
fn add_part<'a>(parts: &mut Parts<'a>, way: Way<'a>, name: &str) -> Result<(), NoMemory>
    ensures inside { OnOk result (ways_seen parts.new.inside.items
        ≡ ways_seen parts.old.inside.items ++ spec.inside name.now (way_seen way.entry ∷ [])) }
    ensures others { OnOk result (ways_seen parts.new.others.items
        ≡ ways_seen parts.old.others.items ++ spec.others name.now (way_seen way.entry ∷ [])) }
{
    match way.names {
        [first, names @ ..] if name == first.as_str() => parts.inside.push(Way {
            names,
            place: way.place,
        })?,
        _ => parts.others.push(way)?,
    }
    Ok(())
}

/// The places to which this name leads first, from the group of the name on, and the others.
pub(crate) fn parted<'a>(alloc: Global, ways: &[Way<'a>], name: &str) -> Result<Parts<'a>, NoMemory>
    ensures { IfOk result (λ parts.
        (ways_seen parts.inside.items ≡ spec.inside name.now (ways_seen ways.now))
        × (ways_seen parts.others.items ≡ spec.others name.now (ways_seen ways.now))) }
{
    let mut parts = Parts {
        inside: Vec::new(alloc),
        others: Vec::new(alloc),
    };
    for way in ways {
        add_part(&mut parts, *way, name)?;
    }
    Ok(parts)
}
