//! Ids, and lists of them.
ghost use Rattle.std.specs.Prelude.{◌≡◌, IfOk, OnOk, ◌++◌};
ghost use Rattle.std.specs.FinMap as table;
ghost use Rattle.std.specs.List.{list_any};
ghost use Rattle.vault_model.specs.Db.{NodeId};
ghost use Rattle.vault_model.specs.Join.{is_id};

use crate::tables::Table;
use outside_core::NoMemory;
use std::alloc::Global;
use uuid_core::Uuid;

/// Whether two ids are the same.
pub fn is_same(first: &Uuid, second: &Uuid) -> bool
    ensures { result ≡ is_id first.now second.now }
{
    first.cmp(second).is_eq()
}

/// Appends the ids of a table, by rising id. A refusal means that memory ran out.
pub fn push_ids<X>(ids: &mut Vec<Uuid>, from: &Table<X>) -> Result<(), NoMemory>
    ensures { OnOk result (ids.new.items ≡ ids.old.items ++ table.keys from.now) }
{
    for (id, _) in from.iter() {
        ids.push(*id)?;
    }
    Ok(())
}

/// Appends the ids of two tables, those of the first before those of the second. A refusal means
/// that memory ran out.
pub fn push_both<X, Y>(
    ids: &mut Vec<Uuid>,
    first: &Table<X>,
    second: &Table<Y>,
) -> Result<(), NoMemory>
    ensures { OnOk result (ids.new.items
        ≡ ids.old.items ++ (table.keys first.now ++ table.keys second.now)) }
{
    push_ids(ids, first)?;
    push_ids(ids, second)?;
    Ok(())
}

/// A table that has just some ids.
pub fn table_of(alloc: Global, ids: &[Uuid]) -> Result<Table<bool>, NoMemory>
    ensures { IfOk result (λ t. (u : NodeId) → table.contains_key t u
        ≡ list_any (is_id u) ids.now) }
{
    let mut has = Table::new(alloc);
    for id in ids {
        has.put(*id, true)?;
    }
    Ok(has)
}
