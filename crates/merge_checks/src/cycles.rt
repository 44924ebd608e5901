//! The cycle that the way up from a node ends in.
ghost use Rattle.std.specs.Prelude.{◌≡◌, [], IfOk, OnOk};
ghost use Rattle.std.specs.FinMap.{keys};
ghost use Rattle.vault_model.specs.Db.{steps};
ghost use Rattle.vault_model.specs.Join.{above, trail};
ghost use Rattle.merge_tables.specs.Databases.{databases};
ghost use Rattle.merge_changes.specs.Changes.{rising_ids};
ghost use Rattle.merge_checks.specs.Cycles.{cycle_above};

use merge_changes::changes::table_of_ids;
use merge_join::merge_parts::nodes::{above, all_ids};
use merge_tables::databases::Database;
use merge_tables::tables::Table;
use outside_core::{List, NoMemory};
use std::alloc::Global;
use uuid_core::Uuid;
use vault_making::copies::put_last;

/// The node that so many steps up lead to.
fn steps_up(copies: &[Database], from: Uuid, count: usize) -> Uuid
    ensures { result ≡ steps (above (databases copies.now)) count from }
{
    let mut at = from;
    let mut left = count;
    while left > 0 {
        at = above(copies, &at);
        left -= 1;
    }
    at
}

/// Puts a node and those above it, so many steps up, where none are. A refusal means that memory
/// ran out.
fn push_trail(
    nodes: &mut Vec<Uuid>,
    copies: &[Database],
    from: Uuid,
    count: usize,
) -> Result<(), NoMemory>
    requires { nodes.old.items ≡ [] }
    ensures { OnOk result (nodes.new.items ≡ trail (databases copies.now) count from) }
{
    let mut at = from;
    let mut left = count;
    while left > 0 {
        nodes.push(at)?;
        at = above(copies, &at);
        left -= 1;
    }
    nodes.push(at)?;
    Ok(())
}

/// A node and those above it, so many steps up.
fn trail_from(
    alloc: Global,
    copies: &[Database],
    from: Uuid,
    count: usize,
) -> Result<Vec<Uuid>, NoMemory>
    ensures { IfOk result (λ us. us.items ≡ trail (databases copies.now) count from) }
{
    let mut trail = Vec::new(alloc);
    match push_trail(&mut trail, copies, from, count) {
        Ok(()) => Ok(trail),
        Err(failed) => {
            drop(trail);
            Err(failed)
        }
    }
}

/// Puts the ids of a table, by rising id, where none are. A refusal means that memory ran out.
fn push_ids(list: &mut List<Uuid>, table: &Table<bool>) -> Result<(), NoMemory>
    requires { list.old ≡ [] }
    ensures { OnOk result (list.new ≡ keys table.now) }
{
    for (id, _) in table.iter() {
        put_last(list, *id)?;
    }
    Ok(())
}

/// The ids of a table, by rising id.
fn list_of(alloc: Global, table: &Table<bool>) -> Result<List<Uuid>, NoMemory>
    ensures { IfOk result (λ us. us ≡ keys table.now) }
{
    let mut list = List::new(alloc);
    match push_ids(&mut list, table) {
        Ok(()) => Ok(list),
        Err(failed) => {
            drop(list);
            Err(failed)
        }
    }
}

/// Some ids by rising id, each once.
fn rising_list(alloc: Global, ids: &[Uuid]) -> Result<List<Uuid>, NoMemory>
    ensures { IfOk result (λ us. us ≡ rising_ids ids.now) }
{
    let table = table_of_ids(alloc, ids)?;
    list_of(alloc, &table)
}

/// The cycle that the way up from a node ends in, by rising id.
pub fn cycle_above(alloc: Global, copies: &[Database], from: Uuid) -> Result<List<Uuid>, NoMemory>
    ensures { IfOk result (λ us. us ≡ cycle_above (databases copies.now) from) }
{
    let held = all_ids(alloc, copies)?;
    let at = steps_up(copies, from, held.len());
    let trail = trail_from(alloc, copies, at, held.len())?;
    rising_list(alloc, trail.as_slice())
}
