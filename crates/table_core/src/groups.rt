//! The rows of groups.

ghost use Rattle.std.specs.Prelude.{◌≡◌, [], ◌∷◌, ◌++◌, flat_map, map, IfOk, OnOk};
ghost use Rattle.table_core.specs.Rows.{entry_fields, rows_in};
ghost use Rattle.table_core.specs.Tables.{row_of, rows_text};
ghost use Rattle.vault_model.specs.SeenNodes.{entry_row, tree_seen};

use crate::rows::put_entry;
use crate::sinks::TableSink;
use outside_core::{List, NoMemory};
use std::alloc::Global;
use vault_model::{Entry, Group};

// The names that lead to a group in a group to which these names lead.
fn names_below<'a>(
    alloc: Global,
    names: &[&'a [u8]],
    name: &'a [u8],
) -> Result<List<&'a [u8]>, NoMemory>
    ensures { IfOk result (λ below. map (λ n. n.now) below
        ≡ map (λ n. n.now) names.now ++ name.now ∷ []) }
{
    let mut below = List::new(alloc);
    for above in names {
        if below.push(*above).is_err() {
            return Err(NoMemory);
        }
    }
    if below.push(name).is_err() {
        return Err(NoMemory);
    }
    Ok(below)
}

// Puts the rows of entries in a group to which these names lead from the root.
fn put_entries<O: TableSink>(
    out: &mut O,
    names: &[&[u8]],
    entries: &[Entry],
) -> Result<(), NoMemory>
    ensures { OnOk result (O.state out.new ≡ O.step (O.state out.old)
        (rows_text (map (entry_fields (map (λ n. n.now) names.now)) (map entry_row entries.now)))) }
{
    for entry in entries {
        put_entry(out, names, entry)?;
    }
    Ok(())
}

/// Puts the rows of a group's entries, then those of its groups. The names are those that lead to
/// the group from the root, its own among them.
pub(crate) fn put_group<'a, O: TableSink>(
    alloc: Global,
    out: &mut O,
    names: &[&'a [u8]],
    group: &'a Group,
) -> Result<(), NoMemory>
    ensures { OnOk result (O.state out.new ≡ O.step (O.state out.old)
        (rows_text (rows_in (map (λ n. n.now) names.now) (tree_seen group.now)))) }
{
    put_entries(out, names, group.entries.as_slice())?;
    for child in group.groups.as_slice() {
        let name = child.state.content.name.as_str().as_bytes();
        let below = names_below(alloc, names, name)?;
        put_group(alloc, out, below.as_slice(), child)?;
    }
    Ok(())
}
