//! How many groups and entries a document has.

ghost use Rattle.std.specs.Prelude.{◌≡◌, ◌+◌, IfOk, length};
ghost use Rattle.vault_model.specs.SeenNodes.{tree_seen};
ghost use Rattle.vault_model.specs.Tree.{entry_rows, group_rows};

use outside_core::NoMemory;
use vault_model::Group;

// Adds to a count. No memory has so many nodes that the sum is too large for a count.
fn sum(count: usize, more: usize) -> Result<usize, NoMemory>
    ensures { IfOk result (λ sum. sum ≡ count + more) }
{
    match count.checked_add(more) {
        Some(sum) => Ok(sum),
        None => Err(NoMemory),
    }
}

/// Adds the number of groups in a tree, its own group among them.
pub(crate) fn count_groups(count: usize, group: &Group) -> Result<usize, NoMemory>
    ensures { IfOk result (λ groups. groups
        ≡ count + length (group_rows (tree_seen group.now))) }
{
    let mut groups = sum(count, 1)?;
    for child in group.groups.as_slice() {
        groups = count_groups(groups, child)?;
    }
    Ok(groups)
}

/// Adds the number of entries in a tree.
pub(crate) fn count_entries(count: usize, group: &Group) -> Result<usize, NoMemory>
    ensures { IfOk result (λ entries. entries
        ≡ count + length (entry_rows (tree_seen group.now))) }
{
    let mut entries = sum(count, group.entries.len())?;
    for child in group.groups.as_slice() {
        entries = count_entries(entries, child)?;
    }
    Ok(entries)
}
