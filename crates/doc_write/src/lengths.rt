//! How many nodes a document has, and how much room its pool takes.

ghost use Rattle.std.specs.Prelude.{◌≡◌, ◌+◌, ◌≤◌, length, map, min};
ghost use Rattle.doc_forms.specs.SeenDocuments.{pool_item};
ghost use Rattle.doc_spelling.specs.Ranges.{count_all, entry_nodes, tree_nodes};
ghost use Rattle.doc_write.specs.Written.{binary_len, pool_len};
ghost use Rattle.vault_model.specs.SeenNodes.{entry_row, tree_seen};

use doc_sinks::Pool;
use vault_model::{DocForm, Entry, Group, PoolItem};

/// How many bytes the inner field of a binary takes besides the binary: its number, its length, and
/// whether it is hidden.
const FIELD: usize = 6;

/// Adds the numbers of entries and of history items; the last `u64` is given for every larger
/// number.
fn count_entries(count: u64, entries: &[Entry]) -> u64
    ensures { result ≡ min (count + count_all entry_nodes (map entry_row entries.now)) u64.MAX }
{
    let mut count = count;
    for entry in entries {
        count = count
            .saturating_add(1)
            .saturating_add(entry.history.len() as u64);
    }
    count
}

/// Adds the number of groups, entries and history items of a group with all below it; the last
/// `u64` is given for every larger number.
pub(crate) fn count_nodes(count: u64, group: &Group) -> u64
    ensures { result ≡ min (count + tree_nodes (tree_seen group.now)) u64.MAX }
{
    let mut count = count_entries(count.saturating_add(1), group.entries.as_slice());
    for below in group.groups.as_slice() {
        count = count_nodes(count, below);
    }
    count
}

/// How many bytes a pool takes, each binary with its inner field; the last `usize` is given for
/// every larger number.
fn binaries_len(items: &[PoolItem]) -> usize
    ensures { result ≡ min (count_all binary_len (map pool_item items.now)) usize.MAX }
{
    let mut len: usize = 0;
    for item in items {
        len = len.saturating_add(FIELD).saturating_add(item.bytes.len());
    }
    len
}

/// How many bytes the pool takes that the file of a document in this form keeps apart from it.
pub(crate) fn apart_len(form: DocForm, pool: &Pool<'_>) -> usize
    ensures len { result ≡ min (pool_len form pool.now) usize.MAX }
    ensures few { length pool.now ≤ usize.MAX }
{
    let items = pool.items();
    match form {
        DocForm::Plain | DocForm::V3 => 0,
        DocForm::V4 => binaries_len(items),
    }
}
