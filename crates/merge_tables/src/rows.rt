//! Rows that rise by their keys.
ghost use Rattle.std.specs.Prelude.{T, ◌≡◌, ◌<◌, ◌≤◌, length, MatchResult, OnOk, OnErr};
ghost use Rattle.std.specs.Option.{option_copied};
ghost use Rattle.std.specs.FinMap.{find, is_sorted, put};
ghost use Rattle.merge_tables.specs.RowPositions.{position_of};

use outside_core::NoMemory;
use std::cmp::Ordering;

/// The position of a key among rows that rise by their keys, or else the one where it is to be
/// put.
fn search<K: Ord, X>(rows: &[(K, X)], key: &K) -> Result<usize, usize>
    ensures position { result ≡ position_of K.cmp key.now rows.now }
    ensures within { MatchResult result (λ at. at < length rows.now) (λ at. at ≤ length rows.now) }
{
    for (at, row) in rows.iter().enumerate() {
        match key.cmp(&row.0) {
            Ordering::Less => return Err(at),
            Ordering::Equal => return Ok(at),
            Ordering::Greater => {}
        }
    }
    Err(rows.len())
}

/// The value of the first row whose key is equal.
pub(crate) fn find<'r, K: Ord, X>(rows: &'r [(K, X)], key: &K) -> Option<&'r X>
    ensures { option_copied result ≡ find K.cmp key.now rows.now }
{
    for row in rows {
        if key.cmp(&row.0).is_eq() {
            return Some(&row.1);
        }
    }
    None
}

/// Puts a row in its place, or a value in the place of the one that is at the key. A refusal means
/// that memory ran out, and changes nothing.
pub(crate) fn put<K: Ord + Drop, X: Drop>(
    rows: &mut Vec<(K, X)>,
    key: K,
    value: X,
) -> Result<(), NoMemory>
    ensures ok { OnOk result (rows.new.items ≡ put K.cmp key value rows.old.items) }
    ensures err { OnErr result (rows.new.items ≡ rows.old.items) }
    ensures sorted { T (is_sorted K.cmp rows.old.items) → T (is_sorted K.cmp rows.new.items) }
{
    match search(rows.as_slice(), &key) {
        Ok(at) => rows[at].1 = value,
        Err(at) => rows.insert(at, (key, value))?,
    }
    Ok(())
}
