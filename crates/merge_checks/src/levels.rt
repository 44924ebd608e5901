//! Kept nodes below the last level.
ghost use Rattle.std.specs.Prelude.{◌≡◌, ◌<◌, true, length};
ghost use Rattle.std.specs.List.{list_any};
ghost use Rattle.vault_model.specs.Join.{Allowed, is_id, root_of, trail};
ghost use Rattle.vault_model.specs.Proper.{rises};
ghost use Rattle.vault_model.specs.Tree.{LEVELS};
ghost use Rattle.merge_core.specs.Marking.{first_such};
ghost use Rattle.merge_core.specs.Refusals.{allowed_steps, is_too_deep, least, too_deep};
ghost use Rattle.merge_tables.specs.Databases.{databases};
ghost use Rattle.merge_join.specs.Marks.{AllSound, AreKept, AreKnown};

use crate::kinds::is_entry;
use merge_join::merge_parts::nodes::is_on_trail;
use merge_tables::databases::Database;
use merge_tables::tables::Table;
use uuid_core::Uuid;

/// The most levels of groups.
const MOST_LEVELS: usize = 128;

/// So many steps up a node may be from the root.
fn allowed_steps(copies: &[Database], id: &Uuid) -> usize
    ensures { result ≡ allowed_steps LEVELS (databases copies.now) id.now }
{
    if is_entry(copies, id) {
        MOST_LEVELS
    } else {
        MOST_LEVELS - 1
    }
}

/// Whether a node is kept and below the last level.
fn is_too_deep(copies: &[Database], marked: &Table<bool>, id: &Uuid) -> bool
    requires some { 0 < length copies.now }
    requires kept { AreKept (databases copies.now) marked.now }
    ensures { result ≡ is_too_deep LEVELS (databases copies.now) id.now }
{
    let is_kept = marked.get(id).is_some();
    is_kept && !is_on_trail(copies, allowed_steps(copies, id), *id, &copies[0].root)
}

/// The first of some ids that is below the last level.
fn first_too_deep(copies: &[Database], marked: &Table<bool>, known: &[Uuid]) -> Option<Uuid>
    requires some { 0 < length copies.now }
    requires kept { AreKept (databases copies.now) marked.now }
    ensures { result ≡ first_such (is_too_deep LEVELS (databases copies.now)) known.now }
{
    for id in known {
        if is_too_deep(copies, marked, id) {
            return Some(*id);
        }
    }
    None
}

/// The least kept node below the last level, where the kept nodes are marked and all known ids are
/// given, rising.
pub fn least_too_deep(copies: &[Database], marked: &Table<bool>, known: &[Uuid]) -> Option<Uuid>
    requires some { 0 < length copies.now }
    requires allowed { Allowed (databases copies.now) }
    requires sound { AllSound (databases copies.now) }
    requires kept { AreKept (databases copies.now) marked.now }
    requires rising { rises (λ u. u) known.now ≡ true }
    requires known { AreKnown (databases copies.now) known.now }
    ensures { result ≡ least (too_deep LEVELS (databases copies.now)) }
{
    first_too_deep(copies, marked, known)
}
