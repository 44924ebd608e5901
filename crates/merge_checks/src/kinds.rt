//! Ids of an entry in one member and of a group in another.
ghost use Rattle.std.specs.Prelude.{◌≡◌, true};
ghost use Rattle.vault_model.specs.Proper.{rises};
ghost use Rattle.merge_core.specs.Marking.{first_such};
ghost use Rattle.merge_core.specs.Refusals.{is_entry, is_group, kind_clashes, least};
ghost use Rattle.merge_tables.specs.Databases.{databases};
ghost use Rattle.merge_checks.specs.Clashes.{is_of_two_kinds};
ghost use Rattle.merge_join.specs.Marks.{AreKnown};

use merge_tables::databases::Database;
use uuid_core::Uuid;

/// Whether some member has the id for an entry.
pub fn is_entry(copies: &[Database], id: &Uuid) -> bool
    ensures { result ≡ is_entry (databases copies.now) id.now }
{
    for copy in copies {
        if copy.entries.get(id).is_some() {
            return true;
        }
    }
    false
}

/// Whether some member has the id for a group.
fn is_group(copies: &[Database], id: &Uuid) -> bool
    ensures { result ≡ is_group (databases copies.now) id.now }
{
    for copy in copies {
        if copy.groups.get(id).is_some() {
            return true;
        }
    }
    false
}

/// The first of some ids that is of two kinds.
fn first_of_two_kinds(copies: &[Database], known: &[Uuid]) -> Option<Uuid>
    ensures { result ≡ first_such (is_of_two_kinds (databases copies.now)) known.now }
{
    for id in known {
        if is_entry(copies, id) && is_group(copies, id) {
            return Some(*id);
        }
    }
    None
}

/// The least id of an entry in one member and of a group in another, where all known ids are given,
/// rising.
pub fn kind_clash(copies: &[Database], known: &[Uuid]) -> Option<Uuid>
    requires rising { rises (λ u. u) known.now ≡ true }
    requires known { AreKnown (databases copies.now) known.now }
    ensures { result ≡ least (kind_clashes (databases copies.now)) }
{
    first_of_two_kinds(copies, known)
}
