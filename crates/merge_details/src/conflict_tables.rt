//! Conflicts by their paths and ids.
ghost use Rattle.std.specs.Prelude.{◌≡◌, length, OnOk};
ghost use Rattle.std.specs.Ordering.{as_partial_cmp, eq_by_cmp};
ghost use Rattle.std.specs.Cmp.{eq_by_cmp_equiv, partial_equiv_from_equiv, partial_order_from_total};
ghost use Rattle.std.specs.FinMap as map;
ghost use Rattle.std.proofs.Common.{refl};
ghost use Rattle.merge_details.specs.Conflicts.{key_cmp};
ghost use Rattle.vault_model.proofs.Orders.{bytes_order, id_order, pairs_order as pairs};

use outside_core::NoMemory;
use std::alloc::Global;
use std::cmp::Ordering;
use std::collections::BTreeMap;
use std::collections::btree_map::Iter;
use std::marker::Model;
use uuid_core::Uuid;
use vault_model::Stamp;

/// When the versions of an entry in conflict were made.
#[derive(Clone, Copy)]
pub struct ConflictTimes {
    /// The one that is current now.
    pub current: Stamp,
    /// The one that was current in the target.
    pub older: Stamp,
}

/// The path of an entry, which a table of paths lends, and its id.
#[derive(Drop)]
pub struct ConflictKey<'p> {
    path: &'p [u8],
    id: Uuid,
}

impl<'p> Model for ConflictKey<'p> {
    ghost use Rattle.std.specs.Prelude.{List, ℕ};
    ghost use Rattle.vault_model.specs.Db.{NodeId};

    ghost Value = { List ℕ × NodeId };

    ghost view = { λ key. (key.path.now, key.id) };
}

impl<'p> ConflictKey<'p> {
    /// The key of a path and an id.
    pub(crate) fn new(path: &'p [u8], id: Uuid) -> ConflictKey<'p>
        ensures { result ≡ (path.now, id) }
    {
        ConflictKey { path, id }
    }

    /// The path.
    pub(crate) fn path(&self) -> &'p [u8]
        ensures { result.now ≡ self.now.0 }
    {
        self.path
    }

    /// The id.
    pub(crate) fn id(&self) -> Uuid
        ensures { result ≡ self.now.1 }
    {
        self.id
    }
}

impl<'p> PartialEq for ConflictKey<'p> {
    ghost eq = { eq_by_cmp key_cmp };

    ghost laws = { partial_equiv_from_equiv (eq_by_cmp_equiv (pairs bytes_order id_order).total) };

    fn eq(&self, other: &ConflictKey<'p>) -> bool {
        self.cmp(other).is_eq()
    }
}

impl<'p> Eq for ConflictKey<'p> {
    ghost laws = { eq_by_cmp_equiv (pairs bytes_order id_order).total };
}

impl<'p> PartialOrd for ConflictKey<'p> {
    ghost partial_cmp = { as_partial_cmp key_cmp };

    ghost laws = { partial_order_from_total (pairs bytes_order id_order).total };

    fn partial_cmp(&self, other: &ConflictKey<'p>) -> Option<Ordering> {
        Some(self.cmp(other))
    }
}

impl<'p> Ord for ConflictKey<'p> {
    ghost cmp = { key_cmp };

    ghost total = { (pairs bytes_order id_order).total };

    ghost matches_partial_cmp = { λ x y. refl };

    ghost matches_eq = { λ x y. refl };

    fn cmp(&self, other: &ConflictKey<'p>) -> Ordering {
        self.path.cmp(other.path).then(self.id.cmp(&other.id))
    }
}

/// Conflicts by rising path, and those of one path by rising id.
#[derive(Drop)]
pub struct ConflictTable<'p> {
    rows: BTreeMap<ConflictKey<'p>, ConflictTimes>,
}

impl<'p> Model for ConflictTable<'p> {
    ghost use Rattle.std.specs.FinMap.{FinMap, from_entries};
    ghost use Rattle.merge_details.specs.Conflicts.{key_cmp};
    ghost use Rattle.merge_details.specs.declared.conflict_tables.ConflictTimes.{ConflictTimes};
    ghost use Rattle.merge_details.specs.Codes.{conflicts_code};

    ghost Value = { FinMap key_cmp ConflictTimes };

    ghost coded = { conflicts_code };

    ghost view = { λ t. from_entries t.rows.entries };
}

impl<'p> ConflictTable<'p> {
    /// No conflicts.
    pub(crate) fn new(alloc: Global) -> ConflictTable<'p>
        ensures { result ≡ map.empty }
    {
        ConflictTable {
            rows: BTreeMap::new(alloc),
        }
    }

    /// How many conflicts there are.
    pub fn len(&self) -> usize
        ensures { result ≡ length (map.entries self.now) }
    {
        self.rows.len()
    }

    /// The conflicts, by rising path.
    pub(crate) fn iter(&self) -> Iter<'_, ConflictKey<'p>, ConflictTimes>
        ensures { result ≡ map.entries self.now }
    {
        self.rows.iter()
    }

    /// Puts a conflict in the place of any that is of this path and id. A refusal means that memory
    /// ran out.
    pub(crate) fn put(&mut self, key: ConflictKey<'p>, times: ConflictTimes) -> Result<(), NoMemory>
        ensures { OnOk result (self.new ≡ map.insert self.old key.entry times) }
    {
        self.rows.insert(key, times)?;
        Ok(())
    }
}
