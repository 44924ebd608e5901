//! Finite maps from ids.
ghost use Rattle.std.specs.Prelude.{◌≡◌, OnOk, OnErr};
ghost use Rattle.std.specs.Option.{option_copied};
ghost use Rattle.std.specs.FinMap as map;
ghost use Rattle.vault_model.specs.Unite.{put_some};

use outside_core::NoMemory;
use std::alloc::Global;
use std::collections::BTreeMap;
use std::collections::btree_map::Iter;
use std::marker::Model;
use uuid_core::Uuid;

/// A finite map from ids, which contracts see as that map.
#[derive(Drop)]
pub struct Table<X> {
    rows: BTreeMap<Uuid, X>,
}

impl<X> Model for Table<X> {
    ghost use Rattle.std.specs.Coded.{coded_list, coded_ℕ};
    ghost use Rattle.std.specs.FinMap.{FinMap, code, from_entries};
    ghost use Rattle.vault_model.specs.Db.{id_cmp};

    ghost Value = { FinMap id_cmp X };

    ghost coded = { code (coded_list coded_ℕ) X.code };

    ghost view = { λ t. from_entries t.rows.entries };
}

impl<X> Table<X> {
    /// An empty table.
    pub fn new(alloc: Global) -> Table<X>
        ensures { result ≡ map.empty }
    {
        Table {
            rows: BTreeMap::new(alloc),
        }
    }

    /// What the table has at an id.
    pub fn get(&self, id: &Uuid) -> Option<&X>
        ensures { option_copied result ≡ map.get self.now id.now }
    {
        self.rows.get(id)
    }

    /// The ids and what is at them, by rising id.
    pub fn iter(&self) -> Iter<'_, Uuid, X>
        ensures { result ≡ map.entries self.now }
    {
        self.rows.iter()
    }
}

impl<X: Drop> Table<X> {
    /// Puts a value at an id, in the place of any that was there. A refusal means that memory ran
    /// out, and changes nothing.
    pub fn put(&mut self, id: Uuid, value: X) -> Result<(), NoMemory>
        ensures ok { OnOk result (self.new ≡ map.insert self.old id value) }
        ensures err { OnErr result (self.new ≡ self.old) }
    {
        self.rows.insert(id, value)?;
        Ok(())
    }

    /// Takes out what is at an id.
    pub fn remove(&mut self, id: &Uuid) -> Option<X>
        ensures removed { self.new ≡ map.remove self.old id.now }
        ensures taken { result ≡ map.get self.old id.now }
    {
        self.rows.remove(id)
    }
}

/// Puts a value at an id where there is one. A refusal means that memory ran out.
pub fn put_some<X: Drop>(filled: &mut Table<X>, id: Uuid, value: Option<X>) -> Result<(), NoMemory>
    ensures { OnOk result (filled.new ≡ put_some id value filled.old) }
{
    if let Some(value) = value {
        filled.put(id, value)?;
    }
    Ok(())
}
