//! Ids in a row.
ghost use Rattle.std.specs.Prelude.{◌≡◌, ◌++◌, [], ◌∷◌, OnOk, OnErr};

use outside_core::NoMemory;
use std::alloc::Global;
use std::marker::Model;
use uuid_core::Uuid;

/// Ids in a row, which contracts see as their list.
#[derive(Drop)]
pub struct IdList {
    ids: Vec<Uuid>,
}

impl Model for IdList {
    ghost use Rattle.std.specs.Prelude.{List};
    ghost use Rattle.std.specs.Coded.{coded_list, coded_ℕ};
    ghost use Rattle.vault_model.specs.Db.{NodeId};

    ghost Value = { List NodeId };

    ghost coded = { coded_list (coded_list coded_ℕ) };

    ghost view = { λ i. i.ids.items };
}

impl IdList {
    /// No ids.
    pub fn new(alloc: Global) -> IdList
        ensures { result ≡ [] }
    {
        IdList {
            ids: Vec::new(alloc),
        }
    }

    /// The ids.
    pub fn as_slice(&self) -> &[Uuid]
        ensures { result.now ≡ self.now }
    {
        self.ids.as_slice()
    }

    /// Appends an id. A refusal means that memory ran out, and changes nothing.
    pub fn push(&mut self, id: Uuid) -> Result<(), NoMemory>
        ensures ok { OnOk result (self.new ≡ self.old ++ id ∷ []) }
        ensures err { OnErr result (self.new ≡ self.old) }
    {
        self.ids.push(id)?;
        Ok(())
    }
}
