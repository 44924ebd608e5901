//! Places of an imported tree, made of what is put there.

ghost use Rattle.std.specs.Prelude.{◌≡◌, ◌≢◌, [], ◌∷◌, true};
ghost use Rattle.std.specs.List.{list_all};
ghost use Rattle.std.specs.Str.{is_utf8};
ghost use Rattle.import_tree.specs.SeenDrafts.{placed_seen};
ghost use Rattle.vault_model.specs.Db.{nil_id};
ghost use Rattle.vault_model.specs.SeenNodes.{entry_record, entry_row};
ghost use Rattle.vault_model.specs.Tree.{is_proper_entry};

use crate::drafts::ImportedPlace;
use outside_core::{List, Text};
use vault_model::{Entry, Stamp};

// All names are in UTF-8.
fn names_are_utf8(names: &[Text])
    ensures { list_all is_utf8 names.now ≡ true }
{
    for name in names {
        let _bytes = name.as_str().as_bytes();
    }
}

impl ImportedPlace {
    /// The group to which names lead, with nothing in it.
    pub fn of_group(moment: Stamp, names: List<Text>) -> ImportedPlace
        ensures { placed_seen result ≡ record { now = moment; names = names; rows = [] } }
    {
        names_are_utf8(names.as_slice());
        ImportedPlace {
            moment,
            names,
            entry: None,
        }
    }

    /// An entry in the group to which names lead.
    pub fn of_entry(moment: Stamp, names: List<Text>, entry: Entry) -> ImportedPlace
        requires not_nil { entry.id ≢ nil_id }
        requires proper { is_proper_entry (entry_record entry) ≡ true }
        ensures { placed_seen result
            ≡ record { now = moment; names = names; rows = entry_row entry ∷ [] } }
    {
        names_are_utf8(names.as_slice());
        ImportedPlace {
            moment,
            names,
            entry: Some(entry),
        }
    }
}
