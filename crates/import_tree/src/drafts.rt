//! The places of an imported tree, before the tree is made.

ghost use Rattle.std.specs.Prelude.{◌≡◌, ◌≢◌, true};
ghost use Rattle.std.specs.List.{list_all};
ghost use Rattle.std.specs.Option.{ForSome};
ghost use Rattle.std.specs.Str.{is_utf8};
ghost use Rattle.vault_model.specs.Db.{nil_id};
ghost use Rattle.vault_model.specs.SeenNodes.{entry_record};
ghost use Rattle.vault_model.specs.Tree.{is_proper_entry};

use outside_core::{List, Text};
use vault_model::{Entry, Stamp};

/// The id of the root of every imported database.
pub(crate) const ROOT: [u8; 16] = [
    0x6b, 0x5f, 0x0f, 0x1e, 0x9d, 0x1c, 0x4c, 0x3a, 0x8f, 0x57, 0x0d, 0x2c, 0x1e, 0x4a, 0x7b, 0x90,
];

/// A place in an imported tree: the names of the groups that lead to it from below the root, and the
/// entry that is put there at this moment, or nothing but these groups.
#[derive(Drop)]
pub struct ImportedPlace {
    pub moment: Stamp,
    pub names: List<Text>,
    pub entry: Option<Entry>,
    pub ghost not_nil: { ForSome entry (λ own. own.id ≢ nil_id) },
    pub ghost proper: { ForSome entry (λ own. is_proper_entry (entry_record own) ≡ true) },
    pub ghost texts: { list_all is_utf8 names ≡ true },
}

/// What a source has given so far: places, in their order, and the moment of which the root is. It
/// is no document yet: two of its nodes may have one id, and it may have any number of levels, so no
/// tree of it is in memory.
#[derive(Drop)]
pub struct ImportDraft {
    pub moment: Stamp,
    pub places: Vec<ImportedPlace>,
}
