//! A document, whose parts are in order.

ghost use Rattle.std.specs.Prelude.{◌≡◌, ◌≤◌, true};
ghost use Rattle.vault_model.specs.Db.{nil_id};
ghost use Rattle.vault_model.specs.Proper.{is_text_meta};
ghost use Rattle.vault_model.specs.SeenNodes.{are_entries_proper, are_groups_proper, are_tombs_apart, icons_rise, items_rise, tombs_rise, tree_seen};
ghost use Rattle.vault_model.specs.Tree.{LEVELS, are_distinct, height, is_elsewhere, node_ids};

pub mod laws;

use crate::metas::Meta;
use crate::nodes::{Group, Tombstone};
use secret_core::outside_core::List;

/// A document: what the database says of itself, its tree, and the tombstones of what was deleted.
///
/// Ids of nodes are distinct and not nil, and the tree has at most 128 levels, the root's being the
/// first. Fields, attachments, items, icons and tombstones rise by key, name or id, so that none
/// occurs twice, and no tombstone names a node. All texts are in UTF-8, the values of fields too.
#[derive(Drop)]
pub struct Doc {
    pub meta: Meta,
    pub root: Group,
    pub tombs: List<Tombstone>,
    pub ghost distinct: { are_distinct (node_ids (tree_seen root)) ≡ true },
    pub ghost no_nil: { is_elsewhere (tree_seen root) nil_id ≡ true },
    pub ghost levels: { height (tree_seen root) ≤ LEVELS },
    pub ghost rising_tombs: { tombs_rise tombs ≡ true },
    pub ghost tombs_apart: { are_tombs_apart (tree_seen root) tombs ≡ true },
    pub ghost entries_proper: { are_entries_proper (tree_seen root) ≡ true },
    pub ghost groups_proper: { are_groups_proper (tree_seen root) ≡ true },
    pub ghost rising_icons: { icons_rise meta.icons ≡ true },
    pub ghost rising_items: { items_rise meta.items ≡ true },
    pub ghost meta_texts: { is_text_meta meta ≡ true },
}
