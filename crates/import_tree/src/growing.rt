//! The tree of a draft in memory.

ghost use Rattle.std.specs.Prelude.{◌≡◌, ◌≤◌, [], IfOk, OnOk, map, true};
ghost use Rattle.import_tree.specs.SeenDrafts.{draft_seen, placed_seen};
ghost use Rattle.import_tree.specs.Trees.{import_root, with_all_placed, with_old_root, with_placed};
ghost use Rattle.vault_model.specs.Db.{nil_id};
ghost use Rattle.vault_model.specs.Empty.{new_meta};
ghost use Rattle.vault_model.specs.Proper.{is_text_meta};
ghost use Rattle.vault_model.specs.SeenNodes.{are_entries_proper, are_groups_proper, icons_rise, items_rise, tree_seen, document_of};
ghost use Rattle.vault_model.specs.Tree.{LEVELS, height, is_elsewhere};

use crate::drafts::{ImportDraft, ImportedPlace, ROOT};
use crate::putting::put_entry;
use outside_core::NoMemory;
use std::alloc::Global;
use uuid_core::Uuid;
use vault_making::empty_doc;
use vault_model::{Doc, Group, Meta, Stamp};

// The first second of the year 1, the time of what was never changed.
fn never() -> Stamp
    ensures { result ≡ 0 }
{
    Stamp::of(0).unwrap()
}

/// The tree that places of a draft give. It is no document yet: two of its nodes may have one id.
#[derive(Drop)]
pub(crate) struct DraftTree {
    pub(crate) root: Group,
    pub(crate) meta: Meta,
    pub(crate) ghost no_nil: { is_elsewhere (tree_seen root) nil_id ≡ true },
    pub(crate) ghost entries_proper: { are_entries_proper (tree_seen root) ≡ true },
    pub(crate) ghost groups_proper: { are_groups_proper (tree_seen root) ≡ true },
    pub(crate) ghost rising_icons: { icons_rise meta.icons ≡ true },
    pub(crate) ghost rising_items: { items_rise meta.items ≡ true },
    pub(crate) ghost meta_texts: { is_text_meta meta ≡ true },
}

// Puts a place of a draft into its tree.
fn put_place(alloc: Global, tree: &mut DraftTree, place: ImportedPlace) -> Result<(), NoMemory>
    ensures tree { OnOk result (tree_seen tree.new.root
        ≡ with_placed (placed_seen place) (tree_seen tree.old.root)) }
    ensures meta { tree.new.meta ≡ tree.old.meta }
{
    let ImportedPlace {
        moment,
        names,
        entry,
    } = place;
    put_entry(alloc, &mut tree.root, names.as_slice(), moment, entry)
}

// Puts places of a draft into its tree, one after another.
fn put_all(alloc: Global, tree: &mut DraftTree, places: Vec<ImportedPlace>) -> Result<(), NoMemory>
    ensures tree { OnOk result (tree_seen tree.new.root
        ≡ with_all_placed (map placed_seen places.items) (tree_seen tree.old.root)) }
    ensures meta { tree.new.meta ≡ tree.old.meta }
{
    for place in places {
        put_place(alloc, tree, place)?;
    }
    Ok(())
}

// The root of a document, which was never changed, and the meta data.
fn tree_in(doc: Doc) -> DraftTree
    ensures root { tree_seen result.root ≡ with_old_root (tree_seen doc.root) }
    ensures meta { result.meta ≡ doc.meta }
{
    let mut root = doc.root;
    root.state.modified = never();
    DraftTree {
        root,
        meta: doc.meta,
    }
}

// The tree of no entries: an empty root, which was never changed.
fn new_tree(alloc: Global, moment: Stamp) -> Result<DraftTree, NoMemory>
    ensures { IfOk result (λ tree. document_of tree.meta tree.root [] ≡ record {
      tree = import_root moment;
      tombs = [];
      meta = new_meta;
    }) }
{
    let doc = empty_doc(alloc, Uuid::from_bytes(ROOT), moment)?;
    Ok(tree_in(doc))
}

// A tree with the places of a draft more.
fn grown(
    alloc: Global,
    mut tree: DraftTree,
    places: Vec<ImportedPlace>,
) -> Result<DraftTree, NoMemory>
    ensures tree { IfOk result (λ grown. tree_seen grown.root
        ≡ with_all_placed (map placed_seen places.items) (tree_seen tree.root)) }
    ensures meta { IfOk result (λ grown. grown.meta ≡ tree.meta) }
{
    match put_all(alloc, &mut tree, places) {
        Ok(()) => Ok(tree),
        Err(fail) => {
            drop(tree);
            Err(fail)
        }
    }
}

/// The tree that the places of a draft give. It takes memory of the stack for each level, so it
/// has no more of them than a document.
pub(crate) fn tree_of(alloc: Global, draft: ImportDraft) -> Result<DraftTree, NoMemory>
    requires { height (draft_seen draft).tree ≤ LEVELS }
    ensures { IfOk result (λ tree. document_of tree.meta tree.root [] ≡ draft_seen draft) }
{
    match new_tree(alloc, draft.moment) {
        Ok(tree) => grown(alloc, tree, draft.places),
        Err(fail) => Err(fail),
    }
}
