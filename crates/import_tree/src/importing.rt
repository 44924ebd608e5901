//! The document of imported entries.

ghost use Rattle.std.specs.Prelude.{◌≡◌, ◌≤◌, [], IfErr, OnOk, map, true};
ghost use Rattle.std.specs.List.{list_any};
ghost use Rattle.import_tree.specs.Outcome as spec;
ghost use Rattle.import_tree.specs.Outcome.{Returns, meaning_of, sound_document, sound_tree};
ghost use Rattle.import_tree.specs.SeenDrafts.{draft_seen, has_more_names, placed_seen};
ghost use Rattle.import_tree.specs.SeenEntries.{imported_seen};
ghost use Rattle.import_tree.specs.Trees.{placed_document};
ghost use Rattle.outside_core.specs.Results.{Fails};
ghost use Rattle.vault_model.specs.SeenDoc.{doc_seen};
ghost use Rattle.vault_model.specs.SeenNodes as seen;
ghost use Rattle.vault_model.specs.SeenNodes.{tree_seen};
ghost use Rattle.vault_model.specs.Tree.{LEVELS, are_distinct, height, node_ids};

use crate::depths::refuse_draft;
use crate::drafts::{ImportDraft, ImportedPlace};
use crate::fails::TreeFail;
use crate::growing::{DraftTree, tree_of};
use crate::imported::ImportedEntry;
use crate::naming::draft_of;
use crate::outcome::refusal_of;
use outside_core::{List, NoMemory};
use std::alloc::Global;
use vault_model::{Doc, Stamp};

/// The most names that lead to a place of a document. Of a draft with more no tree is made, which
/// would take memory of the stack for each of them.
const MOST_NAMES: usize = 127;

// Reports whether more names lead to a place of a draft than to any of a document.
fn is_deep(draft: &ImportDraft) -> bool
    ensures { result ≡ list_any has_more_names draft.now.places.items }
{
    draft
        .places
        .iter()
        .any(|place| place.names.len() > MOST_NAMES)
}

// Refuses a draft to a place of which more names lead than to any of a document, as it is defined.
fn refuse_deep(alloc: Global, draft: &ImportDraft) -> Result<(), TreeFail>
    ensures fits { OnOk result (height (draft_seen draft.now).tree ≤ LEVELS) }
    ensures stops { IfErr result (λ fail. Fails (meaning_of fail)
        (sound_document (draft_seen draft.now))) }
{
    if is_deep(draft) {
        refuse_draft(alloc, draft)
    } else {
        Ok(())
    }
}

// The document that has this tree.
fn document_with(alloc: Global, tree: DraftTree) -> Doc
    requires distinct { are_distinct (node_ids (tree_seen tree.root)) ≡ true }
    requires levels { height (tree_seen tree.root) ≤ LEVELS }
    ensures { doc_seen result ≡ seen.document_of tree.meta tree.root [] }
{
    Doc {
        meta: tree.meta,
        root: tree.root,
        tombs: List::new(alloc),
    }
}

// Refuses a tree as it is defined.
fn refuse_tree(alloc: Global, tree: &DraftTree) -> Result<(), TreeFail>
    ensures { Returns (λ u. u) result (sound_tree (tree_seen tree.now.root)) }
{
    refusal_of(alloc, &tree.root)
}

// The document that has this tree, unless the tree is refused.
fn sound_with(alloc: Global, tree: DraftTree) -> Result<Doc, TreeFail>
    ensures { Returns doc_seen result (sound_document (seen.document_of tree.meta tree.root [])) }
{
    match refuse_tree(alloc, &tree) {
        Ok(()) => Ok(document_with(alloc, tree)),
        Err(fail) => {
            drop(tree);
            Err(fail)
        }
    }
}

// The document of a draft.
fn finish_import(alloc: Global, draft: ImportDraft) -> Result<Doc, TreeFail>
    ensures { Returns doc_seen result (sound_document (draft_seen draft)) }
{
    refuse_deep(alloc, &draft)?;
    match tree_of(alloc, draft) {
        Ok(tree) => sound_with(alloc, tree),
        Err(NoMemory) => Err(TreeFail::NoMemory),
    }
}

/// The document of the places of an imported tree, in their order, at a moment: each entry is put
/// after the others of the group to which its names lead. Groups that are not there are made, each as
/// the last in its group, also where no entry is put into them.
///
/// # Errors
///
/// As those of [`imported_document`].
pub fn placed_document(
    alloc: Global,
    now: Stamp,
    places: Vec<ImportedPlace>,
) -> Result<Doc, TreeFail>
    ensures { Returns doc_seen result
        (sound_document (placed_document now (map placed_seen places.items))) }
{
    let draft = ImportDraft {
        moment: now,
        places,
    };
    finish_import(alloc, draft)
}

/// The document of the entries of a source, in their order, at a moment: each is put after the others
/// of the group to which its names lead. Groups that are not there are made, each as the last in its
/// group. Every time is that moment that an entry does not give.
///
/// # Errors
///
/// [`TreeFail::DuplicateId`] with the least id that two nodes have; then [`TreeFail::TooDeep`] with
/// the least id of a group below the 128th level. [`TreeFail::NoMemory`] where memory runs out.
#[tactic(auto, unfolding(crate::specs::Outcome::imported_document))]
pub fn imported_document(
    alloc: Global,
    now: Stamp,
    entries: Vec<ImportedEntry>,
) -> Result<Doc, TreeFail>
    ensures { Returns doc_seen result
        (spec.imported_document now (map imported_seen entries.items)) }
{
    let draft = draft_of(alloc, now, entries)?;
    finish_import(alloc, draft)
}
