//! A tree with the bytes of its attachments, which the binaries of its file give.

ghost use Rattle.doc_attachments.specs.Trees.{tree_and_missing};
ghost use Rattle.doc_forms.specs.Attachments.{binaries_from, pool_from, resolved_in};
ghost use Rattle.doc_forms.specs.SeenDocuments.{pool_item};
ghost use Rattle.doc_forms.specs.SeenDrafts.{binary_seen, draft_seen};
ghost use Rattle.std.specs.Prelude.{◌≡◌, IfOk, map};

use crate::missing::{Missing, missing_in};
use crate::pools::{Pool, number_binaries};
use crate::resolving::resolved_tree;
use doc_forms::{Binary, GroupDraft};
use outside_core::{List, NoMemory};
use std::alloc::Global;
use vault_model::{DocForm, Group, PoolItem};

/// A group with all below it, with the bytes of its attachments, and the first reference in its
/// text to a binary that does not exist.
#[derive(Drop)]
pub struct ResolvedTree {
    pub root: Group,
    pub missing: Missing,
}

/// The tree of a draft, with the bytes of the binaries of a pool.
fn resolve_in(alloc: Global, pool: &Pool<'_>, draft: GroupDraft) -> Result<ResolvedTree, NoMemory>
    ensures { IfOk result (λ tree. tree_and_missing tree
        ≡ resolved_in pool.now (draft_seen draft)) }
{
    let missing = missing_in(pool, &draft);
    match resolved_tree(alloc, pool, draft) {
        Ok(root) => Ok(ResolvedTree { root, missing }),
        Err(refusal) => Err(refusal),
    }
}

/// The tree of a draft, with the bytes of these binaries.
fn resolve_among(
    alloc: Global,
    binaries: &[Binary],
    draft: GroupDraft,
) -> Result<ResolvedTree, NoMemory>
    ensures { IfOk result (λ tree. tree_and_missing tree
        ≡ resolved_in (map binary_seen binaries.now) (draft_seen draft)) }
{
    match Pool::new(alloc, binaries) {
        Ok(pool) => resolve_in(alloc, &pool, draft),
        Err(refusal) => {
            drop(draft);
            Err(refusal)
        }
    }
}

/// The tree of a draft, with the bytes of the binaries that its file keeps apart.
fn resolve_given(
    alloc: Global,
    given: &List<PoolItem>,
    draft: GroupDraft,
) -> Result<ResolvedTree, NoMemory>
    ensures { IfOk result (λ tree. tree_and_missing tree
        ≡ resolved_in (binaries_from 0 (map pool_item given.now)) (draft_seen draft)) }
{
    match number_binaries(alloc, given.as_slice()) {
        Ok(binaries) => resolve_among(alloc, binaries.as_slice(), draft),
        Err(refusal) => {
            drop(draft);
            Err(refusal)
        }
    }
}

/// The tree of a draft, with the bytes of the binaries that its file keeps apart, which only KDBX 4
/// has, or else of the document's own. The only refusal is that memory ran out.
///
/// An attachment that refers to no binary has no bytes, and the tree says the first such reference.
pub fn resolve_tree(
    alloc: Global,
    form: DocForm,
    given: &List<PoolItem>,
    own: &List<Binary>,
    draft: GroupDraft,
) -> Result<ResolvedTree, NoMemory>
    ensures { IfOk result (λ tree. tree_and_missing tree
        ≡ resolved_in (pool_from form (map pool_item given.now) (map binary_seen own.now))
        (draft_seen draft)) }
{
    match form {
        DocForm::V4 => resolve_given(alloc, given, draft),
        _ => resolve_among(alloc, own.as_slice(), draft),
    }
}
