//! What comes after the end of the text: a missing element, a duplicate id, a missing binary, or
//! the document.

ghost use Rattle.doc_forms.specs.Attachments.{pool_from};
ghost use Rattle.doc_forms.specs.Documents as spec;
ghost use Rattle.doc_forms.specs.Ids.{least_duplicate, tombs_of};
ghost use Rattle.doc_forms.specs.KeptParts.{are_kept, is_kept_half, is_kept_meta, is_kept_tree};
ghost use Rattle.doc_forms.specs.Refusals.{Returns};
ghost use Rattle.doc_forms.specs.SeenDocuments.{parts_seen, pool_item, read_seen};
ghost use Rattle.doc_forms.specs.SeenDrafts.{binary_seen, draft_seen, file_parts, meta_parts, root_parts};
ghost use Rattle.doc_resolving.specs.Trees.{ArePartsOf, AreTreeParts, refusal_of, sound_tree, tree_of_parts};
ghost use Rattle.std.specs.Prelude.{◌≡◌, IfOk, MatchOption, MatchResult, None, Some, Ok, Err, map, true};
ghost use Rattle.vault_model.specs.SeenNodes.{tree_seen};
ghost use Rattle.vault_model.specs.Tree.{node_ids};

use crate::ids::ids_of;
use crate::tombs::tombs_without;
use doc_attachments::{ResolvedTree, resolve_tree};
use doc_forms::{
    Binary, DocFail, DocParts, FileBuilder, GroupDraft, MetaBuilder, ReadDoc, RequiredElement,
    RootBuilder,
};
use outside_core::{List, NoMemory};
use std::alloc::Global;
use uuid_core::Uuid;
use vault_model::{Doc, DocForm, Group, PoolItem, Tombstone};

/// What is known of a tree before the document is made: the tree, the least id that two of its
/// nodes have, the first reference to a binary that does not exist, and the tombstones that name no
/// node.
#[derive(Drop)]
pub struct TreeParts {
    pub root: Group,
    pub duplicate: Option<Uuid>,
    pub missing: Option<(usize, u64)>,
    pub tombs: List<Tombstone>,
}

/// What is known of the ids of a tree's nodes: the least that two of them have, and the tombstones
/// that name none.
#[derive(Drop)]
struct NodeParts {
    duplicate: Option<Uuid>,
    tombs: List<Tombstone>,
}

/// What is known of the ids of a tree's nodes, with these tombstones.
fn node_parts(alloc: Global, root: &Group, tombs: &[Tombstone]) -> Result<NodeParts, NoMemory>
    ensures duplicate { IfOk result (λ parts. parts.duplicate
        ≡ least_duplicate (node_ids (tree_seen root.now))) }
    ensures tombs { IfOk result (λ parts. parts.tombs ≡ tombs_of (tree_seen root.now) tombs.now) }
{
    let ids = ids_of(alloc, root)?;
    let tombs = tombs_without(alloc, &ids.ids, tombs)?;
    Ok(NodeParts {
        duplicate: ids.duplicate,
        tombs,
    })
}

/// The parts of a tree with the bytes of its attachments, with these tombstones.
fn parts_of(
    alloc: Global,
    tree: ResolvedTree,
    tombs: &List<Tombstone>,
) -> Result<TreeParts, NoMemory>
    ensures { IfOk result (λ parts. AreTreeParts tree tombs.now parts) }
{
    match node_parts(alloc, &tree.root, tombs.as_slice()) {
        Ok(nodes) => Ok(TreeParts {
            root: tree.root,
            duplicate: nodes.duplicate,
            missing: tree.missing,
            tombs: nodes.tombs,
        }),
        Err(refusal) => {
            drop(tree);
            Err(refusal)
        }
    }
}

/// The parts of a tree that was read, with the binaries that the file keeps apart, or the
/// document's own.
fn tree_parts(
    alloc: Global,
    form: DocForm,
    given: &List<PoolItem>,
    own: &List<Binary>,
    draft: GroupDraft,
    tombs: &List<Tombstone>,
) -> Result<TreeParts, NoMemory>
    ensures { IfOk result (λ parts.
        ArePartsOf (pool_from form (map pool_item given.now) (map binary_seen own.now))
        (draft_seen draft) tombs.now parts) }
{
    match resolve_tree(alloc, form, given, own, draft) {
        Ok(tree) => parts_of(alloc, tree, tombs),
        Err(refusal) => Err(refusal),
    }
}

/// Refuses an id that two nodes have, and then a reference to a binary that does not exist.
fn refuse(duplicate: Option<Uuid>, missing: Option<(usize, u64)>) -> Result<(), DocFail>
    ensures { result ≡ refusal_of duplicate missing }
{
    match (duplicate, missing) {
        (Some(id), _) => Err(DocFail::DuplicateId(id)),
        (None, Some((_, number))) => Err(DocFail::BinaryRef(number)),
        (None, None) => Ok(()),
    }
}

/// A tree in which no id and no reference is refused, with the tombstones that name none of its
/// nodes.
#[derive(Drop)]
struct SoundTree {
    root: Group,
    tombs: List<Tombstone>,
}

/// A tree of which all is known, or its first refusal.
fn sound_parts(parts: TreeParts) -> Result<SoundTree, DocFail>
    ensures { Returns (λ tree. (tree_seen tree.root, tree.tombs)) result (tree_of_parts parts) }
{
    match refuse(parts.duplicate, parts.missing) {
        Ok(()) => Ok(SoundTree {
            root: parts.root,
            tombs: parts.tombs,
        }),
        Err(refusal) => {
            drop(parts);
            Err(refusal)
        }
    }
}

/// A tree that was read, or its first refusal.
fn sound_tree(
    alloc: Global,
    form: DocForm,
    given: &List<PoolItem>,
    own: &List<Binary>,
    draft: GroupDraft,
    tombs: &List<Tombstone>,
) -> Result<SoundTree, DocFail>
    ensures { Returns (λ tree. (tree_seen tree.root, tree.tombs)) result
        (sound_tree (pool_from form (map pool_item given.now) (map binary_seen own.now))
        (draft_seen draft) tombs.now) }
{
    match tree_parts(alloc, form, given, own, draft, tombs) {
        Ok(parts) => sound_parts(parts),
        Err(_) => Err(DocFail::NoMemory),
    }
}

/// The hash of the file's header, which counts in a document of KDBX 3.1 alone.
fn hash_of(form: DocForm, meta: &MetaBuilder) -> Option<[u8; 32]>
    ensures { result ≡ spec.hash_of form (meta_parts meta.now) }
{
    match form {
        DocForm::V3 => meta.hash,
        _ => None,
    }
}

/// The document of a tree, with the rest of what was read, or the first refusal after the end.
fn resolved_tree(
    alloc: Global,
    form: DocForm,
    given: &List<PoolItem>,
    meta: MetaBuilder,
    draft: GroupDraft,
    tombs: &List<Tombstone>,
) -> Result<ReadDoc, DocFail>
    requires meta { is_kept_meta meta.meta ≡ true }
    requires tree { is_kept_tree 127 (draft_seen draft) ≡ true }
    ensures { Returns read_seen result
        (spec.resolved_parts form (map pool_item given.now) (meta_parts meta) (draft_seen draft)
        tombs.now) }
{
    let header_hash = hash_of(form, &meta);
    match sound_tree(alloc, form, given, &meta.binaries, draft, tombs) {
        Ok(tree) => {
            let doc = Doc {
                meta: meta.meta,
                root: tree.root,
                tombs: tree.tombs,
            };
            Ok(ReadDoc { doc, header_hash })
        }
        Err(refusal) => {
            drop(meta);
            Err(refusal)
        }
    }
}

/// The document of what a database says of itself and of its root, or the first refusal after the
/// end.
fn resolved_root(
    alloc: Global,
    form: DocForm,
    given: &List<PoolItem>,
    meta: MetaBuilder,
    root: RootBuilder,
) -> Result<ReadDoc, DocFail>
    requires meta { is_kept_meta meta.meta ≡ true }
    requires root { is_kept_half (Some (root_parts root)) ≡ true }
    ensures { Returns read_seen result (spec.resolved_document form (map pool_item given.now)
        (Some (record { meta = meta_parts meta; root = Some (root_parts root) }))) }
{
    let RootBuilder { tree, tombs } = root;
    match tree {
        Some(draft) => resolved_tree(alloc, form, given, meta, draft, &tombs),
        None => {
            drop(meta);
            Err(DocFail::MissingElement(RequiredElement::Group, 0))
        }
    }
}

/// The document of a whole file, or the first refusal after the end.
fn resolved_file(
    alloc: Global,
    form: DocForm,
    given: &List<PoolItem>,
    file: FileBuilder,
) -> Result<ReadDoc, DocFail>
    requires { are_kept (Some (file_parts file)) ≡ true }
    ensures { Returns read_seen result (spec.resolved_document form (map pool_item given.now)
        (Some (file_parts file))) }
{
    let FileBuilder { meta, root } = file;
    match root {
        Some(root) => resolved_root(alloc, form, given, meta, root),
        None => {
            drop(meta);
            Err(DocFail::MissingElement(RequiredElement::Root, 0))
        }
    }
}

/// The document that the parts of a text make, in the form in which it was read, with the binaries
/// that its file keeps apart (which only KDBX 4 has).
///
/// # Errors
///
/// [`DocFail::MissingElement`] for a missing `KeePassFile`, `Root` or `Group`, in this order; then
/// [`DocFail::DuplicateId`], and then [`DocFail::BinaryRef`]. [`DocFail::NoMemory`] where memory
/// runs out.
pub fn resolve(alloc: Global, pool: &List<PoolItem>, parts: DocParts) -> Result<ReadDoc, DocFail>
    ensures { Returns read_seen result (spec.resolved_document parts.form (map pool_item pool.now)
        (parts_seen parts)) }
{
    let DocParts { form, file } = parts;
    match file {
        Some(file) => resolved_file(alloc, form, pool, file),
        None => Err(DocFail::MissingElement(RequiredElement::KeePassFile, 0)),
    }
}
