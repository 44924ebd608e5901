//! `Root`: the root group, and the tombstones.

ghost use Rattle.std.specs.Prelude.{◌≡◌};
ghost use Rattle.doc_forms.specs.Children.{by_name};
ghost use Rattle.doc_forms.specs.Documents as spec;
ghost use Rattle.doc_forms.specs.SeenDrafts.{root_parts};
ghost use Rattle.doc_entries.specs.DocWalk.Steps.{Steps};
ghost use Rattle.doc_entries.specs.DocWalk.Tags.{child_step, contents_step};

use crate::groups::group;
use crate::tombs::tombs;
use doc_entries::doc_walk::{Parts, Tag, Walk, put, read_whole};
use doc_forms::{DocFail, RootBuilder};
use outside_core::List;
use std::alloc::Global;

/// What is known of a `Root` before its end.
#[derive(Drop)]
struct RootDraft {
    root: RootBuilder,
}

/// The root group, whose start tag was given. A second one is refused at its end.
fn root_group(draft: &mut RootDraft, walk: &mut Walk<'_>, tag: &Tag<'_>) -> Result<(), DocFail>
    ensures { Steps (λ _. root_parts draft.new.root) walk.old walk.new result
        (child_step spec.root_group (root_parts draft.old.root) tag.now) }
{
    let fits = draft.root.tree.is_none();
    let tree = group(walk, tag, 127, fits)?;
    put(&mut draft.root.tree, tree);
    Ok(())
}

impl Parts for RootDraft {
    ghost Bare = { spec.RootParts };

    ghost seen = { λ d. root_parts d.root };

    ghost child = { λ s. by_name s (spec.root_rows s) };

    fn read_child(&mut self, walk: &mut Walk<'_>, tag: &Tag<'_>) -> Result<(), DocFail> {
        match tag.name {
            "Group" => root_group(self, walk, tag),
            "DeletedObjects" => tombs(walk, tag, &mut self.root.tombs),
            _ => walk.pass(tag),
        }
    }
}

/// A `Root` of which nothing is known yet.
fn no_root(alloc: Global) -> RootBuilder
    ensures { root_parts result ≡ spec.no_root }
{
    RootBuilder {
        tree: None,
        tombs: List::new(alloc),
    }
}

/// What is known of a `Root` at its end.
fn builder_of(draft: RootDraft) -> RootBuilder
    ensures { root_parts result ≡ root_parts draft.root }
{
    draft.root
}

/// The `Root` whose start tag was given.
pub fn root(walk: &mut Walk<'_>, tag: &Tag<'_>) -> Result<RootBuilder, DocFail>
    ensures { Steps root_parts walk.old walk.new result
        (contents_step (λ s. by_name s (spec.root_rows s)) spec.no_root tag.now) }
{
    let first = RootDraft {
        root: no_root(walk.alloc()),
    };
    let draft = read_whole(walk, tag, first)?;
    Ok(builder_of(draft))
}
