//! `KeePassFile`, the outermost element.

ghost use Rattle.std.specs.Prelude.{◌≡◌};
ghost use Rattle.doc_forms.specs.Children.{by_name};
ghost use Rattle.doc_forms.specs.Documents as spec;
ghost use Rattle.doc_forms.specs.SeenDrafts.{file_parts};
ghost use Rattle.doc_groups.specs.DocWalk.Steps.{Steps};
ghost use Rattle.doc_groups.specs.DocWalk.Tags.{child_step, contents_step};

use doc_forms::{DocFail, FileBuilder};
use doc_groups::doc_walk::{Parts, Tag, Walk, put, read_whole};
use doc_groups::root;
use doc_metas::{meta, no_meta};
use std::alloc::Global;

/// What is known of a `KeePassFile` before its end.
#[derive(Drop)]
struct FileDraft {
    file: FileBuilder,
}

/// The `Root` whose start tag was given. A second one is refused at its end.
fn root_child(draft: &mut FileDraft, walk: &mut Walk<'_>, tag: &Tag<'_>) -> Result<(), DocFail>
    ensures { Steps (λ _. file_parts draft.new.file) walk.old walk.new result
        (child_step spec.root (file_parts draft.old.file) tag.now) }
{
    let fits = draft.file.root.is_none();
    let root = root(walk, tag)?;
    put(&mut draft.file.root, root);
    if fits {
        Ok(())
    } else {
        Err(DocFail::BadValue(tag.offset))
    }
}

impl Parts for FileDraft {
    ghost Bare = { spec.FileParts };

    ghost seen = { λ d. file_parts d.file };

    ghost child = { λ s. by_name s (spec.file_rows s) };

    fn read_child(&mut self, walk: &mut Walk<'_>, tag: &Tag<'_>) -> Result<(), DocFail> {
        match tag.name {
            "Meta" => meta(walk, tag, &mut self.file.meta),
            "Root" => root_child(self, walk, tag),
            _ => walk.pass(tag),
        }
    }
}

/// A `KeePassFile` of which nothing is known yet.
fn no_file_parts(alloc: Global) -> FileBuilder
    ensures { file_parts result ≡ spec.no_file_parts }
{
    FileBuilder {
        meta: no_meta(alloc),
        root: None,
    }
}

/// What is known of a `KeePassFile` at its end.
fn builder_of(draft: FileDraft) -> FileBuilder
    ensures { file_parts result ≡ file_parts draft.file }
{
    draft.file
}

/// The `KeePassFile` whose start tag was given.
pub(crate) fn file(walk: &mut Walk<'_>, tag: &Tag<'_>) -> Result<FileBuilder, DocFail>
    ensures { Steps file_parts walk.old walk.new result
        (contents_step (λ s. by_name s (spec.file_rows s)) spec.no_file_parts tag.now) }
{
    let first = FileDraft {
        file: no_file_parts(walk.alloc()),
    };
    let draft = read_whole(walk, tag, first)?;
    Ok(builder_of(draft))
}
