//! A whole text, up to its end.

ghost use Rattle.std.specs.Prelude.{option_map};
ghost use Rattle.markup_grammar.specs.Elements.{innermost, open_contents};
ghost use Rattle.stream_core.specs.InnerStream.{IsAt};
ghost use Rattle.doc_forms.specs.Children.{by_name};
ghost use Rattle.doc_forms.specs.Documents as spec;
ghost use Rattle.doc_forms.specs.Refusals.{Returns};
ghost use Rattle.doc_forms.specs.SeenDrafts.{file_parts};
ghost use Rattle.doc_forms.specs.SeenTexts.{setting_of};
ghost use Rattle.doc_read.specs.TextSteps.{parts_left};
ghost use Rattle.doc_groups.specs.DocWalk.Steps.{Steps};
ghost use Rattle.doc_groups.specs.DocWalk.Tags.{child_step};

use crate::outermost::file;
use doc_forms::{Cursor, DocFail, FileBuilder};
use doc_groups::doc_walk::{Tag, Walk, known_after, put};
use doc_groups::markup_core::{MarkupFail, Piece, Reader};
use std::alloc::Global;
use stream_core::InnerStream;
use vault_model::DocForm;

/// Reads an outermost element of a text: a document is known by its name alone.
fn document_child(
    known: &mut Option<FileBuilder>,
    walk: &mut Walk<'_>,
    tag: &Tag<'_>,
) -> Result<(), DocFail>
    ensures { Steps (λ _. option_map file_parts known.new) walk.old walk.new result
        (child_step (λ s. by_name s (spec.document_rows s)) (option_map file_parts known.old)
        tag.now) }
{
    match tag.name {
        "KeePassFile" => {
            let file = file(walk, tag)?;
            put(known, file);
            Ok(())
        }
        _ => walk.pass(tag),
    }
}

/// Reads what is left of a text.
fn read_rest(known: &mut Option<FileBuilder>, walk: &mut Walk<'_>) -> Result<(), DocFail>
    ensures { Returns (λ _. option_map file_parts known.new) result
        (parts_left walk.old.setting (innermost (open_contents walk.old.answers))
        (option_map file_parts known.old) walk.old.cursor) }
{
    'pieces: loop {
        match walk.next_piece() {
            Ok(
                Piece::Start {
                    name,
                    attrs,
                    place: offset,
                },
            ) => {
                let child = Tag {
                    name,
                    attrs,
                    offset,
                };
                document_child(known, walk, &child)?;
            }
            Ok(Piece::Words { raw: _, place: _ }) => {}
            Ok(Piece::Stop { place: _ }) => return Err(DocFail::NoMemory),
            Ok(Piece::Finish) => return Ok(()),
            Err(MarkupFail::Form(at)) => return Err(DocFail::Form(at)),
            Err(MarkupFail::Depth(at)) => return Err(DocFail::Depth(at)),
        }
    }
}

/// What a text says up to its end, read with a stream at its start.
pub(crate) fn read_document(
    alloc: Global,
    text: &[u8],
    form: DocForm,
    stream: InnerStream,
) -> Result<Option<FileBuilder>, DocFail>
    requires { IsAt stream 0 }
    ensures { Returns (λ o. option_map file_parts o) result
        (spec.parts_in (setting_of form stream) text.now) }
{
    let start = Cursor {
        offset: 0,
        nodes: 0,
    };
    let mut walk = Walk::new(alloc, form, Reader::new(text), stream, start);
    let mut known = None;
    let read = read_rest(&mut known, &mut walk);
    known_after(read, known)
}
