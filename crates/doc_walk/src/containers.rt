//! An element that holds others.

ghost use Rattle.doc_forms.specs.ElementTexts.{Setting};
ghost use Rattle.doc_forms.specs.Children.{Child};
ghost use Rattle.doc_walk.specs.Steps.{Steps};
ghost use Rattle.doc_walk.specs.Tags.{contents_step, counted_step, child_step};

use crate::walk::{Tag, Walk};
use doc_forms::DocFail;
use doc_values::markup_core::{MarkupFail, Piece};
use doc_values::{appended, is_marked, no_text};

/// What is known of an element before its end, while the elements in it are read one after another.
pub trait Parts: Drop {
    /// What is known, without memory.
    ghost Bare: { Type 0 };

    ghost seen: { Self → Bare };

    /// How a child of the element is read.
    ghost child: { Setting → Child Bare };

    /// Reads the element whose start tag was given.
    fn read_child(&mut self, walk: &mut Walk<'_>, tag: &Tag<'_>) -> Result<(), DocFail>
        ensures { Steps (λ _. seen self.new) walk.old walk.new result
            (child_step child (seen self.old) tag.now) };
}

/// Reads all children of the element whose start tag was given, and its end.
pub fn contents<P: Parts>(walk: &mut Walk<'_>, tag: &Tag<'_>, parts: &mut P) -> Result<(), DocFail>
    ensures { Steps (λ _. P.seen parts.new) walk.old walk.new result
        (contents_step P.child (P.seen parts.old) tag.now) }
{
    let hides = is_marked(walk.alloc(), &tag.attrs, "Protected")?;
    let mut text = no_text(walk.alloc())?;
    'pieces: loop {
        match walk.next_piece() {
            Ok(
                Piece::Start {
                    name,
                    attrs,
                    place: offset,
                },
            ) => {
                let child = Tag {
                    name,
                    attrs,
                    offset,
                };
                parts.read_child(walk, &child)?;
            }
            Ok(Piece::Words { raw, place: _ }) => {
                if hides {
                    text = appended(walk.alloc(), text, raw)?;
                }
            }
            Ok(Piece::Stop { place: _ }) => {
                let _ = walk.own_text(tag, text)?;
                return Ok(());
            }
            Ok(Piece::Finish) => return Err(DocFail::NoMemory),
            Err(MarkupFail::Form(at)) => return Err(DocFail::Form(at)),
            Err(MarkupFail::Depth(at)) => return Err(DocFail::Depth(at)),
        }
    }
}

/// Reads all children of the element whose start tag was given, of which this is known at first,
/// and its end, and gives what is known then.
pub fn read_whole<P: Parts>(walk: &mut Walk<'_>, tag: &Tag<'_>, first: P) -> Result<P, DocFail>
    ensures { Steps P.seen walk.old walk.new result
        (contents_step P.child (P.seen first) tag.now) }
{
    let mut parts = first;
    contents(walk, tag, &mut parts)?;
    Ok(parts)
}

/// The same of an element that counts as a group, an entry or a history item.
pub fn read_counted<P: Parts>(walk: &mut Walk<'_>, tag: &Tag<'_>, first: P) -> Result<P, DocFail>
    ensures { Steps P.seen walk.old walk.new result
        (counted_step P.child (P.seen first) tag.now) }
{
    let parts = read_whole(walk, tag, first)?;
    walk.count()?;
    Ok(parts)
}

/// Reads all children of the element whose start tag was given, of which this is known at first,
/// and its end, and puts what is known then in its place.
pub fn hold<P: Parts>(
    walk: &mut Walk<'_>,
    tag: &Tag<'_>,
    first: P,
    into: &mut P,
) -> Result<(), DocFail>
    ensures { Steps (λ _. P.seen into.new) walk.old walk.new result
        (contents_step P.child (P.seen first) tag.now) }
{
    let mut parts = first;
    contents(walk, tag, &mut parts)?;
    *into = parts;
    Ok(())
}
