//! The binaries that a document itself holds.

ghost use Rattle.std.specs.Prelude.{◌≡◌, List, [], ◌∷◌, ◌++◌, codes, map, option_and_then, Ok};
ghost use Rattle.markup_grammar.specs.Attributes.{attribute_text};
ghost use Rattle.doc_forms.specs.Children.{by_name};
ghost use Rattle.doc_forms.specs.Metas as spec;
ghost use Rattle.doc_forms.specs.Refusals.{Returns};
ghost use Rattle.doc_forms.specs.SeenDrafts.{binary_seen};
ghost use Rattle.doc_forms.specs.SeenTexts.{text_seen};
ghost use Rattle.doc_forms.specs.Values.{number64};
ghost use Rattle.doc_metas.specs.BinaryTexts.{binary_by_text};
ghost use Rattle.doc_walk.specs.Steps.{Steps};
ghost use Rattle.doc_walk.specs.Tags.{child_step, contents_step};

use doc_forms::{Binary, DocFail, ElementText};
use doc_walk::doc_values::{Kind, SecretBytes, bytes_of, is_hidden, is_marked, number64, resolved};
use doc_walk::markup_core::Attrs;
use doc_walk::{Parts, Tag, Walk, read_whole};
use outside_core::List;
use secret_core::Secret;
use std::alloc::Global;
use std::rc::Rc;

/// The number that the tag's attribute `ID` writes.
fn own_number(alloc: Global, attrs: &Attrs<'_>) -> Result<Option<u64>, DocFail>
    ensures { Returns (λ o. o) result
        (Ok (option_and_then number64 (attribute_text attrs.now.raw.now (codes "ID")))) }
{
    let Some(raw) = attrs.get("ID") else {
        return Ok(None);
    };
    let text = resolved(alloc, raw)?;
    Ok(number64(bytes_of(&text)))
}

/// Bytes that several may share.
fn shared(alloc: Global, bytes: Secret) -> Result<Rc<Secret>, DocFail>
    ensures { Returns (λ b. b.value.bytes) result (Ok bytes.bytes) }
{
    match Rc::new(alloc, bytes) {
        Ok(bytes) => Ok(bytes),
        Err(_) => Err(DocFail::NoMemory),
    }
}

/// The binary of an element with this start tag and this text.
fn binary_of(alloc: Global, tag: &Tag<'_>, text: ElementText) -> Result<Binary, DocFail>
    ensures { Returns binary_seen result
        (binary_by_text tag.now.offset tag.now.attrs.raw.now (text_seen text)) }
{
    let Some(number) = own_number(alloc, &tag.attrs)? else {
        return Err(DocFail::BadValue(tag.offset));
    };
    let Some(bytes) = SecretBytes::from_text(alloc, text)? else {
        return Err(DocFail::BadValue(tag.offset));
    };
    if is_marked(alloc, &tag.attrs, "Compressed")? {
        return Err(DocFail::Compressed(tag.offset));
    }
    let hidden = is_hidden(alloc, &tag.attrs)?;
    let bytes = shared(alloc, bytes)?;
    Ok(Binary {
        number,
        bytes,
        hidden,
    })
}

/// Appends a binary to others.
fn add_binary(binaries: &mut List<Binary>, binary: Binary) -> Result<(), DocFail>
    ensures { Returns (λ _. map binary_seen binaries.new) result
        (Ok (map binary_seen binaries.old ++ binary_seen binary ∷ [])) }
{
    match binaries.push(binary) {
        Ok(()) => Ok(()),
        Err(_) => Err(DocFail::NoMemory),
    }
}

/// What is known of a `Binaries` before its end.
#[derive(Drop)]
struct BinariesDraft {
    binaries: List<Binary>,
}

/// The binary whose start tag was given, after those before it.
fn binary(draft: &mut BinariesDraft, walk: &mut Walk<'_>, tag: &Tag<'_>) -> Result<(), DocFail>
    ensures { Steps (λ _. map binary_seen draft.new.binaries) walk.old walk.new result
        (child_step spec.binary (map binary_seen draft.old.binaries) tag.now) }
{
    let text = walk.element_text(tag)?;
    let binary = binary_of(walk.alloc(), tag, text)?;
    add_binary(&mut draft.binaries, binary)
}

impl Parts for BinariesDraft {
    ghost use Rattle.doc_forms.specs.Metas.{ReadBinary};

    ghost Bare = { List ReadBinary };

    ghost seen = { λ d. map binary_seen d.binaries };

    ghost child = { λ s. by_name s (((codes "Binary", spec.binary s) ∷ [])) };

    fn read_child(&mut self, walk: &mut Walk<'_>, tag: &Tag<'_>) -> Result<(), DocFail> {
        match tag.name {
            "Binary" => binary(self, walk, tag),
            _ => walk.pass(tag),
        }
    }
}

/// The binaries of a `Binaries`, whose start tag was given, put in their place.
pub(crate) fn binaries(
    walk: &mut Walk<'_>,
    tag: &Tag<'_>,
    into: &mut List<Binary>,
) -> Result<(), DocFail>
    ensures { Steps (λ _. map binary_seen into.new) walk.old walk.new result
        (contents_step (λ s. by_name s ((codes "Binary", spec.binary s) ∷ [])) [] tag.now) }
{
    let first = BinariesDraft {
        binaries: List::new(walk.alloc()),
    };
    match read_whole(walk, tag, first) {
        Ok(draft) => {
            *into = draft.binaries;
            Ok(())
        }
        Err(refusal) => Err(refusal),
    }
}
