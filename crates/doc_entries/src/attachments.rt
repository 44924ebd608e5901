//! Attachments before their bytes are resolved.

ghost use Rattle.std.specs.Prelude.{◌≡◌, [], codes, Ok, option_map};
ghost use Rattle.markup_grammar.specs.Attributes.{attribute_text};
ghost use Rattle.markup_grammar.specs.Escapes.{unescaped};
ghost use Rattle.doc_entries.specs.AttachmentTexts.{value_by_text};
ghost use Rattle.doc_forms.specs.Children.{by_name};
ghost use Rattle.doc_forms.specs.Entries.{ReadAttachment};
ghost use Rattle.doc_forms.specs.Entries as spec;
ghost use Rattle.doc_forms.specs.Refusals.{Returns};
ghost use Rattle.doc_forms.specs.SeenDrafts.{attachment_seen, source_seen};
ghost use Rattle.doc_forms.specs.SeenTexts.{text_seen};
ghost use Rattle.doc_forms.specs.Values.{bytes_in, number64};
ghost use Rattle.doc_walk.specs.Steps.{Steps};
ghost use Rattle.doc_walk.specs.Tags.{child_step, contents_step};

use doc_forms::{AttachmentDraft, DocFail, ElementText, SourceDraft};
use doc_walk::doc_values::{
    Kind, SecretBytes, TextValue, bytes_of, is_hidden, is_marked, no_text, number64, resolved,
};
use doc_walk::markup_core::Attrs;
use doc_walk::{Parts, Tag, Walk, read_whole};
use outside_core::Text;
use secret_core::Secret;
use std::alloc::Global;
use std::rc::Rc;

/// Bytes of the attachment's own, which several may share.
fn own_source(alloc: Global, bytes: Secret) -> Result<SourceDraft, DocFail>
    ensures { Returns source_seen result (Ok (spec.own_bytes bytes.bytes)) }
{
    match Rc::new(alloc, bytes) {
        Ok(shared) => Ok(SourceDraft::OwnBytes(shared)),
        Err(_) => Err(DocFail::NoMemory),
    }
}

/// The bytes of an attachment whose `Value` has this text.
fn source_in_text(alloc: Global, text: ElementText) -> Result<Option<SourceDraft>, DocFail>
    ensures { Returns (λ o. option_map source_seen o) result
        (Ok (option_map spec.own_bytes (bytes_in (text_seen text)))) }
{
    match SecretBytes::from_text(alloc, text) {
        Ok(Some(bytes)) => Ok(Some(own_source(alloc, bytes)?)),
        Ok(None) => Ok(None),
        Err(refusal) => Err(refusal),
    }
}

/// The binary of a number, where there is one, to which a `Value` at an offset refers.
fn source_of_number(offset: usize, number: Option<u64>) -> Option<SourceDraft>
    ensures { option_map source_seen result ≡ option_map (spec.pool_number offset) number }
{
    match number {
        Some(number) => Some(SourceDraft::PoolNumber(offset, number)),
        None => None,
    }
}

/// The binary to which a `Value` that begins at an offset refers by this text.
fn source_in_pool(alloc: Global, offset: usize, raw: &str) -> Result<Option<SourceDraft>, DocFail>
    ensures { Returns (λ o. option_map source_seen o) result
        (Ok (option_map (spec.pool_number offset) (number64 (unescaped raw.now)))) }
{
    match resolved(alloc, raw) {
        Ok(digits) => Ok(source_of_number(offset, number64(bytes_of(&digits)))),
        Err(refusal) => Err(refusal),
    }
}

/// Where the bytes of an attachment are whose `Value` begins at an offset and has this text.
fn source_in(
    alloc: Global,
    offset: usize,
    attrs: &Attrs<'_>,
    text: ElementText,
) -> Result<Option<SourceDraft>, DocFail>
    ensures { Returns (λ o. option_map source_seen o) result
        (Ok (spec.source_in offset (attribute_text attrs.now.raw.now (codes "Ref"))
        (text_seen text))) }
{
    match attrs.get("Ref") {
        Some(raw) => source_in_pool(alloc, offset, raw),
        None => source_in_text(alloc, text),
    }
}

/// Whether a `Value` has bytes of its own that are marked as compressed.
fn is_compressed(alloc: Global, attrs: &Attrs<'_>) -> Result<bool, DocFail>
    ensures { Returns (λ b. b) result (Ok (spec.is_compressed attrs.now.raw.now)) }
{
    if attrs.get("Ref").is_some() {
        return Ok(false);
    }
    is_marked(alloc, attrs, "Compressed")
}

/// Puts what a `Value` with this start tag and this text says into its attachment.
fn put_value(
    attachment: &mut AttachmentDraft,
    alloc: Global,
    tag: &Tag<'_>,
    text: ElementText,
) -> Result<(), DocFail>
    ensures { Returns (λ _. attachment_seen attachment.new) result
        (value_by_text tag.now.offset tag.now.attrs.raw.now (attachment_seen attachment.old)
        (text_seen text)) }
{
    let Some(source) = source_in(alloc, tag.offset, &tag.attrs, text)? else {
        return Err(DocFail::BadValue(tag.offset));
    };
    attachment.source = source;
    if is_compressed(alloc, &tag.attrs)? {
        return Err(DocFail::Compressed(tag.offset));
    }
    attachment.hidden = is_hidden(alloc, &tag.attrs)?;
    Ok(())
}

/// What is known of an entry's `Binary` before its end.
#[derive(Drop)]
struct AttachmentKnown {
    attachment: AttachmentDraft,
}

/// The `Value` of an attachment, whose start tag was given.
fn attachment_value(
    known: &mut AttachmentKnown,
    walk: &mut Walk<'_>,
    tag: &Tag<'_>,
) -> Result<(), DocFail>
    ensures { Steps (λ _. attachment_seen known.new.attachment) walk.old walk.new result
        (child_step spec.attachment_value (attachment_seen known.old.attachment) tag.now) }
{
    let text = walk.element_text(tag)?;
    put_value(&mut known.attachment, walk.alloc(), tag, text)
}

impl Parts for AttachmentKnown {
    ghost Bare = { ReadAttachment };

    ghost seen = { λ k. attachment_seen k.attachment };

    ghost child = { λ s. by_name s (spec.attachment_rows s) };

    fn read_child(&mut self, walk: &mut Walk<'_>, tag: &Tag<'_>) -> Result<(), DocFail> {
        match tag.name {
            "Key" => walk.keep::<TextValue>(tag, &mut self.attachment.name),
            "Value" => attachment_value(self, walk, tag),
            _ => walk.pass(tag),
        }
    }
}

/// No bytes, which are the attachment's own.
fn no_source(alloc: Global) -> Result<SourceDraft, DocFail>
    ensures { Returns source_seen result (Ok (spec.own_bytes [])) }
{
    match no_text(alloc) {
        Ok(bytes) => own_source(alloc, bytes),
        Err(refusal) => Err(refusal),
    }
}

/// An attachment of which nothing is known yet.
fn no_attachment(alloc: Global) -> Result<AttachmentDraft, DocFail>
    ensures { Returns attachment_seen result (Ok spec.no_attachment) }
{
    match no_source(alloc) {
        Ok(source) => Ok(AttachmentDraft {
            name: Text::new(alloc),
            source,
            hidden: false,
        }),
        Err(refusal) => Err(refusal),
    }
}

/// The attachment whose start tag was given.
pub(crate) fn attachment(walk: &mut Walk<'_>, tag: &Tag<'_>) -> Result<AttachmentDraft, DocFail>
    ensures { Steps attachment_seen walk.old walk.new result
        (contents_step (λ s. by_name s (spec.attachment_rows s)) spec.no_attachment tag.now) }
{
    let first = AttachmentKnown {
        attachment: no_attachment(walk.alloc())?,
    };
    match read_whole(walk, tag, first) {
        Ok(known) => Ok(known.attachment),
        Err(refusal) => Err(refusal),
    }
}
