//! A walk over the elements of a document: what is read from, and how far it has been read.

ghost use Rattle.std.specs.Prelude.{◌≡◌, ◌++◌, length, Ok};
ghost use Rattle.doc_values.specs.MarkupCore.Next.{Answers};
ghost use Rattle.doc_forms.specs.Children.{count_node};
ghost use Rattle.doc_forms.specs.ElementTexts as spec;
ghost use Rattle.doc_forms.specs.Refusals.{Returns};
ghost use Rattle.doc_forms.specs.SeenTexts.{text_seen, setting_of};
ghost use Rattle.doc_forms.specs.StreamCore.InnerStream.{IsAt};
ghost use Rattle.doc_walk.specs.Steps.{Steps, course_of};
ghost use Rattle.doc_walk.specs.Tags.{text_step, check_step, value_step, pass_step};

use doc_forms::stream_core::InnerStream;
use doc_forms::{Cursor, DocFail, ElementText};
use doc_values::markup_core::{Attrs, MarkupFail, Piece, Reader};
use doc_values::text_core::trim;
use doc_values::{Kind, appended, base64_bytes, bytes_of, is_hidden, is_marked, no_text};
use secret_core::Secret;
use std::alloc::Global;
use std::marker::Model;
use vault_model::DocForm;

/// The most bytes that a stream hides. No text that a document may have comes near it.
const STREAM_END: u64 = 274_877_906_944;

/// A start tag that was given.
#[derive(Clone, Copy)]
pub struct Tag<'t> {
    pub name: &'t str,
    pub attrs: Attrs<'t>,
    pub offset: usize,
}

/// What a document is read from, and how much of it has been read.
#[derive(Drop)]
pub struct Walk<'t> {
    alloc: Global,
    form: DocForm,
    reader: Reader<'t>,
    stream: InnerStream,
    at: Cursor,
}

impl<'t> Model for Walk<'t> {
    ghost use Rattle.doc_forms.specs.StreamCore.InnerStream.{IsAt};
    ghost use Rattle.doc_forms.specs.SeenTexts.{setting_of};
    ghost use Rattle.doc_walk.specs.Steps.{Course};

    ghost Value = { Course };

    ghost view = { λ w. record {
      setting = setting_of w.form w.stream;
      answers = w.reader;
      cursor =
          w.at;
    } };

    ghost invariant = { λ w. IsAt w.stream w.at.offset };
}

impl<'t> Walk<'t> {
    /// A walk from a cursor on, at which the stream is.
    pub fn new(
        alloc: Global,
        form: DocForm,
        reader: Reader<'t>,
        stream: InnerStream,
        at: Cursor,
    ) -> Walk<'t>
        requires { IsAt stream at.offset }
        ensures { result ≡ course_of (setting_of form stream) reader.entry at }
    {
        Walk {
            alloc,
            form,
            reader,
            stream,
            at,
        }
    }

    /// Whether a tag says that its value is not to be shown.
    pub fn is_hidden(&self, tag: &Tag<'_>) -> Result<bool, DocFail>
        ensures { Returns (λ b. b) result (Ok (spec.is_hidden tag.now.attrs.raw.now)) }
    {
        is_hidden(self.alloc, &tag.attrs)
    }

    /// One more group, entry or history item has ended.
    pub fn count(&mut self) -> Result<(), DocFail>
        ensures gives { Returns (λ _. self.new.cursor) result (count_node self.old.cursor) }
        ensures answers { self.new.answers ≡ self.old.answers }
        ensures setting { self.new.setting ≡ self.old.setting }
    {
        if self.at.nodes >= 262_144 {
            return Err(DocFail::TooMany(262_145));
        }
        self.at.nodes += 1;
        Ok(())
    }

    /// The form of the document.
    pub fn form(&self) -> DocForm
        ensures { result ≡ self.now.setting.form }
    {
        self.form
    }

    /// The allocator from which memory comes.
    pub fn alloc(&self) -> Global {
        self.alloc
    }

    /// The next piece.
    pub fn next_piece(&mut self) -> Result<Piece<'t>, MarkupFail>
        ensures answers { Answers self.old.answers result self.new.answers }
        ensures setting { self.new.setting ≡ self.old.setting }
        ensures cursor { self.new.cursor ≡ self.old.cursor }
    {
        self.reader.next()
    }

    /// Bytes that the stream hides, in the clear.
    fn revealed(&mut self, bytes: Secret) -> Result<ElementText, DocFail>
        ensures gives { Returns (λ t. (text_seen t, self.new.cursor)) result
            (Ok (spec.revealed_text self.old.setting.keystream bytes.bytes self.old.cursor)) }
        ensures answers { self.new.answers ≡ self.old.answers }
        ensures setting { self.new.setting ≡ self.old.setting }
    {
        let len = bytes.len() as u64;
        let at = self.at;
        if len > STREAM_END || at.offset > STREAM_END - len {
            return Err(DocFail::NoMemory);
        }
        let mut bytes = bytes;
        self.stream.apply(bytes.lend_mut());
        self.at = Cursor {
            offset: at.offset + len,
            nodes: at.nodes,
        };
        Ok(ElementText {
            bytes,
            is_hidden: true,
        })
    }

    /// What an element says at its end, by its own text.
    pub fn own_text(&mut self, tag: &Tag<'_>, text: Secret) -> Result<ElementText, DocFail>
        ensures gives { Returns (λ t. (text_seen t, self.new.cursor)) result
            (spec.text_at_end self.old.setting tag.now.offset tag.now.attrs.raw.now text.bytes
            self.old.cursor) }
        ensures answers { self.new.answers ≡ self.old.answers }
        ensures setting { self.new.setting ≡ self.old.setting }
    {
        if !is_marked(self.alloc, &tag.attrs, "Protected")? {
            return Ok(ElementText {
                bytes: text,
                is_hidden: false,
            });
        }
        if matches!(self.form, DocForm::Plain) {
            return Err(DocFail::BadValue(tag.offset));
        }
        match base64_bytes(self.alloc, trim(bytes_of(&text)))? {
            Some(bytes) => self.revealed(bytes),
            None => Err(DocFail::BadValue(tag.offset)),
        }
    }

    /// What the element says whose start tag was given. The elements in it are passed over.
    pub fn element_text(&mut self, tag: &Tag<'_>) -> Result<ElementText, DocFail>
        ensures { Steps text_seen self.old self.new result (text_step tag.now) }
    {
        let mut text = no_text(self.alloc())?;
        'pieces: loop {
            match self.next_piece() {
                Ok(
                    Piece::Start {
                        name,
                        attrs,
                        place: offset,
                    },
                ) => {
                    let child = Tag {
                        name,
                        attrs,
                        offset,
                    };
                    let _ = self.element_text(&child)?;
                }
                Ok(Piece::Words { raw, place: _ }) => text = appended(self.alloc(), text, raw)?,
                Ok(Piece::Stop { place: _ }) => return self.own_text(tag, text),
                Ok(Piece::Finish) => return Err(DocFail::NoMemory),
                Err(MarkupFail::Form(at)) => return Err(DocFail::Form(at)),
                Err(MarkupFail::Depth(at)) => return Err(DocFail::Depth(at)),
            }
        }
    }

    /// The value of the element whose start tag was given.
    pub fn value<K: Kind>(&mut self, tag: &Tag<'_>) -> Result<K::Value, DocFail>
        ensures { Steps K.seen self.old self.new result (value_step K.rule tag.now) }
    {
        let text = self.element_text(tag)?;
        match K::from_text(self.alloc(), text)? {
            Some(value) => Ok(value),
            None => Err(DocFail::BadValue(tag.offset)),
        }
    }

    /// An element of which only the kind of its value counts.
    pub fn check<K: Kind>(&mut self, tag: &Tag<'_>) -> Result<(), DocFail>
        ensures { Steps (λ _. tt {0}) self.old self.new result (check_step K.rule tag.now) }
    {
        let _ = self.value::<K>(tag)?;
        Ok(())
    }

    /// Passes the element over whose start tag was given.
    pub fn pass(&mut self, tag: &Tag<'_>) -> Result<(), DocFail>
        ensures { Steps (λ _. tt {0}) self.old self.new result (pass_step tag.now) }
    {
        let _ = self.element_text(tag)?;
        Ok(())
    }

    /// The value of the element whose start tag was given, put in its place.
    pub fn keep<K: Kind>(&mut self, tag: &Tag<'_>, into: &mut K::Value) -> Result<(), DocFail>
        ensures { Steps (λ _. K.seen into.new) self.old self.new result
            (value_step K.rule tag.now) }
    {
        *into = self.value::<K>(tag)?;
        Ok(())
    }
}
