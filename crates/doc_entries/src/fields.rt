//! Fields of entries.

ghost use Rattle.std.specs.Prelude.{Ok};
ghost use Rattle.vault_model.specs.Bare.{BareField};
ghost use Rattle.vault_model.specs.Seen.{bare_field};
ghost use Rattle.doc_forms.specs.Children.{by_name};
ghost use Rattle.doc_forms.specs.Entries as spec;
ghost use Rattle.doc_forms.specs.Refusals.{Returns};
ghost use Rattle.doc_walk.specs.Steps.{Steps};
ghost use Rattle.doc_walk.specs.Tags.{contents_step};

use doc_forms::DocFail;
use doc_walk::doc_values::{SecretText, TextValue, no_text};
use doc_walk::{Parts, Tag, Walk, read_whole};
use outside_core::Text;
use std::alloc::Global;
use vault_model::Field;

/// What is known of a `String` before its end.
#[derive(Drop)]
struct FieldDraft {
    field: Field,
}

/// A field of which nothing is known yet.
fn no_field(alloc: Global) -> Result<Field, DocFail>
    ensures { Returns bare_field result (Ok spec.no_field) }
{
    match no_text(alloc) {
        Ok(value) => Ok(Field {
            key: Text::new(alloc),
            value,
            hidden: false,
        }),
        Err(refusal) => Err(refusal),
    }
}

impl Parts for FieldDraft {
    ghost Bare = { BareField };

    ghost seen = { λ d. bare_field d.field };

    ghost child = { λ s. by_name s (spec.field_rows s) };

    fn read_child(&mut self, walk: &mut Walk<'_>, tag: &Tag<'_>) -> Result<(), DocFail> {
        match tag.name {
            "Key" => walk.keep::<TextValue>(tag, &mut self.field.key),
            "Value" => {
                let hidden = walk.is_hidden(tag)?;
                self.field.hidden = hidden;
                walk.keep::<SecretText>(tag, &mut self.field.value)
            }
            _ => walk.pass(tag),
        }
    }
}

/// The field whose start tag was given.
pub(crate) fn field(walk: &mut Walk<'_>, tag: &Tag<'_>) -> Result<Field, DocFail>
    ensures { Steps bare_field walk.old walk.new result
        (contents_step (λ s. by_name s (spec.field_rows s)) spec.no_field tag.now) }
{
    let first = FieldDraft {
        field: no_field(walk.alloc())?,
    };
    match read_whole(walk, tag, first) {
        Ok(draft) => Ok(draft.field),
        Err(refusal) => Err(refusal),
    }
}
