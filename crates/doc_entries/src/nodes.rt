//! The ids of groups and entries.

ghost use Rattle.std.specs.Prelude.{Some};
ghost use Rattle.doc_forms.specs.Entries as entries_of;
ghost use Rattle.doc_forms.specs.Refusals.{Returns};

use doc_forms::{DocFail, RequiredElement};
use uuid_core::Uuid;

/// This id of a group or an entry that begins at the offset: it must not be the nil id.
fn unless_nil(offset: usize, id: Uuid) -> Result<Uuid, DocFail>
    ensures { Returns (λ u. u) result (entries_of.node_id offset (Some id)) }
{
    if id.is_nil() {
        return Err(DocFail::NilId(offset));
    }
    Ok(id)
}

/// The id of a group or an entry that begins at the offset: there must be one, and not the nil id.
pub fn node_id(offset: usize, id: Option<Uuid>) -> Result<Uuid, DocFail>
    ensures { Returns (λ u. u) result (entries_of.node_id offset id) }
{
    match id {
        None => Err(DocFail::MissingElement(RequiredElement::Uuid, offset)),
        Some(id) => unless_nil(offset, id),
    }
}
