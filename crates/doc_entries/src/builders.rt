//! Entries and history items before their end, and the versions that they make.

ghost use Rattle.std.specs.Prelude.{◌≡◌, [], map, None, Ok};
ghost use Rattle.vault_model.specs.Db.{nil_id};
ghost use Rattle.vault_model.specs.Seen.{bare_content, bare_field};
ghost use Rattle.doc_entries.specs.SeenBuilders.{entry_known};
ghost use Rattle.doc_forms.specs.Entries as spec;
ghost use Rattle.doc_forms.specs.Refusals.{Returns};
ghost use Rattle.doc_forms.specs.SeenDrafts.{attachment_seen, version_seen};

use crate::auto_types::no_auto_type;
use doc_forms::{AttachmentDraft, DocFail, Times, VersionDraft};
use doc_walk::doc_values::KeyedList;
use doc_walk::{never, no_times};
use outside_core::{List, Text};
use std::alloc::Global;
use uuid_core::Uuid;
use vault_model::{Content, Field, Stats, Version};

/// What is known of an entry, or of a history item, before its end. Its content has neither times
/// nor fields: they are beside it.
#[derive(Drop)]
pub(crate) struct EntryBuilder {
    pub(crate) id: Option<Uuid>,
    pub(crate) previous: Uuid,
    pub(crate) times: Times,
    pub(crate) content: Content,
    pub(crate) fields: KeyedList<Field>,
    pub(crate) attachments: KeyedList<AttachmentDraft>,
    pub(crate) history: Vec<VersionDraft>,
}

/// The content of a version of which nothing is known yet.
fn no_content(alloc: Global) -> Content
    ensures { bare_content result ≡ spec.no_content }
{
    Content {
        created: never(),
        expiry: never(),
        expires: false,
        icon: 0,
        custom_icon: None,
        fields: List::new(alloc),
        attachments: List::new(alloc),
        tags: Text::new(alloc),
        fore: Text::new(alloc),
        back: Text::new(alloc),
        url_override: Text::new(alloc),
        auto_type: no_auto_type(alloc),
        items: List::new(alloc),
        quality: true,
    }
}

/// An entry or a history item of which nothing is known yet.
pub(crate) fn no_entry(alloc: Global) -> EntryBuilder
    ensures { entry_known result ≡ spec.no_entry }
{
    EntryBuilder {
        id: None,
        previous: Uuid::nil(),
        times: no_times(),
        content: no_content(alloc),
        fields: KeyedList::new(alloc),
        attachments: KeyedList::new(alloc),
        history: Vec::new(alloc),
    }
}

/// Puts a field into an entry, in the place of that of its key.
pub(crate) fn put_field(known: &mut EntryBuilder, field: Field) -> Result<(), DocFail>
    ensures { Returns (λ _. entry_known known.new) result
        (Ok (spec.with_field (entry_known known.old) (bare_field field))) }
{
    known.fields.put(field)
}

/// Puts an attachment into an entry, in the place of that of its name.
pub(crate) fn put_attachment(
    known: &mut EntryBuilder,
    attachment: AttachmentDraft,
) -> Result<(), DocFail>
    ensures { Returns (λ _. entry_known known.new) result
        (Ok (spec.with_attachment (entry_known known.old) (attachment_seen attachment))) }
{
    known.attachments.put(attachment)
}

/// The version that an entry or a history item makes. Its fields take no more memory than they need.
pub(crate) fn version_of(
    times: Times,
    content: Content,
    fields: KeyedList<Field>,
    attachments: KeyedList<AttachmentDraft>,
) -> VersionDraft
    ensures { version_seen result ≡ spec.version_of (record {
      id = None;
      previous = nil_id;
      times = times;
      content = record (bare_content content) { fields = map bare_field fields };
      attachments = map attachment_seen attachments;
      history = [];
    }) }
{
    let mut content = content;
    content.created = times.created;
    content.expiry = times.expiry;
    content.expires = times.expires;
    content.fields = fields.into_list();
    content.fields.fit();
    VersionDraft {
        version: Version {
            modified: times.modified,
            content,
            stats: Stats {
                accessed: times.accessed,
                usage: times.usage,
            },
        },
        attachments: attachments.into_list(),
    }
}
