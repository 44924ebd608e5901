//! Groups before and at their end.

ghost use Rattle.std.specs.Prelude.{◌≡◌, Ok};
ghost use Rattle.doc_forms.specs.Groups as spec;
ghost use Rattle.doc_forms.specs.Refusals.{Returns};
ghost use Rattle.doc_forms.specs.SeenDrafts.{draft_seen, group_parts_seen};

use doc_entries::doc_walk::{append, no_times};
use doc_forms::{DocFail, GroupBuilder, GroupDraft};
use outside_core::{List, Text};
use std::alloc::Global;
use uuid_core::Uuid;
use vault_model::{GroupContent, GroupState, GroupView, Stats, Tri};

/// A group of which nothing is known yet.
pub(crate) fn no_group(alloc: Global) -> GroupBuilder
    ensures { group_parts_seen result ≡ spec.no_group }
{
    let times = no_times();
    GroupBuilder {
        id: None,
        previous: Uuid::nil(),
        times,
        content: GroupContent {
            created: times.created,
            expiry: times.expiry,
            expires: false,
            name: Text::new(alloc),
            notes: Text::new(alloc),
            icon: 48,
            custom_icon: None,
            sequence: Text::new(alloc),
            auto_type: Tri::Inherit,
            searching: Tri::Inherit,
            items: List::new(alloc),
            tags: Text::new(alloc),
        },
        view: GroupView {
            expanded: true,
            top_entry: Uuid::nil(),
        },
        entries: Vec::new(alloc),
        groups: Vec::new(alloc),
    }
}

/// The id of a group, as far as it is known.
pub(crate) fn id_of(known: &GroupBuilder) -> Option<Uuid>
    ensures { result ≡ (group_parts_seen known.now).id }
{
    known.id
}

/// The group of an id of which all is known.
pub(crate) fn draft_of(id: Uuid, builder: GroupBuilder) -> GroupDraft
    ensures { draft_seen result ≡ spec.node id (spec.record_of (group_parts_seen builder))
        (group_parts_seen builder).entries (group_parts_seen builder).groups }
{
    let GroupBuilder {
        id: _,
        previous,
        times,
        content,
        view,
        entries,
        groups,
    } = builder;
    let mut content = content;
    content.created = times.created;
    content.expiry = times.expiry;
    content.expires = times.expires;
    GroupDraft {
        id,
        placed: times.placed,
        previous,
        state: GroupState {
            modified: times.modified,
            content,
            stats: Stats {
                accessed: times.accessed,
                usage: times.usage,
            },
        },
        view,
        entries,
        groups,
    }
}

/// Appends a group to those in a group.
pub(crate) fn add_group(known: &mut GroupBuilder, draft: GroupDraft) -> Result<(), DocFail>
    ensures { Returns (λ _. group_parts_seen known.new) result
        (Ok (record (group_parts_seen known.old) {
          groups = spec.append_tree (group_parts_seen known.old).groups (draft_seen draft);
        })) }
{
    append(&mut known.groups, draft)
}
