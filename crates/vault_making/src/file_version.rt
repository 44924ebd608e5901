//! The version of file that a document needs.

ghost use Rattle.std.specs.Prelude.{◌≡◌, map};
ghost use Rattle.std.specs.List.{list_any};
ghost use Rattle.vault_model.specs.SeenDoc.{doc_seen};
ghost use Rattle.vault_model.specs.SeenNodes.{bare_version, entry_row, tree_seen};
ghost use Rattle.vault_making.specs.NeededVersion as spec;

use uuid_core::Uuid;
use vault_model::{Doc, Entry, FileVersion, Group, GroupContent, Icon, Item, Stamp, Version};

/// The later of two versions.
fn later(one: FileVersion, other: FileVersion) -> FileVersion
    ensures { result ≡ spec.later one other }
{
    match (one, other) {
        (FileVersion::V31, _) => other,
        (FileVersion::V40, FileVersion::V41) => FileVersion::V41,
        (FileVersion::V40, _) => FileVersion::V40,
        (FileVersion::V41, _) => FileVersion::V41,
    }
}

/// Reports whether a time is other than 0.
fn is_after_zero(time: Stamp) -> bool
    ensures { result ≡ spec.is_after_zero time }
{
    time.seconds() != 0
}

/// Reports whether one of some items has a time.
fn have_item_times(items: &[Item]) -> bool
    ensures { result ≡ list_any spec.has_item_time items.now }
{
    for item in items {
        if is_after_zero(item.changed) {
            return true;
        }
    }
    false
}

/// What the items of a group or of a version need.
fn items_need(items: &[Item]) -> FileVersion
    ensures { result ≡ spec.items_need items.now }
{
    if items.is_empty() {
        FileVersion::V31
    } else if have_item_times(items) {
        FileVersion::V41
    } else {
        FileVersion::V40
    }
}

/// Version 4.1 where something is there that is kept from 4.1 on, and otherwise the oldest version.
fn newest_if(is_there: bool) -> FileVersion
    ensures { result ≡ spec.newest_if is_there }
{
    if is_there {
        FileVersion::V41
    } else {
        FileVersion::V31
    }
}

/// What a version of an entry needs.
fn version_needs(version: &Version) -> FileVersion
    ensures { result ≡ spec.version_needs (bare_version version.now) }
{
    later(
        newest_if(!version.content.quality),
        items_need(version.content.items.as_slice()),
    )
}

/// What the versions of an entry need that are before its current one.
#[tactic(auto, using(crate::proofs::Later::later_of_three))]
fn history_needs(history: &[Version]) -> FileVersion
    ensures { result ≡ spec.latest_needed spec.version_needs (map bare_version history.now) }
{
    let mut needed = FileVersion::V31;
    for version in history {
        needed = later(needed, version_needs(version));
    }
    needed
}

/// What a previous parent needs.
fn previous_needs(previous: &Uuid) -> FileVersion
    ensures { result ≡ spec.previous_needs previous.now }
{
    newest_if(!previous.cmp(&Uuid::nil()).is_eq())
}

/// What an entry needs.
fn entry_needs(entry: &Entry) -> FileVersion
    ensures { result ≡ spec.entry_needs (entry_row entry.now) }
{
    let versions = later(
        version_needs(&entry.current),
        history_needs(entry.history.as_slice()),
    );
    later(previous_needs(&entry.previous), versions)
}

/// What some entries need.
#[tactic(auto, using(crate::proofs::Later::later_of_three))]
fn entries_need(entries: &[Entry]) -> FileVersion
    ensures { result ≡ spec.latest_needed spec.entry_needs (map entry_row entries.now) }
{
    let mut needed = FileVersion::V31;
    for entry in entries {
        needed = later(needed, entry_needs(entry));
    }
    needed
}

/// What a group needs, without what is in it.
fn group_needs(previous: &Uuid, content: &GroupContent) -> FileVersion
    ensures { result ≡ spec.later (spec.previous_needs previous.now)
        (spec.later (spec.newest_if (spec.is_filled content.now.tags)) (spec.items_need
        content.now.items)) }
{
    let said = later(
        newest_if(content.tags.len() > 0),
        items_need(content.items.as_slice()),
    );
    later(previous_needs(previous), said)
}

/// What a group needs, with all below it.
#[tactic(auto, using(crate::proofs::Later::later_of_three))]
fn tree_needs(group: &Group) -> FileVersion
    ensures { result ≡ spec.tree_needs (tree_seen group.now) }
{
    let mut below = FileVersion::V31;
    for child in group.groups.as_slice() {
        below = later(below, tree_needs(child));
    }
    let inside = later(entries_need(group.entries.as_slice()), below);
    later(group_needs(&group.previous, &group.state.content), inside)
}

/// What some icons need.
#[tactic(auto, using(crate::proofs::Later::later_of_three))]
fn icons_need(icons: &[Icon]) -> FileVersion
    ensures { result ≡ spec.latest_needed spec.icon_needs icons.now }
{
    let mut needed = FileVersion::V31;
    for icon in icons {
        needed = later(
            needed,
            newest_if(icon.name.len() > 0 || is_after_zero(icon.changed)),
        );
    }
    needed
}

/// The least version of a KDBX file in which nothing of a document is lost: 4.1 where a group has
/// tags, a node a previous parent, a version of an entry does not count in reports, an icon has a
/// name or a time, or an item has a time; otherwise 4.0 where a group or a version of an entry has
/// custom items; otherwise 3.1. Takes no memory.
#[tactic(auto, unfolding(crate::specs::NeededVersion::needed_version))]
pub fn needed(doc: &Doc) -> FileVersion
    ensures { result ≡ spec.needed_version (doc_seen doc.now) }
{
    let items = newest_if(have_item_times(doc.meta.items.as_slice()));
    let meta = later(icons_need(doc.meta.icons.as_slice()), items);
    later(tree_needs(&doc.root), meta)
}
