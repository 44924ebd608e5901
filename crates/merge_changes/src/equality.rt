//! Tests whether two documents are equal, part by part.
ghost use Rattle.std.specs.Prelude.{◌≡◌, true, map};
ghost use Rattle.std.specs.Cmp.Lexicographic.{slice_cmp};
ghost use Rattle.std.specs.Ordering.{eq_by_cmp};
ghost use Rattle.vault_model.specs.Join.{timed_cmp};
ghost use Rattle.vault_model.specs.Orders.{bin_cmp, bytes_cmp, icon_cmp, item_cmp, settings_cmp};
ghost use Rattle.vault_model.specs.Seen.{bare_content};
ghost use Rattle.vault_model.specs.SeenDoc.{doc_seen};
ghost use Rattle.vault_model.specs.SeenNodes.{bare_version, entry_row, tree_seen};
ghost use Rattle.merge_changes.specs.Equality.{same_all, same_choices, same_doc, same_entry, same_meta, same_meta_view, same_parts, same_state, same_stats, same_texts, same_tomb, same_tree, same_version, same_view};

use merge_tables::icons::compare_icons;
use merge_tables::metas::{compare_bins, compare_settings};
use outside_core::Text;
use uuid_core::Uuid;
use vault_model::{
    Bin, Doc, Entry, Group, GroupState, GroupView, Icon, Item, Meta, MetaSettings, MetaView, Stats,
    Timed, Tombstone, Version, compare_content, compare_group,
};

/// Whether two uses are equal.
fn same_stats(first: Stats, second: Stats) -> bool
    ensures { result ≡ same_stats first second }
{
    first.accessed.cmp(&second.accessed).is_eq() && first.usage.cmp(&second.usage).is_eq()
}

/// Whether two versions are equal.
fn same_version(first: &Version, second: &Version) -> bool
    ensures { result ≡ same_version (bare_version first.now) (bare_version second.now) }
{
    first.modified.cmp(&second.modified).is_eq()
        && compare_content(&first.content, &second.content).is_eq()
        && same_stats(first.stats, second.stats)
}

/// Whether two lists of versions are equal.
fn same_history(first: &[Version], second: &[Version]) -> bool
    ensures { result ≡ same_all same_version (map bare_version first.now)
        (map bare_version second.now) }
{
    if first.len() != second.len() {
        return false;
    }
    for (at, version) in first.iter().enumerate() {
        if !same_version(version, &second[at]) {
            return false;
        }
    }
    true
}

/// Whether two entries are equal.
fn same_entry(first: &Entry, second: &Entry) -> bool
    ensures { result ≡ same_entry (entry_row first.now) (entry_row second.now) }
{
    first.id.cmp(&second.id).is_eq()
        && first.placed.cmp(&second.placed).is_eq()
        && first.previous.cmp(&second.previous).is_eq()
        && same_version(&first.current, &second.current)
        && same_history(first.history.as_slice(), second.history.as_slice())
}

/// Whether two lists of entries are equal.
fn same_entries(first: &[Entry], second: &[Entry]) -> bool
    ensures { result ≡ same_all same_entry (map entry_row first.now) (map entry_row second.now) }
{
    if first.len() != second.len() {
        return false;
    }
    for (at, entry) in first.iter().enumerate() {
        if !same_entry(entry, &second[at]) {
            return false;
        }
    }
    true
}

/// Whether the states of two groups are equal.
fn same_state(first: &GroupState, second: &GroupState) -> bool
    ensures { result ≡ same_state first.now second.now }
{
    first.modified.cmp(&second.modified).is_eq()
        && compare_group(&first.content, &second.content).is_eq()
        && same_stats(first.stats, second.stats)
}

/// Whether two groups were looked at in the same way.
fn same_view(first: GroupView, second: GroupView) -> bool
    ensures { result ≡ same_view first second }
{
    first.expanded.cmp(&second.expanded).is_eq() && first.top_entry.cmp(&second.top_entry).is_eq()
}

/// Whether two groups are equal but for the groups in them.
fn same_parts(first: &Group, second: &Group) -> bool
    ensures { result ≡ same_parts first.now second.now }
{
    first.id.cmp(&second.id).is_eq()
        && first.placed.cmp(&second.placed).is_eq()
        && first.previous.cmp(&second.previous).is_eq()
        && same_state(&first.state, &second.state)
        && same_view(first.view, second.view)
        && same_entries(first.entries.as_slice(), second.entries.as_slice())
}

/// Whether two groups with all below them are equal.
#[tactic(auto, using(crate::proofs::SeenGroups::same_seen, crate::proofs::Pairs::unlike))]
pub fn same_group(first: &Group, second: &Group) -> bool
    ensures { result ≡ same_tree (tree_seen first.now) (tree_seen second.now) }
{
    let groups = first.groups.as_slice();
    let others = second.groups.as_slice();
    if !same_parts(first, second) {
        return false;
    }
    if groups.len() != others.len() {
        return false;
    }
    for (at, group) in groups.iter().enumerate() {
        if !same_group(group, &others[at]) {
            return false;
        }
    }
    true
}

/// Whether two tombstones are equal.
fn same_tomb(first: Tombstone, second: Tombstone) -> bool
    ensures { result ≡ same_tomb first second }
{
    first.id.cmp(&second.id).is_eq() && first.deleted.cmp(&second.deleted).is_eq()
}

/// Whether two lists of tombstones are equal.
pub fn same_tombs(first: &[Tombstone], second: &[Tombstone]) -> bool
    ensures { result ≡ same_all same_tomb first.now second.now }
{
    if first.len() != second.len() {
        return false;
    }
    for (at, tomb) in first.iter().enumerate() {
        if !same_tomb(*tomb, second[at]) {
            return false;
        }
    }
    true
}

/// Whether two texts and the times of their changes are equal.
fn same_text(first: &Timed<Text>, second: &Timed<Text>) -> bool
    ensures { result ≡ eq_by_cmp (timed_cmp bytes_cmp) first.now second.now }
{
    let order = first
        .changed
        .cmp(&second.changed)
        .then(first.value.cmp(&second.value));
    order.is_eq()
}

/// The same of ids.
fn same_id(first: &Timed<Uuid>, second: &Timed<Uuid>) -> bool
    ensures { result ≡ eq_by_cmp (timed_cmp bytes_cmp) first.now second.now }
{
    let order = first
        .changed
        .cmp(&second.changed)
        .then(first.value.cmp(&second.value));
    order.is_eq()
}

/// The same of bins.
fn same_bin(first: &Timed<Bin>, second: &Timed<Bin>) -> bool
    ensures { result ≡ eq_by_cmp (timed_cmp bin_cmp) first.now second.now }
{
    let order = first
        .changed
        .cmp(&second.changed)
        .then(compare_bins(&first.value, &second.value));
    order.is_eq()
}

/// The same of settings.
fn same_settings(first: &Timed<MetaSettings>, second: &Timed<MetaSettings>) -> bool
    ensures { result ≡ eq_by_cmp (timed_cmp settings_cmp) first.now second.now }
{
    let order = first
        .changed
        .cmp(&second.changed)
        .then(compare_settings(&first.value, &second.value));
    order.is_eq()
}

/// Whether two documents' texts are equal.
fn same_texts(first: &Meta, second: &Meta) -> bool
    ensures { result ≡ same_texts first.now second.now }
{
    same_text(&first.name, &second.name)
        && same_text(&first.description, &second.description)
        && same_text(&first.user, &second.user)
}

/// Whether two documents' settings are equal.
fn same_choices(first: &Meta, second: &Meta) -> bool
    ensures { result ≡ same_choices first.now second.now }
{
    same_bin(&first.bin, &second.bin)
        && same_id(&first.templates, &second.templates)
        && same_settings(&first.settings, &second.settings)
}

/// Whether two lists of icons are equal.
fn same_icons(first: &[Icon], second: &[Icon]) -> bool
    ensures { result ≡ same_all (eq_by_cmp icon_cmp) first.now second.now }
{
    if first.len() != second.len() {
        return false;
    }
    for (at, icon) in first.iter().enumerate() {
        if !compare_icons(icon, &second[at]).is_eq() {
            return false;
        }
    }
    true
}

/// Whether two lists of custom items are equal.
#[tactic(auto, unfolding(vault_model::specs::Orders::item_cmp))]
fn same_items(first: &[Item], second: &[Item]) -> bool
    ensures { result ≡ eq_by_cmp (slice_cmp item_cmp) first.now second.now }
{
    first.cmp(second).is_eq()
}

/// Whether two documents were looked at in the same way.
fn same_meta_view(first: MetaView, second: MetaView) -> bool
    ensures { result ≡ same_meta_view first second }
{
    first.key_changed.cmp(&second.key_changed).is_eq()
        && first.last_group.cmp(&second.last_group).is_eq()
        && first.last_top.cmp(&second.last_top).is_eq()
}

/// Whether what two documents say of themselves is equal.
pub fn same_meta(first: &Meta, second: &Meta) -> bool
    ensures { result ≡ same_meta first.now second.now }
{
    same_texts(first, second)
        && same_choices(first, second)
        && same_icons(first.icons.as_slice(), second.icons.as_slice())
        && same_items(first.items.as_slice(), second.items.as_slice())
        && same_meta_view(first.view, second.view)
}

/// The test of two documents, part by part.
fn same_doc_parts(first: &Doc, second: &Doc) -> bool
    ensures { result ≡ same_doc (doc_seen first.now) (doc_seen second.now) }
{
    same_group(&first.root, &second.root)
        && same_tombs(first.tombs.as_slice(), second.tombs.as_slice())
        && same_meta(&first.meta, &second.meta)
}

/// Whether two documents are equal.
pub fn same_doc(first: &Doc, second: &Doc) -> bool
    ensures test { result ≡ same_doc (doc_seen first.now) (doc_seen second.now) }
    ensures same { result ≡ true → doc_seen first.now ≡ doc_seen second.now }
    ensures equal { doc_seen first.now ≡ doc_seen second.now → result ≡ true }
{
    same_doc_parts(first, second)
}
