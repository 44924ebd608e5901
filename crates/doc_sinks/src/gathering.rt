//! A pool, gathered in the order in which the written document names its binaries first.

ghost use Rattle.std.specs.Prelude.{◌≡◌, ◌++◌, [], ◌∷◌, OnOk, flat_map, map};
ghost use Rattle.doc_sinks.specs.Gathering.{Gathers};
ghost use Rattle.doc_spelling.specs.Pool.{entry_pairs, version_pairs};
ghost use Rattle.vault_model.specs.Seen.{bare_attachment};
ghost use Rattle.vault_model.specs.SeenNodes.{bare_version, entry_row, tree_seen};
ghost use Rattle.vault_model.specs.Tree.{entry_rows};

use crate::pairs::Pair;
use outside_core::{List, NoMemory};
use std::collections::BTreeMap;
use vault_model::{Attachment, Entry, Group, PoolItem, Version};

/// Puts an item after the others.
fn push<T: Drop>(list: &mut List<T>, item: T) -> Result<(), NoMemory>
    ensures { OnOk result (list.new ≡ list.old ++ item ∷ []) }
{
    match list.push(item) {
        Ok(()) => Ok(()),
        Err(_item) => Err(NoMemory),
    }
}

/// Gathers the bytes of an attachment, unless they are there. They are shared.
fn gather_attachment<'a>(
    items: &mut List<PoolItem>,
    numbers: &mut BTreeMap<Pair<'a>, u64>,
    file: &'a Attachment,
) -> Result<(), NoMemory>
    ensures { OnOk result (Gathers numbers.old items.old numbers.new items.new
        ((file.now.bytes.value.bytes, file.now.hidden) ∷ [])) }
{
    let pair = Pair::of(file);
    match numbers.get(&pair) {
        Some(_) => Ok(()),
        None => {
            let item = PoolItem {
                bytes: file.bytes.clone()?,
                hidden: file.hidden,
            };
            numbers.insert(pair, items.len() as u64)?;
            push(items, item)?;
            Ok(())
        }
    }
}

/// Gathers those of a version.
fn gather_version<'a>(
    items: &mut List<PoolItem>,
    numbers: &mut BTreeMap<Pair<'a>, u64>,
    version: &'a Version,
) -> Result<(), NoMemory>
    ensures { OnOk result (Gathers numbers.old items.old numbers.new items.new
        (version_pairs (bare_version version.now))) }
{
    for file in version.content.attachments.as_slice() {
        gather_attachment(items, numbers, file)?;
    }
    Ok(())
}

/// Gathers those of an entry: of its current version, and then of its history.
fn gather_entry<'a>(
    items: &mut List<PoolItem>,
    numbers: &mut BTreeMap<Pair<'a>, u64>,
    entry: &'a Entry,
) -> Result<(), NoMemory>
    ensures { OnOk result (Gathers numbers.old items.old numbers.new items.new
        (entry_pairs (entry_row entry.now))) }
{
    gather_version(items, numbers, &entry.current)?;
    for version in entry.history.as_slice() {
        gather_version(items, numbers, version)?;
    }
    Ok(())
}

/// Gathers those of entries.
fn gather_entries<'a>(
    items: &mut List<PoolItem>,
    numbers: &mut BTreeMap<Pair<'a>, u64>,
    entries: &'a [Entry],
) -> Result<(), NoMemory>
    ensures { OnOk result (Gathers numbers.old items.old numbers.new items.new
        (flat_map entry_pairs (map entry_row entries.now))) }
{
    for entry in entries {
        gather_entry(items, numbers, entry)?;
    }
    Ok(())
}

/// Gathers those of a group: of its entries, and then of its groups.
pub(crate) fn gather_group<'a>(
    items: &mut List<PoolItem>,
    numbers: &mut BTreeMap<Pair<'a>, u64>,
    group: &'a Group,
) -> Result<(), NoMemory>
    ensures { OnOk result (Gathers numbers.old items.old numbers.new items.new
        (flat_map entry_pairs (entry_rows (tree_seen group.now)))) }
{
    gather_entries(items, numbers, group.entries.as_slice())?;
    for below in group.groups.as_slice() {
        gather_group(items, numbers, below)?;
    }
    Ok(())
}
