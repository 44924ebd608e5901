//! Imported entries get their ids, one after another.

ghost use Rattle.std.specs.Prelude.{◌≡◌, ◌≢◌, ◌<◌, ◌-◌, ◌^◌, [], ◌++◌, IfOk, List, OnOk, length, map};
ghost use Rattle.import_ids.specs.Counts.{GivesId, HasCounted};
ghost use Rattle.import_ids.specs.Names as names;
ghost use Rattle.import_tree.specs.Entries.{texts_of};
ghost use Rattle.import_tree.specs.Placing.{Adds};
ghost use Rattle.import_tree.specs.SeenDrafts.{draft_seen, placed_seen};
ghost use Rattle.import_tree.specs.SeenEntries.{imported_seen};
ghost use Rattle.import_tree.specs.Trees.{document_of, placed_after};
ghost use Rattle.vault_model.specs.Db.{nil_id};

use crate::drafts::{ImportDraft, ImportedPlace};
use crate::entries::entry_of;
use crate::imported::ImportedEntry;
use import_ids::{EntryTexts, NameCounts};
use outside_core::{List, NoMemory};
use secret_core::Secret;
use std::alloc::Global;
use std::mem;
use uuid_core::Uuid;
use vault_model::Stamp;

// All bytes of a secret.
fn all_of(secret: &Secret) -> &[u8]
    ensures { result.now ≡ secret.now.bytes }
{
    secret.lend(0, secret.len())
}

// The id of the next entry of a source, which is counted.
fn next_id(alloc: Global, counts: &mut NameCounts, entry: &ImportedEntry) -> Result<Uuid, NoMemory>
    ensures gives { (before : List names.EntryTexts) → HasCounted counts.old before
        → length before < 2 ^ 64 - 1
        → IfOk result (λ id. GivesId before entry.now.id (texts_of (imported_seen entry.now)) id
        counts.new) }
    ensures not_nil { IfOk result (λ id. id ≢ nil_id) }
{
    let texts = EntryTexts {
        groups: entry.groups.as_slice(),
        title: all_of(&entry.title),
        user: all_of(&entry.user),
        url: all_of(&entry.url),
    };
    counts.next_id(alloc, entry.id, texts)
}

// Places an entry of a source after those before it, under its id.
fn add_imported(
    alloc: Global,
    now: Stamp,
    counts: &mut NameCounts,
    placed: &mut Vec<ImportedPlace>,
    mut entry: ImportedEntry,
) -> Result<(), NoMemory>
    ensures { OnOk result (Adds now (imported_seen entry) counts.old
        (map placed_seen placed.old.items) counts.new (map placed_seen placed.new.items)) }
{
    let id = next_id(alloc, counts, &entry)?;
    let names = mem::replace(&mut entry.groups, List::new(alloc));
    let made = entry_of(alloc, now, id, entry)?;
    placed.push(ImportedPlace::of_entry(now, names, made))?;
    Ok(())
}

// Places the entries of a source, one after another.
fn add_all(
    alloc: Global,
    now: Stamp,
    counts: &mut NameCounts,
    placed: &mut Vec<ImportedPlace>,
    entries: Vec<ImportedEntry>,
) -> Result<(), NoMemory>
    ensures { HasCounted counts.old [] → OnOk result (map placed_seen placed.new.items
        ≡ map placed_seen placed.old.items
        ++ placed_after now [] (map imported_seen entries.items)) }
{
    for entry in entries {
        add_imported(alloc, now, counts, placed, entry)?;
    }
    Ok(())
}

/// What the entries of a source give, in their order, at a moment.
pub(crate) fn draft_of(
    alloc: Global,
    now: Stamp,
    entries: Vec<ImportedEntry>,
) -> Result<ImportDraft, NoMemory>
    ensures { IfOk result (λ draft. draft_seen draft
        ≡ document_of now (map imported_seen entries.items)) }
{
    let mut counts = NameCounts::new(alloc);
    let mut placed = Vec::new(alloc);
    match add_all(alloc, now, &mut counts, &mut placed, entries) {
        Ok(()) => Ok(ImportDraft {
            moment: now,
            places: placed,
        }),
        Err(fail) => {
            drop(placed);
            Err(fail)
        }
    }
}
