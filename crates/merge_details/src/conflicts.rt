//! The conflicts of a merge.
ghost use Rattle.std.specs.Prelude.{◌≡◌, IfOk, OnOk, if◌then◌else◌, map};
ghost use Rattle.std.specs.FinMap.{get, insert, entries};
ghost use Rattle.std.specs.List.{list_any};
ghost use Rattle.vault_model.specs.SeenDoc.{doc_seen};
ghost use Rattle.vault_model.specs.SeenNodes.{bare_version, entry_record};
ghost use Rattle.merge_details.specs.Conflicts as spec;
ghost use Rattle.merge_details.specs.Conflicts.{conflicts, conflicts_among, is_overtaken, lacks_version, same_mark};
ghost use Rattle.merge_details.specs.PathTables as table;
ghost use Rattle.merge_details.specs.Paths.{path_in};

use crate::conflict_tables::{ConflictKey, ConflictTable, ConflictTimes};
use crate::entries::{Entries, EntryRows, all_entries_of, entries_of, rows_of};
use crate::paths::{Paths, path_at};
use merge_tables::version_keys::VersionKey;
use outside_core::NoMemory;
use std::alloc::Global;
use uuid_core::Uuid;
use vault_model::{Doc, Entry, Version};

// Whether two versions are the same.
fn is_same(first: &Version, second: &Version) -> bool
    ensures { result ≡ same_mark (bare_version first.now).mark (bare_version second.now).mark }
{
    VersionKey::new(first.modified, &first.content)
        == VersionKey::new(second.modified, &second.content)
}

// Whether a version is among these.
fn is_among(versions: &[Version], version: &Version) -> bool
    ensures { result ≡ list_any (λ older. same_mark (bare_version version.now).mark older.mark)
        (map bare_version versions.now) }
{
    for older in versions {
        if is_same(version, older) {
            return true;
        }
    }
    false
}

// Whether a version is among those of an entry.
fn has_version(entry: &Entry, version: &Version) -> bool
    ensures { result ≡ spec.has_version (entry_record entry.now) (bare_version version.now).mark }
{
    is_same(version, &entry.current) || is_among(entry.history.as_slice(), version)
}

// Whether there is an entry of an id, and this version is not among its.
fn lacks_version(held: &Entries<'_>, id: &Uuid, version: &Version) -> bool
    ensures { result ≡ lacks_version (bare_version version.now).mark (get held.now id.now) }
{
    match held.get(id) {
        Some(lent) => !has_version(lent.entry(), version),
        None => false,
    }
}

// Whether one of these holds the entry of an id without this version.
fn is_lacking(sources: &[Entries<'_>], id: &Uuid, version: &Version) -> bool
    ensures { result ≡ list_any (λ held. lacks_version (bare_version version.now).mark
        (held id.now)) (map get sources.now) }
{
    for held in sources {
        if lacks_version(held, id, version) {
            return true;
        }
    }
    false
}

// Whether the version of an entry that was current in the target is not that of now, and one of the
// sources held the entry without it.
fn is_overtaken(sources: &[Entries<'_>], id: &Uuid, new: &Entry, old: &Entry) -> bool
    ensures { result ≡ is_overtaken (map get sources.now) id.now (entry_record new.now)
        (entry_record old.now) }
{
    !is_same(&old.current, &new.current) && is_lacking(sources, id, &old.current)
}

// What the target and the sources of a merge held.
#[derive(Drop)]
struct Held<'a> {
    target: Entries<'a>,
    sources: Vec<Entries<'a>>,
}

// Puts an entry among the conflicts, if the version that was current is overtaken.
fn add_overtaken<'p>(
    found: &mut ConflictTable<'p>,
    paths: &'p Paths,
    sources: &[Entries<'_>],
    id: Uuid,
    new: &Entry,
    old: &Entry,
) -> Result<(), NoMemory>
    ensures { OnOk result (found.new ≡ (if is_overtaken (map get sources.now) id
        (entry_record new.now) (entry_record old.now)
        then insert found.old (table.path_at paths.now id, id) (record {
          current = new.now.current.modified;
          older = old.now.current.modified;
        }) else found.old)) }
{
    if !is_overtaken(sources, &id, new, old) {
        return Ok(());
    }
    let times = ConflictTimes {
        current: new.current.modified,
        older: old.current.modified,
    };
    found.put(ConflictKey::new(path_at(paths, &id), id), times)
}

// Puts an entry of the result among the conflicts, if it is one.
fn add_conflict<'p>(
    found: &mut ConflictTable<'p>,
    paths: &'p Paths,
    held: &Held<'_>,
    id: Uuid,
    new: &Entry,
) -> Result<(), NoMemory>
    ensures { OnOk result (found.new ≡ spec.with_conflict (table.path_at paths.now)
        (get held.now.target) (map get held.now.sources.items) (id, entry_record new.now)
        found.old) }
{
    match held.target.get(&id) {
        Some(old) => {
            let old = old.entry();
            add_overtaken(found, paths, held.sources.as_slice(), id, new, old)
        }
        None => Ok(()),
    }
}

// The conflicts among these entries of a result.
fn conflicts_among<'p>(
    alloc: Global,
    paths: &'p Paths,
    held: &Held<'_>,
    mut rows: EntryRows<'_>,
) -> Result<ConflictTable<'p>, NoMemory>
    ensures { IfOk result (λ found. found ≡ conflicts_among (table.path_at paths.now)
        (get held.now.target) (map get held.now.sources.items) rows.entry.items) }
{
    let mut found = ConflictTable::new(alloc);
    while let Some(row) = rows.pop() {
        add_conflict(&mut found, paths, held, row.0, row.1.entry())?;
    }
    Ok(found)
}

/// The documents of a merge.
#[derive(Clone, Copy)]
pub struct MergedDocs<'a> {
    /// The target before the merge.
    pub target: &'a Doc,
    /// What was merged into it.
    pub sources: &'a [Doc],
    /// The result.
    pub new: &'a Doc,
}

/// The conflicts of a merge, whose result has these paths.
pub fn conflicts_of<'p>(
    alloc: Global,
    docs: MergedDocs<'_>,
    paths: &'p Paths,
) -> Result<ConflictTable<'p>, NoMemory>
    requires { table.path_at paths.now ≡ path_in (doc_seen docs.new.now) }
    ensures { IfOk result (λ found. entries found ≡ conflicts (doc_seen docs.entry.target.now)
        (map doc_seen docs.entry.sources.now) (doc_seen docs.entry.new.now)) }
{
    let held = Held {
        target: entries_of(alloc, docs.target)?,
        sources: all_entries_of(alloc, docs.sources)?,
    };
    let rows = rows_of(alloc, docs.new)?;
    let found = conflicts_among(alloc, paths, &held, rows)?;
    Ok(found)
}
