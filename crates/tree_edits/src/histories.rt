//! The versions of an entry in rising order.

ghost use Rattle.std.specs.Prelude.{◌≡◌, ◌≤◌, [], IfOk, OnOk, insert, length, map};
ghost use Rattle.vault_model.specs.Db.{mark_cmp};
ghost use Rattle.vault_model.specs.Join.{stats_join};
ghost use Rattle.vault_model.specs.SeenNodes.{bare_version, entry_record};
ghost use Rattle.vault_model.specs.Shape.{BareVersion};
ghost use Rattle.tree_core.specs.Histories as spec;
ghost use Rattle.tree_edits.specs.Versions as order;
ghost use Rattle.tree_edits.specs.Versions.{AreRising, put_version};
ghost use Rattle.tree_contents.specs.Spots.{changed_nth, spot};

use outside_core::{List, NoMemory};
use std::alloc::Global;
use std::cmp::Ordering;
use tree_contents::insert_at;
use vault_making::copy_version;
use vault_model::{Entry, Stats, Version, compare_content};

// Orders versions by when they were made and then by what they say.
#[tactic(auto, unfolding(vault_model::specs::Db::mark_cmp))]
fn compare_marks(one: &Version, other: &Version) -> Ordering
    ensures { result ≡ mark_cmp (bare_version one.now).mark (bare_version other.now).mark }
{
    one.modified
        .cmp(&other.modified)
        .then(compare_content(&one.content, &other.content))
}

// The later access and the greater use.
fn join_stats(one: Stats, other: Stats) -> Stats
    ensures { result ≡ stats_join one other }
{
    Stats {
        accessed: one.accessed.max(other.accessed),
        usage: one.usage.max(other.usage),
    }
}

// Where the version of the same mark is, or where a version is to be put, looked for from the first
// version on.
fn spot_from_start(versions: &[Version], version: &Version) -> Result<usize, usize>
    ensures { result ≡ spot (λ (v : BareVersion). mark_cmp (bare_version version.now).mark v.mark)
        (map bare_version versions.now) }
{
    for (at, other) in versions.iter().enumerate() {
        match compare_marks(version, other) {
            Ordering::Less => return Err(at),
            Ordering::Equal => return Ok(at),
            Ordering::Greater => {}
        }
    }
    Err(versions.len())
}

// Joins the stats of the version at an index with others.
fn join_stats_at(versions: &mut List<Version>, at: usize, stats: Stats)
    ensures { map bare_version versions.new
        ≡ changed_nth at (λ (v : BareVersion). record v { stats = stats_join stats v.stats })
        (map bare_version versions.old) }
{
    if let Some(version) = versions.get_mut(at) {
        version.stats = join_stats(stats, version.stats);
    }
}

// Reports whether a version is greater than the last of some others.
fn is_above(version: &Version, versions: &[Version]) -> bool
    ensures { result ≡ order.is_above (bare_version version.now) (map bare_version versions.now) }
{
    let count = versions.len();
    count == 0 || compare_marks(version, &versions[count - 1]).is_gt()
}

// Where the version of the same mark is among versions that rise, or where a version is to be put,
// which is mostly after the last.
fn version_spot(versions: &[Version], version: &Version) -> Result<usize, usize>
    requires { AreRising (map bare_version versions.now) }
    ensures { result ≡ spot (λ (v : BareVersion). mark_cmp (bare_version version.now).mark v.mark)
        (map bare_version versions.now) }
{
    if is_above(version, versions) {
        Err(versions.len())
    } else {
        spot_from_start(versions, version)
    }
}

// Puts a copy of a version before the one at an index.
fn insert_copy(
    alloc: Global,
    versions: &mut List<Version>,
    at: usize,
    version: &Version,
) -> Result<(), NoMemory>
    requires { at ≤ length versions.old }
    ensures { OnOk result (map bare_version versions.new
        ≡ insert (map bare_version versions.old) at (bare_version version.now)) }
{
    let copy = copy_version(alloc, version)?;
    insert_at(versions, at, copy)
}

// Puts a copy of a version in its place among versions that rise; of one mark they are made one.
fn add_copy(alloc: Global, versions: &mut List<Version>, version: &Version) -> Result<(), NoMemory>
    requires { AreRising (map bare_version versions.old) }
    ensures { OnOk result (map bare_version versions.new
        ≡ put_version (bare_version version.now) (map bare_version versions.old)) }
{
    match version_spot(versions.as_slice(), version) {
        Ok(at) => {
            join_stats_at(versions, at, version.stats);
            Ok(())
        }
        Err(at) => insert_copy(alloc, versions, at, version),
    }
}

// Puts copies of all versions of an entry where none are, in rising order.
fn add_copies(alloc: Global, rising: &mut List<Version>, entry: &Entry) -> Result<(), NoMemory>
    requires { rising.old ≡ [] }
    ensures { OnOk result (map bare_version rising.new
        ≡ spec.rising_versions (entry_record entry.now)) }
{
    for version in entry.history.as_slice() {
        add_copy(alloc, rising, version)?;
    }
    add_copy(alloc, rising, &entry.current)?;
    Ok(())
}

/// Copies of all versions of an entry in rising order; those of one mark are one.
pub(crate) fn rising_versions(alloc: Global, entry: &Entry) -> Result<List<Version>, NoMemory>
    ensures { IfOk result (λ versions. map bare_version versions
        ≡ spec.rising_versions (entry_record entry.now)) }
{
    let mut rising = List::new(alloc);
    match add_copies(alloc, &mut rising, entry) {
        Ok(()) => Ok(rising),
        Err(fail) => {
            drop(rising);
            Err(fail)
        }
    }
}
