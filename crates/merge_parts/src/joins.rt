//! What the members hold of each node, made one.
ghost use Rattle.std.specs.Prelude.{◌≡◌, ◌<◌, Some, length, IfOk, OnOk, max, map};
ghost use Rattle.std.specs.Option.{option_copied};
ghost use Rattle.std.specs.FinMap as table;
ghost use Rattle.vault_model.specs.Join.{join, meta_join, state_join, stats_join};
ghost use Rattle.vault_model.specs.Unite.{gather, join_options, unite};
ghost use Rattle.merge_tables.specs.Databases.{databases, shared_meta};

use merge_tables::databases::Database;
use merge_tables::metas::LentMeta;
use merge_tables::states::LentState;
use merge_tables::versions::VersionTable;
use outside_core::NoMemory;
use std::alloc::Global;
use uuid_core::Uuid;
use vault_model::Stamp;

/// An entry's versions so far with those of one more member.
fn join_versions<'a>(
    alloc: Global,
    so_far: Option<VersionTable<'a>>,
    more: Option<&VersionTable<'a>>,
) -> Result<Option<VersionTable<'a>>, NoMemory>
    ensures { IfOk result (λ v. v ≡ join_options (unite stats_join) (option_copied more.entry)
        so_far.entry) }
{
    let Some(more) = more else {
        return Ok(so_far);
    };
    let mut all = match so_far {
        Some(all) => all,
        None => VersionTable::new(alloc),
    };
    match all.add_all(more) {
        Ok(()) => Ok(Some(all)),
        Err(fail) => {
            drop(all);
            Err(fail)
        }
    }
}

/// All versions that the members have of an entry.
pub fn all_versions<'a>(
    alloc: Global,
    members: &[Database<'a>],
    id: &Uuid,
) -> Result<Option<VersionTable<'a>>, NoMemory>
    ensures { IfOk result (λ v. v ≡ gather (unite stats_join)
        (map (λ m. table.get m.entries id.now) (databases members.now))) }
{
    let mut joined = None;
    for member in members {
        joined = join_versions(alloc, joined, member.entries.get(id))?;
    }
    Ok(joined)
}

/// A group's state so far with that of one more member.
fn join_state<'a>(
    so_far: Option<LentState<'a>>,
    more: Option<&LentState<'a>>,
) -> Option<LentState<'a>>
    ensures { result ≡ join_options state_join (option_copied more.entry) so_far.entry }
{
    match (more, so_far) {
        (None, so_far) => so_far,
        (Some(more), None) => Some(more.again()),
        (Some(more), Some(so_far)) => Some(more.join(&so_far)),
    }
}

/// What all members have of a group, made one.
pub fn joined_state<'a>(members: &[Database<'a>], id: &Uuid) -> Option<LentState<'a>>
    ensures { result ≡ gather state_join (map (λ m. table.get m.groups id.now)
        (databases members.now)) }
{
    let mut joined = None;
    for member in members {
        joined = join_state(joined, member.groups.get(id));
    }
    joined
}

/// The later of two times; where there is but one, that.
fn later_time(first: Option<Stamp>, second: Option<Stamp>) -> Option<Stamp>
    ensures { result ≡ join_options max first second }
{
    match (first, second) {
        (None, _) => second,
        (Some(_), None) => first,
        (Some(a), Some(b)) => Some(a.max(b)),
    }
}

/// The latest tombstone of an id.
pub fn latest_tomb(members: &[Database], id: &Uuid) -> Option<Stamp>
    ensures { result ≡ gather max (map (λ m. table.get m.tombs id.now) (databases members.now)) }
{
    let mut latest = None;
    for member in members {
        latest = later_time(member.tombs.get(id).copied(), latest);
    }
    latest
}

/// Takes in the shared values of some members. A refusal means that memory ran out.
fn absorb_all<'a>(joined: &mut LentMeta<'a>, members: &[Database<'a>]) -> Result<(), NoMemory>
    ensures { OnOk result (Some (shared_meta joined.new) ≡ join_options meta_join
        (Some (shared_meta joined.old))
        (gather meta_join (map (λ m. Some m.meta) (databases members.now)))) }
{
    for member in members {
        joined.absorb(&member.meta)?;
    }
    Ok(())
}

/// The shared values of all members, made one.
pub fn joined_meta<'a>(alloc: Global, members: &[Database<'a>]) -> Result<LentMeta<'a>, NoMemory>
    requires { 0 < length members.now }
    ensures { IfOk result (λ m. shared_meta m ≡ (join (databases members.now)).meta) }
{
    let mut joined = members[0].meta.again(alloc)?;
    match absorb_all(&mut joined, &members[1..]) {
        Ok(()) => Ok(joined),
        Err(fail) => {
            drop(joined);
            Err(fail)
        }
    }
}
