//! The kept nodes, each marked once.
ghost use Rattle.std.specs.Prelude.{◌≡◌, ◌<◌, length, true, OnOk, Some};
ghost use Rattle.vault_model.specs.Join.{above, HaveOneRoot};
ghost use Rattle.vault_model.specs.Proper.{rises};
ghost use Rattle.merge_tables.specs.Databases.{databases};
ghost use Rattle.merge_core.specs.Marking.{climb, is_marked, mark_own, mark_up};
ghost use Rattle.merge_join.specs.Marks.{AllSound, AreKnown, IsKeptResult, IsMarkRefusal};

use merge_parts::nodes::{above, is_own};
use merge_tables::databases::Database;
use merge_tables::tables::Table;
use outside_core::NoMemory;
use std::alloc::Global;
use uuid_core::Uuid;

/// Why members are not joined.
#[derive(Clone, Copy)]
pub enum JoinRefusal {
    /// The way up from this own node does not lead to the root.
    Stray(Uuid),
    /// Memory ran out.
    NoMemory,
}

impl From<NoMemory> for JoinRefusal {
    ghost use Rattle.merge_join.specs.declared.marking.JoinRefusal.TheVariants as refusal;

    ghost from_gives = { λ _ e. e ≡ refusal.NoMemory };

    fn from(_failed: NoMemory) -> JoinRefusal {
        JoinRefusal::NoMemory
    }
}

/// The number of steps up to the first node that is marked, where one is within so many steps.
fn way_up(members: &[Database], marked: &Table<bool>, from: Uuid, limit: usize) -> Option<usize>
    ensures { result ≡ climb (is_marked marked.now) (above (databases members.now)) 0 limit from }
{
    let mut at = from;
    let mut taken = 0;
    let mut left = limit;
    while left > 0 {
        if marked.get(&at).is_some() {
            return Some(taken);
        }
        at = above(members, &at);
        taken += 1;
        left -= 1;
    }
    if marked.get(&at).is_some() {
        Some(taken)
    } else {
        None
    }
}

/// Marks so many nodes, a node and those above it. A refusal means that memory ran out.
fn mark(
    members: &[Database],
    marked: &mut Table<bool>,
    from: Uuid,
    count: usize,
) -> Result<(), NoMemory>
    ensures { OnOk result (marked.new ≡ mark_up (databases members.now) count from marked.old) }
{
    let mut at = from;
    let mut left = count;
    while left > 0 {
        marked.put(at, true)?;
        at = above(members, &at);
        left -= 1;
    }
    Ok(())
}

/// Marks a node, if it is own, and those above it up to the first that is marked; refuses it where
/// none is within the limit.
fn mark_from(
    members: &[Database],
    marked: &mut Table<bool>,
    id: Uuid,
    limit: usize,
) -> Result<(), JoinRefusal>
    requires { 0 < length members.now }
    ensures ok { OnOk result (mark_own (databases members.now) limit id marked.old
        ≡ Some marked.new) }
    ensures err { IsMarkRefusal (databases members.now) limit id marked.old result }
{
    if !is_own(members, &id) {
        return Ok(());
    }
    match way_up(members, marked, id, limit) {
        Some(count) => {
            mark(members, marked, id, count)?;
            Ok(())
        }
        None => Err(JoinRefusal::Stray(id)),
    }
}

/// The kept nodes of members of one root, of which all known ids are given, rising. Where the way up
/// from an own node does not lead to the root, the least such node is refused.
pub fn kept_marks(
    alloc: Global,
    members: &[Database],
    known: &[Uuid],
) -> Result<Table<bool>, JoinRefusal>
    requires some { 0 < length members.now }
    requires root { HaveOneRoot (databases members.now) }
    requires sound { AllSound (databases members.now) }
    requires rising { rises (λ u. u) known.now ≡ true }
    requires known { AreKnown (databases members.now) known.now }
    ensures { IsKeptResult (databases members.now) result }
{
    let mut marked = Table::new(alloc);
    marked.put(members[0].root, true)?;
    for id in known {
        mark_from(members, &mut marked, *id, known.len())?;
    }
    Ok(marked)
}
