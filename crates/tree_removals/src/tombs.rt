//! Tombstones put in their places.

ghost use Rattle.std.specs.Prelude.{◌≡◌, OnErr, OnOk, max, position};
ghost use Rattle.std.specs.List.{position_or_len};
ghost use Rattle.std.specs.Ordering.{is_lt};
ghost use Rattle.vault_model.specs.Db.{id_cmp};
ghost use Rattle.tree_core.specs.Changes.{with_tomb};

use outside_core::{List, NoMemory};
use uuid_core::Uuid;
use vault_model::{Stamp, Tombstone};

/// The later of two times.
pub fn later(one: Stamp, other: Stamp) -> Stamp
    ensures { result ≡ max one other }
{
    one.max(other)
}

// The first tombstone of a greater id.
fn first_greater(tombs: &[Tombstone], id: Uuid) -> Option<usize>
    ensures { result ≡ position (λ t. is_lt (id_cmp id t.id)) tombs.now }
{
    tombs.iter().position(|tomb| id.cmp(&tomb.id).is_lt())
}

// The place of the first tombstone of a greater id, or of the end.
fn tomb_place(tombs: &[Tombstone], id: Uuid) -> usize
    ensures { result ≡ position_or_len (λ t. is_lt (id_cmp id t.id)) tombs.now }
{
    first_greater(tombs, id).unwrap_or(tombs.len())
}

/// Puts a tombstone before the first of a greater id. A refusal means that memory ran out, and
/// changes nothing.
pub(crate) fn put_tomb(tombs: &mut List<Tombstone>, tomb: Tombstone) -> Result<(), NoMemory>
    ensures ok { OnOk result (tombs.new ≡ with_tomb tomb tombs.old) }
    ensures err { OnErr result (tombs.new ≡ tombs.old) }
{
    let at = tomb_place(tombs.as_slice(), tomb.id);
    match tombs.insert(at, tomb) {
        Ok(()) => Ok(()),
        Err(_) => Err(NoMemory),
    }
}
