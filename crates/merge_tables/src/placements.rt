//! Where nodes are.
ghost use Rattle.std.specs.Prelude.{◌≡◌};
ghost use Rattle.vault_model.specs.Db.{place_cmp};
ghost use Rattle.vault_model.specs.Unite.{greater, join_options};

use std::cmp::Ordering;
use std::marker::Model;
use uuid_core::Uuid;
use vault_model::Stamp;

/// Where a node is: since when, in which group, and in which it was before, the nil id where in
/// none.
#[derive(Clone, Copy)]
pub struct Placement {
    pub placed: Stamp,
    pub parent: Uuid,
    pub previous: Uuid,
}

impl Model for Placement {
    ghost use Rattle.vault_model.specs.Db.{Place};

    ghost Value = { Place };

    ghost view = { λ p. record { placed = p.placed; parent = p.parent; previous = p.previous } };

    ghost inverse = { λ p. record { placed = p.placed; parent = p.parent; previous = p.previous } };
}

/// The later placement, of one time the one with the greater parent, and of one time and parent the
/// one with the greater previous parent; where there is but one, that.
pub fn later_placement(first: Option<Placement>, second: Option<Placement>) -> Option<Placement>
    ensures { result ≡ join_options (greater place_cmp) first second }
{
    match (first, second) {
        (None, _) => second,
        (Some(_), None) => first,
        (Some(a), Some(b)) => {
            let is_later = compare_placements(&a, &b).is_lt();
            Some(if is_later { b } else { a })
        }
    }
}

/// Orders placements by time, then by parent and then by previous parent.
#[tactic(auto, unfolding(vault_model::specs::Db::place_cmp))]
fn compare_placements(first: &Placement, second: &Placement) -> Ordering
    ensures { result ≡ place_cmp first.now second.now }
{
    first.placed.cmp(&second.placed).then(
        first
            .parent
            .cmp(&second.parent)
            .then(first.previous.cmp(&second.previous)),
    )
}
