//! The rules of the two copies: what each says of the entry of a number.
ghost use Rattle.std.specs.Prelude.{◌≡◌, ◌<◌, ◌≤◌};
ghost use Rattle.merge_twins.specs.Rules.{rules_of};
ghost use Rattle.merge_twins.specs.Twins as spec;

use uuid_core::Uuid;
use vault_model::Stamp;

/// Which of the copies.
#[derive(Clone, Copy)]
pub(crate) enum Which {
    /// The one whose entries were edited and moved.
    First,
    /// The one whose entries were edited and deleted.
    Second,
}

// The id that is a number.
#[tactic(auto, unfolding(crate::specs::Twins::number_id))]
fn number_id(number: u32) -> Uuid
    ensures { result ≡ spec.number_id number }
{
    Uuid::from_bytes(u128::from(number).to_be_bytes())
}

/// The id of a group.
pub(crate) fn group_id(number: u32) -> Uuid
    requires { number < 16 }
    ensures { result ≡ spec.group_id number }
{
    number_id(number + 1)
}

/// The id of an entry.
pub(crate) fn entry_id(number: u32) -> Uuid
    requires { number < 50_000 }
    ensures { result ≡ spec.entry_id number }
{
    number_id(1_000 + number)
}

/// The time of so many seconds.
pub(crate) fn time(seconds: u32) -> Stamp
    ensures { result ≡ seconds }
{
    Stamp::of(u64::from(seconds)).unwrap()
}

/// Whether an entry is in a copy.
pub(crate) fn is_there(which: Which, number: u32) -> bool
    ensures { result ≡ (rules_of which).is_there number }
{
    match which {
        Which::First => true,
        Which::Second => number % 7 != 0,
    }
}

/// The number of the group in which an entry of a copy stands.
pub(crate) fn group_of(which: Which, number: u32) -> u32
    requires { number < 50_000 }
    ensures { result ≡ (rules_of which).group number }
{
    match which {
        Which::First => {
            if number % 5 == 0 {
                (number + 1) % 16
            } else {
                number % 16
            }
        }
        Which::Second => number % 16,
    }
}

/// Since when an entry of a copy stands in its group.
pub(crate) fn placed_at(which: Which, number: u32) -> Stamp
    requires { number < 50_000 }
    ensures { result ≡ (rules_of which).placed number }
{
    match which {
        Which::First => {
            if number % 5 == 0 {
                time(3_000 + number)
            } else {
                time(1_000)
            }
        }
        Which::Second => time(1_000),
    }
}
