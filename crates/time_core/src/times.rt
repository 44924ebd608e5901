//! The type of stamps.

pub mod laws;

use std::marker::Model;

/// A moment in seconds since 0001-01-01T00:00:00Z, up to the last second of the year 9999.
#[derive(Clone, Copy, PartialEq, Eq, PartialOrd, Ord)]
pub struct Stamp {
    seconds: u64,
}

impl Model for Stamp {
    ghost use Rattle.std.specs.Prelude.{ℕ, ◌≤◌};

    ghost Value = { ℕ };

    ghost view = { λ s. s.seconds };

    ghost inverse = { λ n. record { seconds = n } };

    ghost invariant = { λ s. s.seconds ≤ 315537897599 };
}

impl Stamp {
    ghost use Rattle.std.specs.Prelude.{◌≡◌, ◌<◌, ◌≤◌, MatchOption};
    ghost use Rattle.time_core.specs.Times.{last_stamp};

    /// The moment that many seconds after 0001-01-01T00:00:00Z, or `None` after the year 9999.
    pub fn of(seconds: u64) -> Option<Stamp>
        ensures { MatchOption result (last_stamp < seconds)
            (λ stamp. (seconds ≤ last_stamp) × (stamp ≡ seconds)) }
    {
        if seconds > 315_537_897_599 {
            return None;
        }
        Some(Stamp { seconds })
    }

    /// The seconds since 0001-01-01T00:00:00Z, at most 315,537,897,599.
    pub fn seconds(self) -> u64
        ensures value { result ≡ self }
        ensures limit { result ≤ last_stamp }
    {
        self.seconds
    }
}
