//! Random bytes that are drawn for one use.
ghost use Rattle.std.specs.Prelude.{◌≡◌, ◌-◌, ◌≤◌, ◌++◌, IfOk, IsOk, drop, option_map, replicate, take, true};
ghost use Rattle.outside_core.specs.Counts.{HasCause};
ghost use Rattle.outside_core.specs.Reports.{StaysTruthful};
ghost use Rattle.outside_core.specs.Streams.{LosesPrefix};

use outside_core::{Dice, DiceFail};
use std::marker::Model;

/// Bytes that were drawn from the dice and not used yet: a key's seed, an initialization vector, an
/// id.
///
/// It cannot be copied, and `take` uses it up, so that no draw serves twice.
#[derive(Drop)]
pub struct Fresh<const N: usize> {
    bytes: [u8; N],
}

impl<const N: usize> Model for Fresh<N> {
    ghost use Rattle.std.specs.Prelude.{List, ℕ};

    ghost Value = { List ℕ };

    ghost view = { λ fresh. fresh.bytes };
}

impl<const N: usize> Fresh<N> {
    /// Draws the first `n` bytes; the rest are 0. With `n` 0 the dice are not asked.
    ///
    /// The refusal is that of the dice, of which some bytes may be gone then.
    pub fn draw<D: Dice>(dice: &mut D, n: usize) -> Result<Fresh<N>, DiceFail>
        requires { n ≤ N }
        ensures front { D.truthful dice.new ≡ true → IfOk result (λ fresh. D.stream dice.old
            ≡ option_map (λ rest. take n fresh ++ rest) (D.stream dice.new)) }
        ensures rest { IfOk result (λ fresh. drop n fresh ≡ replicate (N - n) 0) }
        ensures none { n ≡ 0 → IsOk result × (dice.new ≡ dice.old) }
        ensures lost { LosesPrefix (D.stream dice.old) (D.stream dice.new) }
        ensures truthful { StaysTruthful (D.truthful dice.old) (D.truthful dice.new) }
        ensures faults { HasCause DiceFail.Failed (D.faults dice.old) (D.faults dice.new) result }
    {
        let mut bytes = [0; N];
        if n > 0 {
            dice.fill(&mut bytes[..n])?;
        }
        Ok(Fresh { bytes })
    }

    /// Lends the bytes.
    pub fn bytes(&self) -> &[u8; N]
        ensures { result.now ≡ self.now }
    {
        &self.bytes
    }

    /// Moves the bytes into their one use.
    pub fn take(self) -> [u8; N]
        ensures { result ≡ self.entry }
    {
        self.bytes
    }
}
