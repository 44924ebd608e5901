//! A password that the dice choose.
ghost use Rattle.std.specs.Prelude.{◌≡◌, ◌<◌, ◌≤◌, ℕ, List, Some, IfErr, IfOk, true, OnOk};
ghost use Rattle.std.specs.List.{All};
ghost use Rattle.std.specs.Str.{is_utf8};
ghost use Rattle.outside_core.specs.Reports.{StaysTruthful};
ghost use Rattle.outside_core.specs.Streams.{LosesPrefix};
ghost use Rattle.gen_core.specs.Chosen.{IsAlphabet};
ghost use Rattle.cli_messages.specs.Phases.{IsStreamStop, ReturnsStream};
ghost use Rattle.cli_generating.specs.Generated.{generated};

use cli_messages::{Reason, Stop, refused};
use gen_core::{GenFail, generate};
use outside_core::Dice;
use secret_core::Secret;
use std::alloc::Global;

/// A password of so many characters of an alphabet of ASCII, each by the next accepted byte of the
/// dice. It is in memory that is wiped.
///
/// # Errors
///
/// [`Reason::Spent`] where 128 bytes one after the other were refused for one character;
/// [`Stop::InputFault`] where the dice failed.
pub fn choose_password<D: Dice>(
    alloc: Global,
    dice: &mut D,
    alphabet: &[u8],
    length: u32,
) -> Result<Secret, Stop>
    requires alphabet { IsAlphabet alphabet.now }
    requires ascii { All (λ b. b < 128) alphabet.now }
    requires wanted { 0 < length }
    requires limit { length ≤ 4096 }
    ensures told { D.truthful dice.new ≡ true
        → (d : List ℕ) → D.stream dice.old ≡ Some d
        → ReturnsStream (λ password. password.bytes) result (D.stream dice.new)
        (generated alphabet.now length d) }
    ensures some_dice { IfOk result (λ password. (d : List ℕ)
        × ((generated alphabet.now length d).answer ≡ Ok password.bytes)) }
    ensures text { IfOk result (λ password. is_utf8 password.bytes ≡ true) }
    ensures stream { LosesPrefix (D.stream dice.old) (D.stream dice.new) }
    ensures truthful { StaysTruthful (D.truthful dice.old) (D.truthful dice.new) }
    ensures cause { IfErr result (IsStreamStop (D.faults dice.old) (D.faults dice.new)) }
    ensures faults { D.faults dice.old ≤ D.faults dice.new }
    ensures faultless { OnOk result (D.faults dice.new ≡ D.faults dice.old) }
{
    match generate(alloc, dice, alphabet, length) {
        Ok(password) => Ok(password),
        Err(GenFail::Spent(_)) => Err(refused(alloc, Reason::Spent, "input")),
        Err(GenFail::Failed) => Err(Stop::InputFault),
        Err(GenFail::NoMemory) => Err(Stop::NoMemory),
    }
}
