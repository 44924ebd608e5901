//! What a command draws for the ids of new nodes.
ghost use Rattle.std.specs.Prelude.{◌≡◌, ◌≤◌, ℕ, List, drop, length, IfErr, IfOk, Some, OnOk, true};
ghost use Rattle.outside_core.specs.Counts.{Increased};
ghost use Rattle.outside_core.specs.Reports.{StaysTruthful};
ghost use Rattle.outside_core.specs.Streams.{LosesPrefix};
ghost use Rattle.cli_writing.specs.Drawing.{next_bytes};

use outside_core::{Dice, DiceFail};
use secret_core::Fresh;

// The length of what is drawn, which its type says and its view as a list does not.
fn length_of(drawn: &[u8; 16]) -> usize
    ensures is { result ≡ length drawn.now }
    ensures sixteen { result ≡ 16 }
{
    drawn.len()
}

/// The next 16 bytes of the dice.
pub fn draw_id<D: Dice>(dice: &mut D) -> Result<[u8; 16], DiceFail>
    ensures told { D.truthful dice.new ≡ true
        → (d : List ℕ) → D.stream dice.old ≡ Some d
        → IfOk result (λ id. (id ≡ next_bytes 16 d) × (D.stream dice.new ≡ Some (drop 16 d))) }
    ensures long { IfOk result (λ id. length id ≡ 16) }
    ensures stream { LosesPrefix (D.stream dice.old) (D.stream dice.new) }
    ensures truthful { StaysTruthful (D.truthful dice.old) (D.truthful dice.new) }
    ensures cause { IfErr result (λ _. Increased (D.faults dice.old) (D.faults dice.new)) }
    ensures faults { D.faults dice.old ≤ D.faults dice.new }
    ensures faultless { OnOk result (D.faults dice.new ≡ D.faults dice.old) }
{
    match Fresh::<16>::draw(dice, 16) {
        Ok(fresh) => {
            let id = fresh.take();
            let _length = length_of(&id);
            Ok(id)
        }
        Err(fail) => Err(fail),
    }
}
