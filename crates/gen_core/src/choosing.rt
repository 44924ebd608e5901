//! A text is chosen byte by byte.

ghost use Rattle.std.specs.Prelude.{◌≡◌, ◌<◌, ◌≤◌, [], length, slice_index, true, IfOk, IsErrOf, OnOk};
ghost use Rattle.outside_core.specs.Counts.{HasCause};
ghost use Rattle.outside_core.specs.Reports.{StaysTruthful};
ghost use Rattle.outside_core.specs.Streams.{LosesPrefix};
ghost use Rattle.gen_core.specs.Chosen.{Between, ChosenBySome, IsAlphabet, IsChosen, IsNext, bound, ok_then};
ghost use Rattle.gen_core.specs.declared.choosing.GenFail.TheVariants as fail;

use outside_core::{Dice, DiceFail, NoMemory};
use secret_core::{Secret, SecretKey};
use std::alloc::Global;

/// After so many refused bytes one after the other the choice is given up.
const TRIES: u32 = 128;

/// Why no text was chosen.
#[derive(Clone, Copy, Debug, PartialEq, Eq)]
pub enum GenFail {
    /// For the character of this number, counted from 0, 128 bytes were refused.
    Spent(u32),
    /// The dice failed: their count of faults rose.
    Failed,
    /// Memory ran out, before the dice were asked.
    NoMemory,
}

impl From<NoMemory> for GenFail {
    ghost from_gives = { λ _ e. e ≡ fail.NoMemory };

    fn from(_failed: NoMemory) -> GenFail {
        GenFail::NoMemory
    }
}

impl From<DiceFail> for GenFail {
    ghost from_gives = { λ _ e. e ≡ fail.Failed };

    fn from(_failed: DiceFail) -> GenFail {
        GenFail::Failed
    }
}

// How many of the 256 bytes are accepted.
fn bound(alphabet: &[u8]) -> usize
    requires { IsAlphabet alphabet.now }
    ensures { result ≡ bound (length alphabet.now) }
{
    alphabet.len() * (256 / alphabet.len())
}

// Draws bytes until one is below the limit, and reports whether one was: after 128 others it gives
// up.
fn draw_next<D: Dice>(dice: &mut D, byte: &mut SecretKey<1>, limit: usize) -> Result<bool, DiceFail>
    ensures told { D.truthful dice.new ≡ true
        → IfOk result (λ accepted. Between (D.stream dice.old) (D.stream dice.new)
        (IsNext limit accepted byte.new)) }
    ensures below { IfOk result (λ accepted. accepted ≡ true → slice_index byte.new 0 < limit) }
    ensures stream { LosesPrefix (D.stream dice.old) (D.stream dice.new) }
    ensures truthful { StaysTruthful (D.truthful dice.old) (D.truthful dice.new) }
    ensures faults { HasCause DiceFail.Failed (D.faults dice.old) (D.faults dice.new) result }
{
    for i in 0..TRIES {
        dice.fill(byte.bytes_mut())?;
        if usize::from(byte.bytes()[0]) < limit {
            return Ok(true);
        }
    }
    Ok(false)
}

// Chooses so many characters, and puts them into a text.
fn choose<D: Dice>(
    dice: &mut D,
    byte: &mut SecretKey<1>,
    alphabet: &[u8],
    length: u32,
    text: &mut Secret,
) -> Result<(), GenFail>
    requires alphabet { IsAlphabet alphabet.now }
    requires empty { text.old.bytes ≡ [] }
    requires room { length ≤ text.old.spare }
    ensures told { D.truthful dice.new ≡ true → Between (D.stream dice.old) (D.stream dice.new)
        (IsChosen alphabet.now length (ok_then result text.new)) }
    ensures some { OnOk result (ChosenBySome alphabet.now length text.new.bytes) }
    ensures stream { LosesPrefix (D.stream dice.old) (D.stream dice.new) }
    ensures truthful { StaysTruthful (D.truthful dice.old) (D.truthful dice.new) }
    ensures faults { HasCause GenFail.Failed (D.faults dice.old) (D.faults dice.new) result }
    ensures memory { ¬ IsErrOf result GenFail.NoMemory }
{
    let limit = bound(alphabet);
    for k in 0..length {
        let accepted = draw_next(dice, byte, limit)?;
        if !accepted {
            return Err(GenFail::Spent(k));
        }
        text.push(alphabet[usize::from(byte.bytes()[0]) % alphabet.len()]);
    }
    Ok(())
}

/// Chooses a text of so many characters of an alphabet, each by the next accepted byte of the dice.
///
/// After any answer but [`GenFail::NoMemory`] a prefix of the dice's stream is gone, and after a
/// text that prefix ends with the byte of its last character. What was drawn and what was chosen
/// before a refusal is zeroed.
pub fn generate<D: Dice>(
    alloc: Global,
    dice: &mut D,
    alphabet: &[u8],
    length: u32,
) -> Result<Secret, GenFail>
    requires alphabet { IsAlphabet alphabet.now }
    requires wanted { 0 < length }
    requires limit { length ≤ 4096 }
    ensures told { D.truthful dice.new ≡ true → Between (D.stream dice.old) (D.stream dice.new)
        (IsChosen alphabet.now length result) }
    ensures some { IfOk result (λ text. ChosenBySome alphabet.now length text.bytes) }
    ensures stream { LosesPrefix (D.stream dice.old) (D.stream dice.new) }
    ensures truthful { StaysTruthful (D.truthful dice.old) (D.truthful dice.new) }
    ensures memory { IsErrOf result GenFail.NoMemory → dice.new ≡ dice.old }
    ensures faults { HasCause GenFail.Failed (D.faults dice.old) (D.faults dice.new) result }
{
    let mut text = Secret::with_room(alloc, length as usize)?;
    let mut byte = SecretKey::of(&[0; 1]);
    let chosen = choose(dice, &mut byte, alphabet, length, &mut text);
    byte.clear();
    byte.release();
    match chosen {
        Ok(()) => Ok(text),
        Err(refusal) => {
            drop(text);
            Err(refusal)
        }
    }
}
