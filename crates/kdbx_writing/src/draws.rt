//! What is drawn for one file.

ghost use Rattle.std.specs.Prelude.{◌≡◌, ◌≤◌, ◌++◌, IfOk, option_map, take, true};
ghost use Rattle.outside_core.specs.Counts.{HasCause};
ghost use Rattle.outside_core.specs.Reports.{StaysTruthful};
ghost use Rattle.outside_core.specs.Streams.{LosesPrefix};
ghost use Rattle.kdbx_frame.specs.Settings.{iv_len};
ghost use Rattle.kdbx_writing.specs.Draws.{AreDrawn, AreFront, drawn_bytes, start_len, stream_len};

use kdbx_frame::{Cipher, FileVersion, Settings};
use outside_core::{Dice, DiceFail};
use secret_core::Fresh;

/// What was drawn for one file, each part for one use. What a file does not use is 0.
#[derive(Drop)]
pub struct Draws {
    /// The seed or the salt of the key derivation.
    pub kdf: Fresh<32>,
    /// The master seed, which the file's keys are made from.
    pub seed: Fresh<32>,
    /// The IV of the cipher: 16 bytes, or 12 for ChaCha20.
    pub iv: Fresh<16>,
    /// The key of the inner stream: 64 bytes, or 32 in version 3.1.
    pub stream: Fresh<64>,
    /// The bytes that a deciphered file begins with in version 3.1.
    pub start: Fresh<32>,
}

// Draws the first n bytes.
fn draw_front<D: Dice, const N: usize>(dice: &mut D, n: usize) -> Result<Fresh<N>, DiceFail>
    requires { n ≤ N }
    ensures stream { D.truthful dice.new ≡ true → IfOk result (λ fresh. D.stream dice.old
        ≡ option_map (λ rest. take n fresh ++ rest) (D.stream dice.new)) }
    ensures drawn { IfOk result (λ fresh. AreFront n N fresh) }
    ensures lost { LosesPrefix (D.stream dice.old) (D.stream dice.new) }
    ensures truthful { StaysTruthful (D.truthful dice.old) (D.truthful dice.new) }
    ensures faults { HasCause DiceFail.Failed (D.faults dice.old) (D.faults dice.new) result }
{
    let fresh = Fresh::<N>::draw(dice, n)?;
    let _bytes = fresh.bytes();
    Ok(fresh)
}

/// How many bytes the IV of a cipher has.
pub fn iv_len(cipher: Cipher) -> usize
    ensures value { result ≡ iv_len cipher }
    ensures limit { result ≤ 16 }
{
    match cipher {
        Cipher::Aes | Cipher::Twofish => 16,
        Cipher::ChaCha => 12,
    }
}

// How many bytes of the inner stream's key a version uses.
fn stream_len(version: FileVersion) -> usize
    ensures value { result ≡ stream_len version }
    ensures limit { result ≤ 64 }
{
    match version {
        FileVersion::V31 => 32,
        FileVersion::V40 | FileVersion::V41 => 64,
    }
}

// How many bytes a deciphered file of a version begins with.
fn start_len(version: FileVersion) -> usize
    ensures value { result ≡ start_len version }
    ensures limit { result ≤ 32 }
{
    match version {
        FileVersion::V31 => 32,
        FileVersion::V40 | FileVersion::V41 => 0,
    }
}

/// Draws what a file of these settings needs: the next bytes of the dice's stream, in the order of
/// the fields of [`Draws`].
///
/// The refusal is that of the dice, of which some bytes may be gone then.
pub fn draw<D: Dice>(settings: &Settings, dice: &mut D) -> Result<Draws, DiceFail>
    ensures stream { D.truthful dice.new ≡ true → IfOk result (λ d. D.stream dice.old
        ≡ option_map (λ rest. drawn_bytes settings.now d ++ rest) (D.stream dice.new)) }
    ensures drawn { IfOk result (λ d. AreDrawn settings.now d) }
    ensures lost { LosesPrefix (D.stream dice.old) (D.stream dice.new) }
    ensures truthful { StaysTruthful (D.truthful dice.old) (D.truthful dice.new) }
    ensures faults { HasCause DiceFail.Failed (D.faults dice.old) (D.faults dice.new) result }
{
    let kdf = draw_front(dice, 32)?;
    let seed = draw_front(dice, 32)?;
    let iv = draw_front(dice, iv_len(settings.cipher))?;
    let stream = draw_front(dice, stream_len(settings.version))?;
    let start = draw_front(dice, start_len(settings.version))?;
    Ok(Draws {
        kdf,
        seed,
        iv,
        stream,
        start,
    })
}
