//! What holds of padded texts, and of deciphering by gates. Each law is a function whose contract is
//! the law; it computes nothing.

ghost use Rattle.std.specs.Prelude.{◌≡◌, ◌<◌, ℕ, List, length, Option, Some};
ghost use Rattle.aes_slices.specs.InverseBox.{gates_byte};
ghost use Rattle.block_core.specs.Aes.{inv_sub_byte};
ghost use Rattle.block_core.specs.Padding.{IsBeforePadding, IsPadded, padded, unpadded};

/// `unpadded` gives what comes before the right padding of a text, and nothing where there is none.
pub fn unpadded_texts()
    ensures value { (text : List ℕ) (x : Option (List ℕ)) → IsBeforePadding text x
        → unpadded text ≡ x }
    ensures meaning { (text : List ℕ) → IsBeforePadding text (unpadded text) }
{}

/// A text with its padding is padded, and without it is the text.
pub fn padded_texts()
    ensures right { (text : List ℕ) → IsPadded (padded text) (length text) }
    ensures undone { (text : List ℕ) → unpadded (padded text) ≡ Some text }
{}

/// The gates by which eight blocks are deciphered at once give what the table gives for one block:
/// the inverse of the S-box.
pub fn gates_of_the_inverse_box()
    ensures { (b : ℕ) → b < 256 → gates_byte b ≡ inv_sub_byte b }
{}
