//! What holds of a text that is XORed with a stream. Each law is a function whose contract is the
//! law; it computes nothing.

ghost use Rattle.std.specs.Prelude.{◌≡◌, ℕ, List};
ghost use Rattle.stream_core.specs.Stream.{xor_stream, xor_stream_in_pieces, concat_pieces};

/// A text that is XORed in pieces, however it is cut, is the text XORed whole.
pub fn any_cut()
    ensures { (stream : ℕ → ℕ) (place : ℕ) (pieces : List (List ℕ))
        → xor_stream_in_pieces stream place pieces ≡ xor_stream stream place
        (concat_pieces pieces) }
{}

/// A text that is XORed twice from the same place is the text.
pub fn twice()
    ensures { (stream : ℕ → ℕ) (place : ℕ) (text : List ℕ)
        → xor_stream stream place (xor_stream stream place text) ≡ text }
{}
