//! Fronts of bytes.

ghost use Rattle.text_core.specs.Fronts.{DiffersFirst};
ghost use Rattle.std.specs.Prelude.{◌≡◌, ◌∷◌, MatchOption};

/// What follows this byte, where the bytes begin with it.
#[inline(always)]
pub(crate) fn strip(bytes: &[u8], byte: u8) -> Option<&[u8]>
    ensures { MatchOption result (DiffersFirst byte bytes.now)
        (λ rest. bytes.now ≡ byte ∷ rest.now) }
{
    match bytes {
        [first, rest @ ..] if *first == byte => Some(rest),
        _ => None,
    }
}
