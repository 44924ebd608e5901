//! Why a search, or the resolving of references, is refused.

ghost use Rattle.std.specs.Prelude.{◌≡◌};
ghost use Rattle.find_references.specs.declared.fail.FindFail.TheVariants as find;

use outside_core::NoMemory;

/// Why a search, or the resolving of references, is refused.
#[derive(Clone, Copy)]
pub enum FindFail {
    /// More references are looked for than may be, or the resolved text is longer than it may be:
    /// the first count that passes its limit.
    TooMuch(u64),
    /// A term has no text; the number is its offset, or 0 where there is no term.
    EmptyTerm(usize),
    /// Memory ran out.
    NoMemory,
}

impl From<NoMemory> for FindFail {
    ghost from_gives = { λ _ e. e ≡ find.NoMemory };

    fn from(_none: NoMemory) -> FindFail {
        FindFail::NoMemory
    }
}
