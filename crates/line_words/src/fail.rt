//! Why a line is not cut into words.

ghost use Rattle.std.specs.Prelude.{◌≡◌};
ghost use Rattle.line_words.specs.declared.fail.LineFail.TheVariants as fail;

use outside_core::NoMemory;

/// Why a line is not cut into words.
#[derive(Clone, Copy)]
pub enum LineFail {
    /// The quotation mark at this offset in bytes has no closing one.
    Quote(usize),
    /// Memory ran out.
    NoMemory,
}

impl From<NoMemory> for LineFail {
    ghost from_gives = { λ _ e. e ≡ fail.NoMemory };

    fn from(_none: NoMemory) -> LineFail {
        LineFail::NoMemory
    }
}
