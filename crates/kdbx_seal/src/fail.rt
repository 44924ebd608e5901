//! Why a document is not sealed.

ghost use Rattle.std.specs.Prelude.{◌≡◌};
ghost use Rattle.kdbx_seal.specs.Answers.{of_payload, of_writing};

use crate::SealPayloadFail;
use doc_write::WriteFail;

/// Why a document is not sealed.
#[derive(Clone, Copy)]
pub enum SealFail {
    /// It has more than 262,144 groups, entries and history items: so many.
    TooMany(u64),
    /// Its text, in version 4 with its pool, would have more than 134,086,656 bytes: so many. Or the
    /// header, in version 4 with the 64 bytes after it, would end at this offset, past 65,536.
    TooLarge(u64),
    /// The store could not write the file: its count of faults rose.
    FileFault,
    /// Memory ran out.
    NoMemory,
}

impl From<WriteFail> for SealFail {
    ghost from_gives = { λ refusal e. e ≡ of_writing refusal };

    fn from(refusal: WriteFail) -> SealFail {
        match refusal {
            WriteFail::TooMany(n) => SealFail::TooMany(n),
            WriteFail::TooLarge(n) => SealFail::TooLarge(n),
            WriteFail::NoMemory => SealFail::NoMemory,
        }
    }
}

impl From<SealPayloadFail> for SealFail {
    ghost from_gives = { λ refusal e. e ≡ of_payload refusal };

    fn from(refusal: SealPayloadFail) -> SealFail {
        match refusal {
            SealPayloadFail::TooLarge(end) => SealFail::TooLarge(end),
            SealPayloadFail::FileFault => SealFail::FileFault,
            SealPayloadFail::NoMemory => SealFail::NoMemory,
        }
    }
}
