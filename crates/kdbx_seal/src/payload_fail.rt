//! Why a payload is not sealed.

ghost use Rattle.std.specs.Prelude.{◌≡◌};
ghost use Rattle.kdbx_seal.specs.PayloadAnswers.{of_store};

use outside_core::FileFail;

/// Why a payload is not sealed.
#[derive(Clone, Copy)]
pub enum SealPayloadFail {
    /// The header, in version 4 with the 64 bytes after it, would end at this offset, past 65,536.
    TooLarge(u64),
    /// The store could not write the file: its count of faults rose.
    FileFault,
    /// Memory ran out.
    NoMemory,
}

impl From<FileFail> for SealPayloadFail {
    ghost from_gives = { λ refusal e. e ≡ of_store refusal };

    fn from(refusal: FileFail) -> SealPayloadFail {
        match refusal {
            FileFail::NoMemory => SealPayloadFail::NoMemory,
            FileFail::Failed | FileFail::NoSuchFile => SealPayloadFail::FileFault,
        }
    }
}
