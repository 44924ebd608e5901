//! Why a file of Password Safe is not imported.

ghost use Rattle.std.specs.Prelude.{◌≡◌};
ghost use Rattle.psafe_file.specs.declared.fails.PsafeFail.TheVariants as fail;

use outside_core::NoMemory;
use uuid_core::Uuid;

/// Why a file of Password Safe V3 is not imported: the first that holds, in the order of these
/// variants. A place is one in the deciphered bytes.
#[derive(Clone, Copy)]
pub enum PsafeFail {
    /// The file does not begin with `PWS3`.
    NotPsafe,
    /// The file ends before its MAC does, or no block of it marks the end of the blocks. The number
    /// is the file's length in bytes.
    Truncated(u64),
    /// The key would be hashed again more than 67,108,864 times: so often.
    IterLimit(u32),
    /// The password gives another key than the one that the file was written under.
    WrongPassword {
        /// The hash of the stretched key that the file keeps.
        kept: [u8; 32],
        /// The hash of the stretched key that the password gives.
        found: [u8; 32],
    },
    /// The field that begins at this place is malformed or passes the end of the bytes; or the
    /// header or a record is not ended, and the place is the end of the bytes.
    FieldForm(u64),
    /// The file's fields are not those that its MAC was made of.
    Mac {
        /// The MAC that the file keeps.
        kept: [u8; 32],
        /// The MAC of the contents of its fields.
        found: [u8; 32],
    },
    /// The record of this number, counted from 1, has the nil id.
    NilId(u64),
    /// Two nodes have this id, the least of those.
    DuplicateId(Uuid),
    /// The group of this id, the least of those, is below the last level.
    TooDeep(Uuid),
    /// Memory ran out.
    NoMemory,
}

impl From<NoMemory> for PsafeFail {
    ghost from_gives = { λ _ e. e ≡ fail.NoMemory };

    fn from(_none: NoMemory) -> PsafeFail {
        PsafeFail::NoMemory
    }
}
