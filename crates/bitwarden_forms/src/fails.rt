//! Why an export is not imported.

ghost use Rattle.std.specs.Prelude.{◌≡◌};

use outside_core::NoMemory;
use uuid_core::Uuid;

/// Why an export of Bitwarden is not imported: the first that holds, in the order of these variants.
/// Folders and items are numbered from 1.
#[derive(Clone, Copy)]
pub enum BitwardenFail {
    /// The bytes are no JSON of at most 127 levels (RFC 8259), or no object.
    JsonForm,
    /// The export says that it is encrypted.
    Encrypted,
    /// The folder of this number has no text `id` or `name`; 0 where `folders` is no list.
    FolderForm(u64),
    /// A member of the item of this number is not of its kind, or names no folder; 0 where `items` is
    /// no list.
    Member(u64),
    /// The id of the item of this number is nil.
    NilId(u64),
    /// The current version of an entry would be modified at this time, in seconds since the year 1,
    /// which is after the year 9999.
    StampLimit(u64),
    /// Two nodes have this id, the least of those.
    DuplicateId(Uuid),
    /// The group of this id, the least of those, is below the last level.
    TooDeep(Uuid),
    /// Memory ran out.
    NoMemory,
}

impl From<NoMemory> for BitwardenFail {
    ghost use Rattle.bitwarden_forms.specs.declared.fails.BitwardenFail.TheVariants as fail;

    ghost from_gives = { λ _ e. e ≡ fail.NoMemory };

    fn from(_none: NoMemory) -> BitwardenFail {
        BitwardenFail::NoMemory
    }
}
