//! Why a document is not changed, and what became of a node that is removed.

ghost use Rattle.std.specs.Prelude.{◌≡◌};
ghost use Rattle.tree_core.specs.declared.fails.TreeFail.TheVariants as fail;

use uuid_core::Uuid;
use vault_model::outside_core::NoMemory;

/// Why a document is not changed. Where several hold, the first of this list is the answer;
/// NoMemory may come in the place of any.
#[derive(Clone, Copy)]
pub enum TreeFail {
    /// A path, or the part of it that must name a group, names nothing.
    NoSuchPath,
    /// The entry has no version of this number.
    NoVersion(u64),
    /// The entry has no field of the name that is to be taken away: of several such names the one
    /// at this place is the first.
    NoField(u64),
    /// The entry has no attachment of this name.
    NoAttachment,
    /// The path of the new node is another's already, or the entry has an attachment of this name.
    NameTaken,
    /// The node is in that group already.
    AlreadyThere,
    /// The root can neither be moved nor removed.
    RootFixed,
    /// The group of this id would be moved into itself.
    IntoItself(Uuid),
    /// A group would be below the last level.
    TooDeep,
    /// This id is nil, a node's, or that of a node that was deleted.
    IdTaken(Uuid),
    /// This time, in seconds, is after the year 9999.
    StampLimit(u64),
    /// Memory ran out.
    NoMemory,
}

impl From<NoMemory> for TreeFail {
    ghost from_gives = { λ _ e. e ≡ fail.NoMemory };

    fn from(_none: NoMemory) -> TreeFail {
        TreeFail::NoMemory
    }
}

/// What became of a node that is removed.
#[derive(Clone, Copy)]
pub enum Removed {
    /// It is in the bin.
    Recycled,
    /// It is gone.
    Deleted,
}
