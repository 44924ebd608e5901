//! Why imported entries are not taken.

ghost use Rattle.std.specs.Prelude.{◌≡◌};

use outside_core::NoMemory;
use uuid_core::Uuid;

/// Why imported entries give no document.
#[derive(Clone, Copy)]
pub enum TreeFail {
    /// Two nodes have this id, the least of those.
    DuplicateId(Uuid),
    /// The group of this id, the least of those, is below the last level.
    TooDeep(Uuid),
    /// Memory ran out.
    NoMemory,
}

impl From<NoMemory> for TreeFail {
    ghost use Rattle.import_tree.specs.declared.fails.TreeFail.TheVariants as fail;

    ghost from_gives = { λ _ e. e ≡ fail.NoMemory };

    fn from(_none: NoMemory) -> TreeFail {
        TreeFail::NoMemory
    }
}
