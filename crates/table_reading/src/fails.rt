//! Why a table gives no document.

ghost use Rattle.std.specs.Prelude.{◌≡◌};
ghost use Rattle.table_reading.specs.Refusals as spec;

use import_tree::TreeFail;
use outside_core::NoMemory;
use uuid_core::Uuid;

/// Why a table gives no document. Rows are numbered from 1, which is the one after the first row;
/// that one names the columns.
#[derive(Clone, Copy)]
pub enum TableFail {
    /// The bytes are not UTF-8: the length of their longest prefix that is.
    NotUtf8(u64),
    /// There is no row, or the first row names neither a column of titles nor one of URLs.
    ColumnMissing,
    /// The row of this number has another number of fields than the first row.
    RowWidth(u64),
    /// A time of the row of this number is neither ISO nor empty.
    BadTime(u64),
    /// Two nodes have this id, the least of those.
    DuplicateId(Uuid),
    /// The group of this id, the least of those, is below the last level.
    TooDeep(Uuid),
    /// Memory ran out.
    NoMemory,
}

impl From<NoMemory> for TableFail {
    ghost use Rattle.table_reading.specs.declared.fails.TableFail.TheVariants as fail;

    ghost from_gives = { λ _ e. e ≡ fail.NoMemory };

    fn from(_none: NoMemory) -> TableFail {
        TableFail::NoMemory
    }
}

impl From<TreeFail> for TableFail {
    ghost use Rattle.table_reading.specs.Refusals as spec;

    ghost from_gives = { λ fail e. e ≡ spec.of_tree fail };

    fn from(fail: TreeFail) -> TableFail {
        match fail {
            TreeFail::DuplicateId(id) => TableFail::DuplicateId(id),
            TreeFail::TooDeep(id) => TableFail::TooDeep(id),
            TreeFail::NoMemory => TableFail::NoMemory,
        }
    }
}
