//! Tables of rows.
ghost use Rattle.std.specs.Prelude.{◌≡◌, IfOk};
ghost use Rattle.std.specs.FinMap.{from_entries};

use merge_tables::tables::Table;
use outside_core::NoMemory;
use std::alloc::Global;
use uuid_core::Uuid;

/// The table of some rows, where an id that occurs twice has what its first row has. A refusal
/// means that memory ran out.
pub(crate) fn table_of<X: Drop>(
    alloc: Global,
    mut rows: Vec<(Uuid, X)>,
) -> Result<Table<X>, NoMemory>
    ensures { IfOk result (λ table. table ≡ from_entries rows.items) }
{
    let mut table = Table::new(alloc);
    while let Some((id, value)) = rows.pop() {
        table.put(id, value)?;
    }
    Ok(table)
}
