//! Tables as CSV, read: the document that a table's rows give.
#![tactic(auto)]

mod cells;
mod columns;
mod fails;
mod groups;
mod import;
mod records;
mod rows;

pub use fails::TableFail;
pub use import::{ImportedTable, import_csv};
pub use import_tree;
