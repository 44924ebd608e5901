//! What holds of every table. The function does nothing, and takes no memory.
ghost use Rattle.std.specs.Prelude.{◌≡◌, ◌∷◌, List, ℕ};
ghost use Rattle.csv.specs.Writing.{row_text};
ghost use Rattle.table_core.specs.Tables.{row_of};
ghost use Rattle.table_core.specs.Written.{quoting_writer};

/// A row is what the crate `csv` writes for its fields, each in quotes. The rows are not written
/// by it, since it gathers what it writes in memory that is not wiped.
pub fn rows_are_csv()
    ensures { (field : List ℕ) (fields : List (List ℕ))
        → row_of (field ∷ fields) ≡ row_text quoting_writer (field ∷ fields) }
{}
