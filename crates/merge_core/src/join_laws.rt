//! The laws that hold of every document and of every list of databases that can be joined. The
//! functions do nothing, and take no memory.

ghost use Rattle.merge_core.specs.Laws.{DocumentsAreSound, JoinsAreSound, LaysSettle};

/// The database of every document is sound, and so is the join of sound databases that can be
/// joined.
pub fn sound()
    ensures documents { DocumentsAreSound }
    ensures joins { JoinsAreSound }
{}

/// A document that is laid has the database that was laid, and is settled.
pub fn laid()
    ensures { LaysSettle }
{}
