//! The laws of a source that is imported again. Each function has a law as its contract; it does
//! nothing, and takes no memory.

ghost use Rattle.import_again_laws.specs.Again.{SafesReplace, TablesReplace};

/// What is current of the merge of two imports of a table is what is current of the later one.
pub fn tables_replace()
    ensures { TablesReplace }
{}

/// So it is of two imports of a file of Password Safe under a password.
pub fn safes_replace()
    ensures { SafesReplace }
{}
