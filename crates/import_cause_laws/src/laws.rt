//! The laws that each refusal to import a file has its cause in the file's bytes. Each function has
//! a law as its contract; it does nothing, and takes no memory.

ghost use Rattle.import_cause_laws.specs.Examples.{ExampleRefusals};
ghost use Rattle.import_cause_laws.specs.SafeCauses.{SafeRefusalsHaveCauses};
ghost use Rattle.import_cause_laws.specs.TableCauses.{TableRefusalsHaveCauses};

/// A file of Password Safe that is refused has the cause of its refusal: it does not begin with the
/// tag, or no mark of the end with a whole MAC after it is in it; its key would be hashed too often;
/// the hash that it keeps is not that of the password's key; a field has no right form, passes the
/// end or is not ended; the MAC that it keeps is not that of its fields; a record has the nil id;
/// or two nodes have one id, or a group is below the last level.
pub fn psafe_files()
    ensures { SafeRefusalsHaveCauses }
{}

/// A table that is refused has the cause of its refusal: its bytes are no UTF-8 from there on; it
/// has no row, or the first names neither a column of titles nor one of URLs; the row of that number has another
/// number of fields than the first, or a time that is neither empty nor ISO; or two nodes have one
/// id, or a group is below the last level.
pub fn tables()
    ensures { TableRefusalsHaveCauses }
{}

/// Each of these laws speaks of something: small files that are refused.
pub fn example_refusals()
    ensures { ExampleRefusals }
{}
