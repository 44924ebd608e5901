//! The law of files that are written anew. The function has the law as its contract; it does
//! nothing, and takes no memory.

ghost use Rattle.resealing_laws.specs.Salts.{OldSaltsAreNotSeen};

/// What is written of a database does not depend on the seed or salt of the key derivation that the
/// database was opened with: another one is drawn for each file.
pub fn old_salts_are_not_seen()
    ensures { OldSaltsAreNotSeen }
{}
