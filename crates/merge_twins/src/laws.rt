//! The laws of the two copies. Each function has a law as its contract; it does nothing, and takes no
//! memory.

ghost use Rattle.merge_twins.specs.Laws.{TwinsAgree, TwinsAreDocuments, TwinsFit};

/// Both copies of a database of at most 50,000 entries are documents.
pub fn documents()
    ensures { TwinsAreDocuments }
{}

/// And they agree: nothing that one of them deleted is later changed or filled in the other, and
/// moves never make a cycle. Made one they have no more levels than a document may have.
pub fn agreed()
    ensures agree { TwinsAgree }
    ensures fit { TwinsFit }
{}
