//! The laws of merging documents. Each function has a law as its contract, for all documents; it
//! does nothing, and takes no memory.

ghost use Rattle.merge_core.specs.Documents.{LaysAreDocuments, RootedAreDocuments, RootedAtHome};
ghost use Rattle.merge_core.specs.Refusals.{FirstIsLeast, LeastIsOfIds, MergesAreDocuments};

/// A sound database that fits the levels, laid over a document, keeps what every document keeps, and
/// so does a document whose root takes an id that no other node of it has; under the id of its own
/// root a document is as it was.
pub fn documents()
    ensures laid { LaysAreDocuments }
    ensures rooted { RootedAreDocuments }
    ensures at_home { RootedAtHome }
{}

/// Where no node clashes, strays or is too deep, documents can be joined, and what is laid over the
/// target is a document; and the node that a refusal names is the same in whatever order the nodes
/// are gone through.
pub fn refusals()
    ensures merged { MergesAreDocuments }
    ensures least { LeastIsOfIds }
    ensures first { FirstIsLeast }
{}
