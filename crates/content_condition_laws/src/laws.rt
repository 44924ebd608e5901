//! The laws that `show`, `history`, `search`, `export` and `merge` are carried out under their
//! conditions. Each function has a law as its contract; it does nothing, and takes no memory.

ghost use Rattle.content_condition_laws.specs.Conditions.{ExportSucceeds, HistorySucceeds, MergeSucceeds, SearchSucceeds, ShowCodeSucceeds, ShowSucceeds};
ghost use Rattle.content_condition_laws.specs.Example.{ExampleConditions};

/// `show` prints where its path names an entry that has a version of the number, which has the
/// fields that are named, and where each value that is printed has no more references than may be
/// looked for, and is not too long once they are resolved.
pub fn values_show()
    ensures { ShowSucceeds }
{}

/// `show -t` prints where its path names an entry that has a version of the number, which has the
/// fields that are named, where the value of each can be resolved so, where its fields say what its
/// one-time codes are made from, and where the moment is in 1970 or later.
pub fn codes_show()
    ensures { ShowCodeSucceeds }
{}

/// `history` prints where its path names an entry.
pub fn histories_show()
    ensures { HistorySucceeds }
{}

/// `search` prints where there is a term, each term has a text, and an entry matches all of them.
pub fn searches_find()
    ensures { SearchSucceeds }
{}

/// `export` prints a table of every document, and the document itself where it has no more nodes
/// and no more bytes than a text may have.
pub fn exports_print()
    ensures { ExportSucceeds }
{}

/// Documents are merged where they are copies: no node but a root has a root's id, no id is an
/// entry in one and a group in another, the latest places lead from each node to the root, and no
/// group comes below the last level.
pub fn copies_merge()
    ensures { MergeSucceeds }
{}

/// Each of these laws but that of codes speaks of something: a small database of which an entry can
/// be shown and found, which can be printed as a table and as a document, and into which two copies
/// can be merged.
pub fn example_conditions()
    ensures { ExampleConditions }
{}
