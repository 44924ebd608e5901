//! What is so of the worked cases. Each function has it as its contract; it does nothing, and takes
//! no memory.

ghost use Rattle.merge_examples.specs.Cases.{BareIsSettled, ExampleIsMerged, ExampleRuns};
ghost use Rattle.merge_examples.specs.Deletions.{DeletionsNeverCount};

/// There is a merge of documents that is refused by nothing: of the three copies of the worked
/// example, of which each has what the others lack. So the laws of merging again speak of something.
pub fn there_is_a_merge()
    ensures { ExampleIsMerged }
{}

/// There is a run of an agreed set, with a merge of two replicas into a third and a copy of that, so
/// that two have learned the same.
pub fn there_is_a_run()
    ensures { ExampleRuns }
{}

/// There is a settled document, which merges leave as it is where they bring it nothing new.
pub fn there_is_a_settled_document()
    ensures { BareIsSettled }
{}

/// The law of plans needs its premise on deletions: of copies that would agree without it, one of
/// which deleted an entry that another changed afterwards, the grouping of merges decides which
/// versions stay.
pub fn deletions_count()
    ensures { ¬ DeletionsNeverCount }
{}
