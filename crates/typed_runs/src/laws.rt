//! The laws of runs of commands. Each function has laws as its contract; it does nothing, and takes
//! no memory.

ghost use Rattle.merge_core.specs.Example.{as_it_was};
ghost use Rattle.typed_runs.specs.Example.{example_run};
ghost use Rattle.typed_runs.specs.Meeting.{TwoEditsMeet};
ghost use Rattle.typed_runs.specs.TypedRuns.{IsTypedRun, TypedRunsAgree, TypedRunsMerge, TypedRunsSame, TypedRunsSameDb};

/// On copies of one document entries are added, edited, restored, moved and put into the bin, things
/// are attached to them and taken away, groups are made, and copies are merged and copied over, in
/// any order. Then, where no id is drawn twice, all that is learned agrees; no merge is refused but
/// where a node is too deep; and copies that have learned the same are alike in what is current, and
/// have the same database where no command dropped a version.
pub fn typed_runs()
    ensures agree { TypedRunsAgree }
    ensures merge { TypedRunsMerge }
    ensures same { TypedRunsSame }
    ensures same_db { TypedRunsSameDb }
{}

/// Where one entry is edited on two copies of a document, a merge of the copies has both versions in
/// the entry, and the later is current, whichever copy is merged into the other; and no merge of them
/// is refused but where a node is too deep.
pub fn two_edits_meet()
    ensures { TwoEditsMeet }
{}

/// There are such runs: one with an entry that is added on one copy, a group that is made on another,
/// and a third that becomes a copy of the first.
pub fn there_is_a_run()
    ensures { IsTypedRun as_it_was example_run }
{}
