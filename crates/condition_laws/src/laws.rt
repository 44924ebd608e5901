//! The laws that commands are carried out under the conditions that the pages name. Each function
//! has laws as its contract; it does nothing, and takes no memory.

ghost use Rattle.condition_laws.specs.Conditions.{AddSucceeds, AttachSucceeds, DetachSucceeds, EditSucceeds, MakeGroupSucceeds, MoveEntrySucceeds, MoveGroupSucceeds, RemoveEntrySucceeds, RemoveGroupSucceeds, RestoreSucceeds};
ghost use Rattle.condition_laws.specs.Example.{ExampleConditions};

/// An edit is carried out where its path names an entry that has the fields that are to be taken
/// away, and the entry's last time is before the last second of the year 9999.
pub fn edits_succeed()
    ensures { EditSucceeds }
{}

/// Something is attached where the path names an entry that has nothing of this name, or where that
/// is to be replaced; and it is taken away where the entry has it. The entry's last time is under
/// the same condition.
pub fn attachments_succeed()
    ensures attach { AttachSucceeds }
    ensures detach { DetachSucceeds }
{}

/// A version is restored where the path names an entry that has it, under the same condition on its
/// last time.
pub fn restores_succeed()
    ensures { RestoreSucceeds }
{}

/// A move is carried out where both paths name what they must, and the node is not there yet; a
/// group that is moved is not the root, does not hold its goal, and stays above the last level.
pub fn moves_succeed()
    ensures entry { MoveEntrySucceeds }
    ensures group { MoveGroupSucceeds }
{}

/// A new node is made where its group is there, its path is free and its id is; a group must fit
/// above the last level.
pub fn new_nodes_succeed()
    ensures add { AddSucceeds }
    ensures make_group { MakeGroupSucceeds }
{}

/// A removal is carried out where the path names what it must; what goes into the bin must be able
/// to be moved there, and where the bin is made its id must be free.
pub fn removals_succeed()
    ensures entry { RemoveEntrySucceeds }
    ensures group { RemoveGroupSucceeds }
{}

/// Each of these laws speaks of something: a small database on which the commands can be carried
/// out.
pub fn example_conditions()
    ensures { ExampleConditions }
{}
