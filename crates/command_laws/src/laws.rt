//! The laws of the commands that change a document. Each function has laws as its contract, for
//! every document that a command changes; it does nothing, and takes no memory.

ghost use Rattle.command_laws.specs.Adding.{AddAdds, AddingIsFree, AttachAdds, ChangeAdds, DetachAdds, EditAdds, MakeGroupAdds, MoveEntryAdds, RecyclingAdds, RestoreAdds};
ghost use Rattle.command_laws.specs.Growing.{AttachGrowsInCurrent, ChangeGrowsInCurrent, ChangeIsNow, DetachGrowsInCurrent, EditGrowsInCurrent, EditIsNow, GrowthIsAnEvent, GrowthIsInCurrent, RelabelShows, RestoreGrowsInCurrent, RestoreIsNow};

/// Documents that differ in the history of one entry alone are alike in what is current.
pub fn relabelled()
    ensures { RelabelShows }
{}

/// An entry that comes to say something else, as by an edit or an attachment, grows in what is
/// current, whatever versions the limits of histories drop, and the version that is made is the
/// current one; so does a version that is restored; what grows grows in what is current; and what
/// does so is an event of a history.
pub fn growing()
    ensures change { ChangeGrowsInCurrent }
    ensures changed { ChangeIsNow }
    ensures edit { EditGrowsInCurrent }
    ensures now { EditIsNow }
    ensures attach { AttachGrowsInCurrent }
    ensures detach { DetachGrowsInCurrent }
    ensures restore { RestoreGrowsInCurrent }
    ensures restored { RestoreIsNow }
    ensures growth { GrowthIsInCurrent }
    ensures event { GrowthIsAnEvent }
{}

/// Adding and editing an entry, attaching something to it or taking that away, restoring a version
/// of it, moving it, also into the bin, and making a group only add: what is there stays, groups
/// stay where they are, no tombstone is made, and the one new node, if any, is the one whose id was
/// given.
pub fn adds()
    ensures add { AddAdds }
    ensures change { ChangeAdds }
    ensures edit { EditAdds }
    ensures attach { AttachAdds }
    ensures detach { DetachAdds }
    ensures restore { RestoreAdds }
    ensures move_entry { MoveEntryAdds }
    ensures make_group { MakeGroupAdds }
    ensures recycling { RecyclingAdds }
{}

/// What only adds, with an id that is used nowhere, is a free event of a history.
pub fn adding_is_free()
    ensures { AddingIsFree }
{}
