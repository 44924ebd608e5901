//! The laws that commands leave all else as it is. Each function has laws as its contract, for
//! every document that a command changes; it does nothing, and takes no memory.

ghost use Rattle.frame_laws.specs.Entries.{AddFrames, AttachFrames, DetachFrames, EditFrames, ExportGivesImported, MakeGroupFrames, MoveEntryFrames, RestoreFrames};
ghost use Rattle.frame_laws.specs.Example.{ExampleChanges};
ghost use Rattle.frame_laws.specs.Removals.{RemoveEntryFrames};
ghost use Rattle.frame_laws.specs.Undoing.{RestoreUndoes};

/// An edit changes one entry: of it the fields that are given and taken away, its tags and when it
/// expires, each where that is asked for, when it was changed and looked at, and its history; every
/// other node, every list of children, the tombstones and what the database says of itself are as
/// before.
pub fn edit_frames()
    ensures { EditFrames }
{}

/// What is attached changes one entry: of it the attachment of one name, when it was changed and
/// looked at, and its history; all else is as before. What is then taken out is what was put in.
pub fn attach_frames()
    ensures attach { AttachFrames }
    ensures export { ExportGivesImported }
{}

/// An attachment that is taken away changes one entry in the same way; all else is as before.
pub fn detach_frames()
    ensures { DetachFrames }
{}

/// A version that is restored changes one entry: of it what it says, when it was changed and looked
/// at, and its history; all else is as before.
pub fn restore_frames()
    ensures { RestoreFrames }
{}

/// An edit of an entry whose current version is its newest is undone by restoring the version before
/// it, where the limits of histories drop nothing.
pub fn restore_undoes()
    ensures { RestoreUndoes }
{}

/// A moved entry is taken from one list and put at the end of another, and of its record since when
/// it is there and its previous parent change; all else is as before.
pub fn move_frames()
    ensures { MoveEntryFrames }
{}

/// A new entry or group has the given id and stands last in one list; all else is as before.
pub fn new_frames()
    ensures add { AddFrames }
    ensures make_group { MakeGroupFrames }
{}

/// A removed entry is moved into the bin, which is made where it is missing, or it is gone and has
/// a tombstone. All else is as before.
pub fn removal_frames()
    ensures { RemoveEntryFrames }
{}

/// Each of these laws speaks of something: a small database on which the commands are carried out.
pub fn example_changes()
    ensures { ExampleChanges }
{}
