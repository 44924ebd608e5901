//! The laws that commands on groups leave all else as it is. Each function has laws as its
//! contract, for every document that a command changes; it does nothing, and takes no memory.

ghost use Rattle.group_frame_laws.specs.Groups.{MoveGroupFrames, RemoveGroupFrames};

/// A moved group is taken from one list and put at the end of another, and of its record since when
/// it is there and its previous parent change; all else is as before, also what is in it.
pub fn group_moves()
    ensures { MoveGroupFrames }
{}

/// A removed group is moved into the bin, which is made where it is missing, or it is gone with all
/// that is in it, and each node that is gone has a tombstone. All else is as before.
pub fn group_removals()
    ensures { RemoveGroupFrames }
{}
