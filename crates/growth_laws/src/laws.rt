//! The laws that commands only grow. Each function has laws as its contract, for every document that
//! a command changes; it does nothing, and takes no memory.

ghost use Rattle.growth_laws.specs.Growth.{AddGrows, AttachGrows, ChangeGrows, DetachGrows, EditGrows, GrowthIsAStep, MakeGroupGrows, MoveEntryGrows, MoveGroupGrows, RemoveEntryGrows, RemoveGroupGrows, RestoreGrows};

/// What is added, moved, changed or restored grows: the join of the databases before and after it is
/// the one after it, so that a copy that was changed by commands is a step of a schedule. An entry
/// that comes to say something else, by an edit, an attachment or a restored version, grows where
/// the limits of histories drop nothing.
pub fn changes_grow()
    ensures add { AddGrows }
    ensures change { ChangeGrows }
    ensures edit { EditGrows }
    ensures attach { AttachGrows }
    ensures detach { DetachGrows }
    ensures restore { RestoreGrows }
    ensures move_entry { MoveEntryGrows }
    ensures make_group { MakeGroupGrows }
    ensures move_group { MoveGroupGrows }
{}

/// What is removed grows in the same way, in the bin or by its tombstones.
pub fn removals_grow()
    ensures remove_entry { RemoveEntryGrows }
    ensures remove_group { RemoveGroupGrows }
{}

/// A document that a replica's document grew to is a step of a schedule.
pub fn growth_is_a_step()
    ensures { GrowthIsAStep }
{}
