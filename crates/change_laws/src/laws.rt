//! The laws of the changes of commands. Each function has laws as its contract; it does nothing, and
//! takes no memory.

ghost use Rattle.change_laws.specs.Adding.{CommandsAdd};
ghost use Rattle.change_laws.specs.Changes.{CommandsGrow, MergesMerge};

/// Where a command that adds, edits, moves, removes or makes something is not refused, it leaves a
/// document that grew in what is current, whatever versions the limits of histories drop; and a merge
/// leaves what its target and sources are merged into, which it writes where that is another document
/// than the target.
pub fn changes()
    ensures grown { CommandsGrow }
    ensures merged { MergesMerge }
{}

/// Where a command that adds or edits an entry, makes a group, moves an entry, or puts one into the
/// bin is not refused, it leaves a document that has all that the one before had, in the same groups,
/// and at most one node more, of the id that it drew.
pub fn additions()
    ensures { CommandsAdd }
{}
