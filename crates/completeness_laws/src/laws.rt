//! The laws that a call is carried out under the conditions that the pages name. Each function has
//! laws as its contract; it does nothing, and takes no memory.

ghost use Rattle.completeness_laws.specs.Laws.{CommandsSucceed, ConditionsSuffice};

/// Where the lines and files of a call are there and hold its databases, the dice choose a password
/// if one is to be generated, its command is not refused on its document, and what is written is
/// within the limits, the call can be carried out: so its status is 0, or memory ran out, where no
/// fault was counted. A command is not refused where its conditions hold, one by one.
pub fn what_can_be_carried_out_is()
    ensures command { CommandsSucceed }
    ensures call { ConditionsSuffice }
{}
