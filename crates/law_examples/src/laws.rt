//! What is so of the worked cases. Each function has it as its contract; it does nothing, and takes
//! no memory.

ghost use Rattle.law_examples.specs.Calls.{ExampleCalls, ExampleOutcomes, ExamplePassword};
ghost use Rattle.law_examples.specs.Commands.{ExampleCode, ExampleCommands};
ghost use Rattle.law_examples.specs.Files.{ThreeFilesAgree, TwoFilesAreMerged};
ghost use Rattle.law_examples.specs.Histories.{ExampleHistory};
ghost use Rattle.law_examples.specs.PlainCopies.{MergingIsAHistory};

/// An entry whose code can be shown, with a field beside it: so the law of codes speaks of something.
pub fn a_code_can_be_shown()
    ensures { ExampleCode }
{}

/// Each command meets its condition on some database.
pub fn commands_meet_their_conditions()
    ensures { ExampleCommands }
{}

/// Calls that list a plain file, show a code of one, and add an entry with a generated password to
/// one meet the condition of a call.
pub fn calls_meet_their_condition()
    ensures { ExampleCalls }
{}

/// There are other files that agree on the one that a listing names, a call that writes a file, and
/// words that ask for a page: so the laws of what is named speak of something.
pub fn outcomes_are_of_what_is_named()
    ensures { ExampleOutcomes }
{}

/// A command that adds an entry generates its password: so the law of passwords speaks of something.
pub fn a_password_is_generated()
    ensures { ExamplePassword }
{}

/// A call that adds an entry with a generated password to a plain file keeps all that is promised of
/// calls, at status 0, and begins a history of three files: so the laws of histories of calls speak of
/// something.
pub fn a_call_begins_a_history()
    ensures { ExampleHistory }
{}

/// The three copies of the worked example, each in a plain file, meet the premise of the part
/// `agreed_merge` of a call whose words merge two of them into the third.
pub fn three_files_agree()
    ensures { ThreeFilesAgree }
{}

/// Two plain files of a settled document meet the premise of the part `merge_again` of a call whose
/// words merge the one into the other.
pub fn two_files_are_merged()
    ensures { TwoFilesAreMerged }
{}

/// Each call of the program that merges the three files with status 0 begins a history of them, which
/// goes on with a copy of the first over the second.
pub fn merging_is_a_history()
    ensures { MergingIsAHistory }
{}
