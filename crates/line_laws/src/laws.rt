//! The laws of sessions as calls of the program. Each function has a law as its contract; it does
//! nothing, and takes no memory.

ghost use Rattle.line_laws.specs.LineCalls.{LinesAreCallsInWords, LinesAreSingleCalls};
ghost use Rattle.line_laws.specs.OpenedSessions.{OpenedSessionsAreTheirLines, SessionsOfTheProgramAreTheirLines};

/// A single call of the command that words are, with the lines that the input has for it, is what
/// the program gives on these words.
pub fn lines_are_single_calls()
    ensures { LinesAreSingleCalls }
{}

/// A single call of the command of a line is what the program gives on the words of the line with
/// those before them that say how its session opened its database, and with its file.
pub fn lines_are_calls_in_words()
    ensures { LinesAreCallsInWords }
{}

/// A session that the program opens is its lines as single calls, over the files that it was opened
/// from and under the password that it read.
pub fn opened_sessions_are_their_lines()
    ensures { OpenedSessionsAreTheirLines }
{}

/// A session of the program, where it does as its outcome says, is its lines as single calls.
pub fn sessions_of_the_program_are_their_lines()
    ensures { SessionsOfTheProgramAreTheirLines }
{}
