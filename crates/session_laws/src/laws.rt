//! The laws of sessions. Each function has a law as its contract; it does nothing, and takes no
//! memory.

ghost use Rattle.session_laws.specs.SessionLaws.{LinesWriteTheirOwnFile, SessionsAreTheirLines, SessionsBeginInFiles};

/// A session does what its lines do as single calls, one after another, each of which opens the
/// database anew under the password: the same is printed, refused, written, read and drawn.
/// Afterwards a call opens what the session had in memory.
pub fn sessions_are_their_lines()
    ensures { SessionsAreTheirLines }
{}

/// A line of a session writes no file but that of its database.
pub fn lines_write_their_own_file()
    ensures { LinesWriteTheirOwnFile }
{}

/// A session begins on a database that the files hold, under the password that it read from its
/// input.
pub fn sessions_begin_in_files()
    ensures { SessionsBeginInFiles }
{}
