//! The worked case of the law of sessions. The function has the law as its contract; it does
//! nothing, and takes no memory.

ghost use Rattle.session_examples.specs.Sessions.{IsSession};

/// A session on a small plain document, of which one line makes a group and the next one lists the
/// root group, meets the premises of the law, and so is its lines as single calls.
pub fn a_session_is_its_lines()
    ensures { IsSession }
{}
