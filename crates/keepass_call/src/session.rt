//! A call whose words open a session.
ghost use Rattle.cli_needs.specs.Needs.{HasKey};
ghost use Rattle.keepass_call.specs.Outcome.{counts, seen, truth};
ghost use Rattle.keepass_call.specs.SessionCalls.{IsSession};

use cli_reporting::report;
use cli_sessions::SessionDatabase;
use outside_core::{Dice, FileStore, Sink, Source};
use session_opening::{first_number, open_session};
use session_run::run_session;
use session_run::session_core::{Session, close};
use std::alloc::Global;

/// Carries out a session: its database is opened, and each line of the input is a command on it.
/// Whatever the status, its composite key was cleared and released.
pub(crate) fn answer_session<F: FileStore, S: Source, O: Sink, E: Sink, D: Dice>(
    alloc: Global,
    database: SessionDatabase,
    files: &mut F,
    input: &mut S,
    out: &mut O,
    err: &mut E,
    dice: &mut D,
    now: u64,
) -> u8
    requires { HasKey database.access }
    ensures { IsSession database now result
        (seen (O.written out.old) (E.written err.old) (F.files files.old) (F.draft_name files.old)
        (F.draft_bytes files.old) (S.left input.old) (D.stream dice.old)
        (truth (F.truthful files.old) (S.truthful input.old) (D.truthful dice.old)))
        (seen (O.written out.new) (E.written err.new) (F.files files.new) (F.draft_name files.new)
        (F.draft_bytes files.new) (S.left input.new) (D.stream dice.new)
        (truth (F.truthful files.new) (S.truthful input.new) (D.truthful dice.new)))
        (counts (F.faults files.old) (F.absences files.old) (S.faults input.old) (O.faults out.old)
        (E.faults err.old) (D.faults dice.old))
        (counts (F.faults files.new) (F.absences files.new) (S.faults input.new) (O.faults out.new)
        (E.faults err.new) (D.faults dice.new)) }
{
    match open_session(alloc, files, input, &database) {
        Ok(opened) => {
            let number = first_number(&database);
            let mut session = Session {
                database,
                number,
                opened,
            };
            let status = run_session(alloc, &mut session, files, input, out, err, dice, now);
            close(session);
            status
        }
        Err(stop) => {
            drop(database);
            report(alloc, err, stop)
        }
    }
}
