//! The lines that report what was changed.
ghost use Rattle.std.specs.Prelude.{◌≡◌, IfOk};
ghost use Rattle.cli_changes.specs.Texts as spec;

use outside_core::NoMemory;
use secret_core::Secret;
use std::alloc::Global;

/// How many bytes of a line are the same whatever it reports.
const FIXED: usize = 22;

/// The line that reports what was done with an entry of this title; nothing where the command is
/// quiet. A title may be secret, so the line is made in memory that is wiped.
pub(crate) fn report(
    alloc: Global,
    quiet: bool,
    done: &[u8],
    title: &[u8],
) -> Result<Secret, NoMemory>
    ensures { IfOk result (λ text. text.bytes ≡ spec.report quiet done.now title.now) }
{
    if quiet {
        return Secret::with_room(alloc, 0);
    }
    let Some(room) = (FIXED + done.len()).checked_add(title.len()) else {
        return Err(NoMemory);
    };
    let mut text = Secret::with_room(alloc, room)?;
    text.extend(b"Successfully ");
    text.extend(done);
    text.extend(b" entry ");
    text.extend(title);
    text.extend(b".\n");
    Ok(text)
}
