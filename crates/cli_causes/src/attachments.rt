//! Finding what is wrong in what is said of an attachment.
ghost use Rattle.std.specs.Prelude.{◌≡◌, IfOk};
ghost use Rattle.cli_causes.specs.Attachments as spec;
ghost use Rattle.cli_options.specs.SaidWords.{said_seen};

use crate::cause::Cause;
use cli_options::{CommandOption, SaidWords, is_given};
use outside_core::{NoMemory, Text};
use std::alloc::Global;

/// An attachment that is taken out is printed, and a file is named too; or it is not, and none is.
pub(crate) fn export_attachment_cause(
    alloc: Global,
    said: &SaidWords<'_, '_>,
) -> Result<Option<Cause>, NoMemory>
    ensures { IfOk result (λ cause. cause
        ≡ spec.export_attachment_cause (said_seen said.now) said.now.positions.now) }
{
    let is_printed = is_given(said, CommandOption::Stdout);
    match said.positions {
        [_, _, _] if !is_printed => Ok(Some(Cause::NoFileOrStdout)),
        [_, _, _, to] if is_printed => {
            Ok(Some(Cause::FileBesideStdout(Text::of(alloc, to.as_str())?)))
        }
        _ => Ok(None),
    }
}

/// A new attachment has no name.
pub(crate) fn import_attachment_cause(positions: &[Text]) -> Option<Cause>
    ensures { result ≡ spec.import_attachment_cause positions.now }
{
    match positions {
        [_, _, name, _] if name.as_str().is_empty() => Some(Cause::EmptyAttachmentName),
        _ => None,
    }
}
