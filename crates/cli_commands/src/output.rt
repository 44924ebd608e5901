//! What a command prints, and whether its database is to be written.
ghost use Rattle.std.specs.Prelude.{◌≡◌};
ghost use Rattle.cli_commands.specs.SeenChange as spec;

use cli_merging::MergeReport;
use cli_messages::Stop;
use outside_core::Bytes;
use secret_core::Secret;
use std::rc::Rc;

/// What a command prints.
#[derive(Drop)]
pub enum Output {
    /// A listing, or the report of a command that writes its document as it is.
    Listing(Bytes),
    /// What is shown, or the report of a change, in memory that is wiped, since a title may be secret.
    Report(Secret),
    /// The bytes of an attachment, which are shared with the document.
    Attachment(Rc<Secret>),
}

/// What a command makes of its database, which it changes in place.
#[derive(Drop)]
pub struct Change {
    /// What the command prints.
    pub output: Output,
    /// Whether the database is to be written.
    pub is_written: bool,
    /// The bytes of the attachment that is taken out into a new file, if one is.
    pub attachment: Option<Rc<Secret>>,
}

/// Lends the text that a command prints.
pub fn lend_text(output: &Output) -> &[u8]
    ensures { result.now ≡ spec.output_text output.now }
{
    match output {
        Output::Listing(text) => text.as_slice(),
        Output::Report(text) => text.lend(0, text.len()),
        Output::Attachment(bytes) => bytes.lend(0, bytes.len()),
    }
}

/// The change of a command that reports this, and whose database is to be written.
pub(crate) fn reported(report: Result<Secret, Stop>) -> Result<Change, Stop>
    ensures { result ≡ spec.change_reported report }
{
    match report {
        Ok(text) => Ok(Change {
            output: Output::Report(text),
            is_written: true,
            attachment: None,
        }),
        Err(stop) => Err(stop),
    }
}

/// The change of a command that prints this, and whose database is not to be written.
pub(crate) fn printed(text: Result<Secret, Stop>) -> Result<Change, Stop>
    ensures { result ≡ spec.change_printed text }
{
    match text {
        Ok(text) => Ok(Change {
            output: Output::Report(text),
            is_written: false,
            attachment: None,
        }),
        Err(stop) => Err(stop),
    }
}

/// The change of a merge that reports this.
pub(crate) fn merge_change(report: Result<MergeReport, Stop>) -> Result<Change, Stop>
    ensures { result ≡ spec.merge_change report }
{
    match report {
        Ok(MergeReport { text, is_written }) => Ok(Change {
            output: Output::Report(text),
            is_written,
            attachment: None,
        }),
        Err(stop) => Err(stop),
    }
}
