//! The law of attachments in files. The function has the law as its contract; it does nothing, and
//! takes no memory.

ghost use Rattle.attachment_laws.specs.TakenOut.{TakesOutWhatWasPutIn};

/// Where a file was put to an entry, the database's file that holds the document after it was opened
/// under its key, and the attachment is taken out of what was opened, its bytes are those of the file
/// that was put in.
pub fn what_is_put_in_is_taken_out()
    ensures { TakesOutWhatWasPutIn }
{}
