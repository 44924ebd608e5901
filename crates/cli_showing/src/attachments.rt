//! The attachments of an entry, each on a line.
ghost use Rattle.std.specs.Prelude.{◌≡◌, ◌++◌, OnOk, codes, flat_map, map};
ghost use Rattle.vault_model.specs.Seen.{bare_attachment};
ghost use Rattle.cli_showing.specs.Showing.{attachment_line};

use crate::texts::{append, append_three};
use outside_core::NoMemory;
use secret_core::Secret;
use std::alloc::Global;
use vault_model::Attachment;

// Puts the line of an attachment of this name and this size after a text.
fn append_sized(alloc: Global, text: &mut Secret, name: &str, size: &str) -> Result<(), NoMemory>
    ensures { OnOk result (text.new.bytes ≡ text.old.bytes
        ++ codes "  " ++ name.now ++ codes " (" ++ size.now ++ codes " bytes)\n") }
{
    append_three(alloc, text, b"  ", name.as_bytes(), b" (")?;
    append(alloc, text, size.as_bytes())?;
    append(alloc, text, b" bytes)\n")
}

// Puts the line of an attachment after a text.
fn append_attachment(
    alloc: Global,
    text: &mut Secret,
    attachment: &Attachment,
) -> Result<(), NoMemory>
    ensures { OnOk result (text.new.bytes ≡ text.old.bytes
        ++ attachment_line (bare_attachment attachment.now)) }
{
    let size = format!(in alloc; "{}", attachment.bytes.len())?;
    let appended = append_sized(alloc, text, attachment.name.as_str(), size.as_str());
    drop(size);
    appended
}

// Puts a line for each attachment after a text.
fn append_each(alloc: Global, text: &mut Secret, attachments: &[Attachment]) -> Result<(), NoMemory>
    ensures { OnOk result (text.new.bytes ≡ text.old.bytes
        ++ flat_map attachment_line (map bare_attachment attachments.now)) }
{
    for attachment in attachments {
        append_attachment(alloc, text, attachment)?;
    }
    Ok(())
}

/// Puts the lines of attachments after a text.
pub(crate) fn append_attachments(
    alloc: Global,
    text: &mut Secret,
    attachments: &[Attachment],
) -> Result<(), NoMemory>
    ensures { OnOk result (text.new.bytes ≡ (text.old.bytes ++ codes "Attachments:\n")
        ++ flat_map attachment_line (map bare_attachment attachments.now)) }
{
    append(alloc, text, b"Attachments:\n")?;
    append_each(alloc, text, attachments)
}
