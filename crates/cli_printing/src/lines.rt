//! The text of `db-info`.

ghost use Rattle.std.specs.Prelude.{◌≡◌, ◌++◌, IfErr, IfOk, OnOk, option_map};
ghost use Rattle.std.specs.Fmt.{decimal};
ghost use Rattle.cli_messages.specs.Phases.{IsMemoryStop};
ghost use Rattle.cli_printing.specs.Info.{content_lines, info_shown, name_lines};
ghost use Rattle.cli_printing.specs.Info as spec;
ghost use Rattle.vault_model.specs.SeenDoc.{doc_seen};

use crate::counts::{count_entries, count_groups};
use crate::file::{add_file_lines, add_line};
use cli_messages::Stop;
use cli_needs::kdbx_frame::Settings;
use outside_core::{Bytes, NoMemory};
use secret_core::Secret;
use std::alloc::Global;
use vault_model::Doc;

// Whether removed nodes are put into the bin.
fn bin_state(enabled: bool) -> &'static [u8]
    ensures { result.now ≡ spec.bin_state enabled }
{
    if enabled { b"enabled" } else { b"disabled" }
}

// Adds a line with a number.
fn add_number(alloc: Global, text: &mut Bytes, about: &[u8], number: usize) -> Result<(), NoMemory>
    ensures { OnOk result (text.new ≡ text.old ++ spec.line about.now (decimal number)) }
{
    let digits = format!(in alloc; "{number}")?;
    let added = add_line(text, about, digits.as_str().as_bytes());
    drop(digits);
    added
}

// Adds what a document says of its database.
fn add_name_lines(text: &mut Bytes, doc: &Doc) -> Result<(), NoMemory>
    ensures { OnOk result (text.new ≡ text.old ++ name_lines (doc_seen doc.now)) }
{
    add_line(text, b"Name: ", doc.meta.name.value.as_str().as_bytes())?;
    add_line(
        text,
        b"Description: ",
        doc.meta.description.value.as_str().as_bytes(),
    )
}

// Adds what a document has: its groups, its entries, and the bin.
fn add_content_lines(alloc: Global, text: &mut Bytes, doc: &Doc) -> Result<(), NoMemory>
    ensures { OnOk result (text.new ≡ text.old ++ content_lines (doc_seen doc.now)) }
{
    add_number(alloc, text, b"Groups: ", count_groups(0, &doc.root)?)?;
    add_number(alloc, text, b"Entries: ", count_entries(0, &doc.root)?)?;
    add_line(
        text,
        b"Recycle bin: ",
        bin_state(doc.meta.bin.value.enabled),
    )
}

// Adds what is printed.
fn add_info(
    alloc: Global,
    text: &mut Bytes,
    doc: &Doc,
    settings: Option<&Settings>,
) -> Result<(), NoMemory>
    ensures { OnOk result (text.new ≡ text.old
        ++ info_shown (option_map (λ s. s.now) settings.entry) (doc_seen doc.now)) }
{
    add_name_lines(text, doc)?;
    add_file_lines(alloc, text, settings)?;
    add_content_lines(alloc, text, doc)
}

// What is printed. Nothing of it is a secret: the document and the settings keep it in memory that
// is not wiped.
fn info_text(alloc: Global, doc: &Doc, settings: Option<&Settings>) -> Result<Bytes, NoMemory>
    ensures { IfOk result (λ text. text
        ≡ info_shown (option_map (λ s. s.now) settings.entry) (doc_seen doc.now)) }
{
    let mut text = Bytes::new(alloc);
    match add_info(alloc, &mut text, doc, settings) {
        Ok(()) => Ok(text),
        Err(fail) => {
            drop(text);
            Err(fail)
        }
    }
}

// A text in memory that is wiped.
fn shown_text(alloc: Global, text: &[u8]) -> Result<Secret, NoMemory>
    ensures { IfOk result (λ shown. shown.bytes ≡ text.now) }
{
    let mut shown = Secret::with_room(alloc, text.len())?;
    shown.extend(text);
    Ok(shown)
}

/// What `db-info` prints of a document, and of the settings of the file that keeps it: none where
/// it is a plain document. The only stop is that memory ran out.
pub fn info(alloc: Global, doc: &Doc, settings: Option<&Settings>) -> Result<Secret, Stop>
    ensures told { IfOk result (λ text. text.bytes
        ≡ info_shown (option_map (λ s. s.now) settings.entry) (doc_seen doc.now)) }
    ensures cause { IfErr result IsMemoryStop }
{
    let text = info_text(alloc, doc, settings)?;
    let shown = shown_text(alloc, text.as_slice());
    drop(text);
    match shown {
        Ok(shown) => Ok(shown),
        Err(NoMemory) => Err(Stop::NoMemory),
    }
}
