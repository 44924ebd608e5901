//! Attachments that are put to what an entry says, and taken away.

ghost use Rattle.std.specs.Prelude.{◌≡◌, IfOk, OnOk, map, true};
ghost use Rattle.std.specs.List.{position_from};
ghost use Rattle.std.specs.Str.{bytes_eq};
ghost use Rattle.vault_model.specs.Bare.{BareAttachment};
ghost use Rattle.vault_model.specs.Orders.{bytes_cmp};
ghost use Rattle.vault_model.specs.Proper.{is_proper_content};
ghost use Rattle.vault_model.specs.Seen.{bare_attachment, bare_content};
ghost use Rattle.tree_core.specs.Attachments as spec;
ghost use Rattle.tree_core.specs.InOrder.{put_in_order};
ghost use Rattle.tree_contents.specs.Spots.{changed_nth, spot};

use crate::fields::insert_at;
use crate::texts::text_is_utf8;
use outside_core::{List, NoMemory, Text};
use secret_core::Secret;
use std::alloc::Global;
use std::cmp::Ordering;
use std::rc::Rc;
use tree_core::Attached;
use vault_model::{Attachment, Content};

// Where the attachment of a name is, or where it is to be put.
fn attachment_spot(attachments: &[Attachment], name: &str) -> Result<usize, usize>
    ensures { result ≡ spot (λ a. bytes_cmp name.now a.name) attachments.now }
{
    for (at, attachment) in attachments.iter().enumerate() {
        match name.cmp(attachment.name.as_str()) {
            Ordering::Less => return Err(at),
            Ordering::Equal => return Ok(at),
            Ordering::Greater => {}
        }
    }
    Err(attachments.len())
}

// A new attachment, which is hidden, and whose bytes are shared.
fn new_attachment(alloc: Global, name: &str, bytes: &Rc<Secret>) -> Result<Attachment, NoMemory>
    ensures { IfOk result (λ new. bare_attachment new ≡ record {
      name = name.now;
      bytes = bytes.now.value.bytes;
      hidden = true;
    }) }
{
    Ok(Attachment {
        name: Text::of(alloc, name)?,
        bytes: bytes.clone()?,
        hidden: true,
    })
}

// Gives the attachment at an index other bytes, which are shared.
fn replace_bytes(
    attachments: &mut List<Attachment>,
    at: usize,
    bytes: &Rc<Secret>,
) -> Result<(), NoMemory>
    ensures { OnOk result (map bare_attachment attachments.new
        ≡ changed_nth at (λ (a : BareAttachment). record a { bytes = bytes.now.value.bytes })
        (map bare_attachment attachments.old)) }
{
    let bytes = bytes.clone()?;
    if let Some(attachment) = attachments.get_mut(at) {
        attachment.bytes = bytes;
    }
    Ok(())
}

// Puts bytes under a name among attachments.
fn put_bytes(
    alloc: Global,
    attachments: &mut List<Attachment>,
    name: &str,
    bytes: &Rc<Secret>,
) -> Result<(), NoMemory>
    ensures { OnOk result (map bare_attachment attachments.new
        ≡ put_in_order (λ (a : BareAttachment). bytes_cmp name.now a.name)
        (record { name = name.now; bytes = bytes.now.value.bytes; hidden = true })
        (λ (a : BareAttachment). record a { bytes = bytes.now.value.bytes })
        (map bare_attachment attachments.old)) }
{
    match attachment_spot(attachments.as_slice(), name) {
        Ok(at) => replace_bytes(attachments, at, bytes),
        Err(at) => {
            let new = new_attachment(alloc, name, bytes)?;
            insert_at(attachments, at, new)
        }
    }
}

/// Puts bytes under a name among the attachments that a version has; an attachment that was not
/// there is put in its place by rising name, and is hidden.
pub fn put_attachment(
    alloc: Global,
    content: &mut Content,
    attached: &Attached<'_>,
) -> Result<(), NoMemory>
    ensures is { OnOk result (bare_content content.new
        ≡ spec.with_attachment attached.now.name.now attached.now.bytes.now.value.bytes
        (bare_content content.old)) }
    ensures proper { OnOk result (is_proper_content (bare_content content.old) ≡ true
        → is_proper_content (bare_content content.new) ≡ true) }
{
    text_is_utf8(attached.name);
    put_bytes(
        alloc,
        &mut content.attachments,
        attached.name,
        attached.bytes,
    )
}

// Where the first attachment of a name is, if there is one.
fn attachment_index(attachments: &[Attachment], name: &str) -> Option<usize>
    ensures { result ≡ position_from (λ a. bytes_eq name.now a.name) 0 attachments.now }
{
    for (at, attachment) in attachments.iter().enumerate() {
        if name == attachment.name.as_str() {
            return Some(at);
        }
    }
    None
}

// Takes the attachment of a name away, where there is one.
fn remove_named(attachments: &mut List<Attachment>, name: &str)
    ensures { map bare_attachment attachments.new
        ≡ spec.but_attachment name.now (map bare_attachment attachments.old) }
{
    if let Some(at) = attachment_index(attachments.as_slice(), name) {
        drop(attachments.remove(at));
    }
}

/// Takes the attachment of a name away from what a version says, where there is one.
pub fn remove_attachment(content: &mut Content, name: &str)
    ensures is { bare_content content.new
        ≡ spec.without_attachment name.now (bare_content content.old) }
    ensures proper { is_proper_content (bare_content content.old) ≡ true
        → is_proper_content (bare_content content.new) ≡ true }
{
    remove_named(&mut content.attachments, name);
}
