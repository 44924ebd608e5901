//! The entry that a path names, and its attachments.

ghost use Rattle.std.specs.Prelude.{◌≡◌, Err, MatchResult, Ok, option_map};
ghost use Rattle.vault_model.specs.Seen.{bare_attachment, bare_content};
ghost use Rattle.vault_model.specs.SeenDoc.{doc_seen};
ghost use Rattle.vault_model.specs.SeenNodes.{entry_row};
ghost use Rattle.tree_core.specs.After as spec;
ghost use Rattle.tree_core.specs.Attachments.{attachment_named, attachment_of};

use crate::searches::{entry_of, holder};
use tree_core::{TreeFail, find_entry};
use uuid_core::Uuid;
use vault_model::{Attachment, Content, Doc, Entry};

/// An entry, and the group that holds it.
#[derive(Clone, Copy)]
pub struct Held<'a> {
    pub group: Uuid,
    pub entry: &'a Entry,
}

/// The entry that a path names, and the group that holds it. Takes no memory.
pub fn entry_named<'a>(doc: &'a Doc, path: &str) -> Result<Held<'a>, TreeFail>
    ensures { MatchResult result
        (λ held. spec.entry_named path.now (doc_seen doc.now) ≡ Ok (record {
          group = held.group;
          entry = entry_row held.entry.now;
        }))
        (λ fail. spec.entry_named path.now (doc_seen doc.now) ≡ Err fail) }
{
    let Some(id) = find_entry(doc, path) else {
        return Err(TreeFail::NoSuchPath);
    };
    let Some(group) = holder(&doc.root, id) else {
        return Err(TreeFail::NoSuchPath);
    };
    match entry_of(&doc.root, group, id) {
        Some(entry) => Ok(Held { group, entry }),
        None => Err(TreeFail::NoSuchPath),
    }
}

/// The attachment of a name that a version has, where there is one.
pub fn attachment_of<'a>(content: &'a Content, name: &str) -> Option<&'a Attachment>
    ensures { option_map (λ a. bare_attachment a.now) result
        ≡ attachment_of name.now (bare_content content.now) }
{
    for attachment in content.attachments.as_slice() {
        if name == attachment.name.as_str() {
            return Some(attachment);
        }
    }
    None
}

/// The attachment of a name that the entry that a path names has. Takes no memory.
pub fn attachment_in<'a>(doc: &'a Doc, path: &str, name: &str) -> Result<&'a Attachment, TreeFail>
    ensures { MatchResult result
        (λ a. spec.attachment_in path.now name.now (doc_seen doc.now) ≡ Ok (bare_attachment a.now))
        (λ fail. spec.attachment_in path.now name.now (doc_seen doc.now) ≡ Err fail) }
{
    let content = match entry_named(doc, path) {
        Ok(held) => &held.entry.current.content,
        Err(fail) => return Err(fail),
    };
    match attachment_of(content, name) {
        Some(attachment) => Ok(attachment),
        None => Err(TreeFail::NoAttachment),
    }
}
