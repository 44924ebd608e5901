//! Copies of versions, which share the bytes of attachments.

ghost use Rattle.std.specs.Prelude.{◌≡◌, [], ◌∷◌, ◌++◌, IfOk, IsOkAnd, OnOk, Ok, map};
ghost use Rattle.vault_model.specs.Seen.{bare_attachment, bare_content, bare_field};
ghost use Rattle.vault_model.specs.SeenNodes.{bare_version};

use outside_core::{List, NoMemory, Text};
use std::alloc::Global;
use vault_model::{Association, Attachment, AutoType, Content, Field, Item, Version};

/// Puts an item at the end of a list. A refusal means that memory ran out.
pub fn put_last<T: Drop>(list: &mut List<T>, item: T) -> Result<(), NoMemory>
    ensures { OnOk result (list.new ≡ list.old ++ item ∷ []) }
{
    match list.push(item) {
        Ok(()) => Ok(()),
        Err(_item) => Err(NoMemory),
    }
}

// Puts what was made at the end of a list.
fn put_next<T: Drop>(list: &mut List<T>, made: Result<T, NoMemory>) -> Result<(), NoMemory>
    ensures { OnOk result (IsOkAnd made (λ item. list.new ≡ list.old ++ item ∷ [])) }
{
    match made {
        Ok(item) => put_last(list, item),
        Err(refusal) => Err(refusal),
    }
}

/// A copy of a text.
pub fn copy_text(alloc: Global, text: &Text) -> Result<Text, NoMemory>
    ensures { IfOk result (λ copy. copy ≡ text.now) }
{
    Text::of(alloc, text.as_str())
}

/// A copy of a custom item.
pub fn copy_item(alloc: Global, item: &Item) -> Result<Item, NoMemory>
    ensures { IfOk result (λ copy. copy ≡ item.now) }
{
    let key = copy_text(alloc, &item.key)?;
    match copy_text(alloc, &item.value) {
        Ok(value) => Ok(Item {
            key,
            value,
            changed: item.changed,
        }),
        Err(refusal) => {
            drop(key);
            Err(refusal)
        }
    }
}

/// Copies of custom items, in their order.
pub fn copy_items(alloc: Global, items: &[Item]) -> Result<List<Item>, NoMemory>
    ensures { IfOk result (λ copy. copy ≡ items.now) }
{
    let mut copy = List::new(alloc);
    for item in items {
        if let Err(refusal) = put_next(&mut copy, copy_item(alloc, item)) {
            drop(copy);
            return Err(refusal);
        }
    }
    Ok(copy)
}

fn copy_association(alloc: Global, pair: &Association) -> Result<Association, NoMemory>
    ensures { IfOk result (λ copy. copy ≡ pair.now) }
{
    Ok(Association {
        window: copy_text(alloc, &pair.window)?,
        keys: copy_text(alloc, &pair.keys)?,
    })
}

fn copy_associations(alloc: Global, pairs: &[Association]) -> Result<List<Association>, NoMemory>
    ensures { IfOk result (λ copy. copy ≡ pairs.now) }
{
    let mut copy = List::new(alloc);
    for pair in pairs {
        if let Err(refusal) = put_next(&mut copy, copy_association(alloc, pair)) {
            drop(copy);
            return Err(refusal);
        }
    }
    Ok(copy)
}

fn copy_auto_type(alloc: Global, auto_type: &AutoType) -> Result<AutoType, NoMemory>
    ensures { IfOk result (λ copy. copy ≡ auto_type.now) }
{
    let sequence = copy_text(alloc, &auto_type.sequence)?;
    match copy_associations(alloc, auto_type.pairs.as_slice()) {
        Ok(pairs) => Ok(AutoType {
            enabled: auto_type.enabled,
            obfuscation: auto_type.obfuscation,
            sequence,
            pairs,
        }),
        Err(refusal) => {
            drop(sequence);
            Err(refusal)
        }
    }
}

fn copy_field(alloc: Global, field: &Field) -> Result<Field, NoMemory>
    ensures { IfOk result (λ copy. bare_field copy ≡ bare_field field.now) }
{
    Ok(Field {
        key: copy_text(alloc, &field.key)?,
        value: field.value.copy(alloc)?,
        hidden: field.hidden,
    })
}

fn copy_fields(alloc: Global, fields: &[Field]) -> Result<List<Field>, NoMemory>
    ensures { IfOk result (λ copy. map bare_field copy ≡ map bare_field fields.now) }
{
    let mut copy = List::new(alloc);
    for field in fields {
        if let Err(refusal) = put_next(&mut copy, copy_field(alloc, field)) {
            drop(copy);
            return Err(refusal);
        }
    }
    Ok(copy)
}

// The bytes are shared, and not copied.
fn copy_attachment(alloc: Global, attachment: &Attachment) -> Result<Attachment, NoMemory>
    ensures { IfOk result (λ copy. bare_attachment copy ≡ bare_attachment attachment.now) }
{
    Ok(Attachment {
        name: copy_text(alloc, &attachment.name)?,
        bytes: attachment.bytes.clone()?,
        hidden: attachment.hidden,
    })
}

fn copy_attachments(alloc: Global, attachments: &[Attachment]) -> Result<List<Attachment>, NoMemory>
    ensures { IfOk result (λ copy. map bare_attachment copy ≡ map bare_attachment attachments.now) }
{
    let mut copy = List::new(alloc);
    for attachment in attachments {
        if let Err(refusal) = put_next(&mut copy, copy_attachment(alloc, attachment)) {
            drop(copy);
            return Err(refusal);
        }
    }
    Ok(copy)
}

// Puts what was made in its place. A refusal leaves what was there.
fn put_made<T: Drop>(place: &mut T, made: Result<T, NoMemory>) -> Result<(), NoMemory>
    ensures { OnOk result (made ≡ Ok place.new) }
{
    match made {
        Ok(value) => {
            *place = value;
            Ok(())
        }
        Err(refusal) => Err(refusal),
    }
}

// What a version says, without its lists and texts.
fn bare_copy(alloc: Global, content: &Content) -> Content
    ensures { bare_content result ≡ record (bare_content content.now) {
      fields = [];
      attachments = [];
      tags = [];
      fore = [];
      back = [];
      url_override = [];
      auto_type = record content.now.auto_type { sequence = []; pairs = [] };
      items = [];
    } }
{
    Content {
        created: content.created,
        expiry: content.expiry,
        expires: content.expires,
        icon: content.icon,
        custom_icon: content.custom_icon,
        fields: List::new(alloc),
        attachments: List::new(alloc),
        tags: Text::new(alloc),
        fore: Text::new(alloc),
        back: Text::new(alloc),
        url_override: Text::new(alloc),
        auto_type: AutoType {
            enabled: content.auto_type.enabled,
            obfuscation: content.auto_type.obfuscation,
            sequence: Text::new(alloc),
            pairs: List::new(alloc),
        },
        items: List::new(alloc),
        quality: content.quality,
    }
}

// Copies the texts of a version into a copy of it.
fn fill_texts(alloc: Global, content: &Content, copy: &mut Content) -> Result<(), NoMemory>
    ensures { OnOk result (bare_content copy.new ≡ record (bare_content copy.old) {
      tags = content.now.tags;
      fore = content.now.fore;
      back = content.now.back;
      url_override = content.now.url_override;
    }) }
{
    put_made(&mut copy.tags, copy_text(alloc, &content.tags))?;
    put_made(&mut copy.fore, copy_text(alloc, &content.fore))?;
    put_made(&mut copy.back, copy_text(alloc, &content.back))?;
    put_made(
        &mut copy.url_override,
        copy_text(alloc, &content.url_override),
    )
}

// Copies the lists of a version into a copy of it, and how it is typed.
fn fill_lists(alloc: Global, content: &Content, copy: &mut Content) -> Result<(), NoMemory>
    ensures { OnOk result (bare_content copy.new ≡ record (bare_content copy.old) {
      fields = (bare_content content.now).fields;
      attachments = (bare_content content.now).attachments;
      auto_type = content.now.auto_type;
      items = content.now.items;
    }) }
{
    put_made(
        &mut copy.fields,
        copy_fields(alloc, content.fields.as_slice()),
    )?;
    put_made(
        &mut copy.attachments,
        copy_attachments(alloc, content.attachments.as_slice()),
    )?;
    put_made(
        &mut copy.auto_type,
        copy_auto_type(alloc, &content.auto_type),
    )?;
    put_made(&mut copy.items, copy_items(alloc, content.items.as_slice()))
}

// Copies the lists and the texts of a version into a copy of it.
fn fill(alloc: Global, content: &Content, copy: &mut Content) -> Result<(), NoMemory>
    ensures { OnOk result (bare_content copy.new ≡ record (bare_content copy.old) {
      fields = (bare_content content.now).fields;
      attachments = (bare_content content.now).attachments;
      tags = content.now.tags;
      fore = content.now.fore;
      back = content.now.back;
      url_override = content.now.url_override;
      auto_type = content.now.auto_type;
      items = content.now.items;
    }) }
{
    fill_texts(alloc, content, copy)?;
    fill_lists(alloc, content, copy)
}

/// A copy of what a version says, which shares the bytes of attachments.
pub fn copy_content(alloc: Global, content: &Content) -> Result<Content, NoMemory>
    ensures { IfOk result (λ copy. bare_content copy ≡ bare_content content.now) }
{
    let mut copy = bare_copy(alloc, content);
    match fill(alloc, content, &mut copy) {
        Ok(()) => Ok(copy),
        Err(refusal) => {
            drop(copy);
            Err(refusal)
        }
    }
}

/// A copy of a version, in which all that is seen of it is the same. The only refusal is that
/// memory ran out.
///
/// Texts and fields are copied, each into memory of its own; the bytes of attachments are shared.
pub fn copy_version(alloc: Global, v: &Version) -> Result<Version, NoMemory>
    ensures { IfOk result (λ copy. bare_version copy ≡ bare_version v.now) }
{
    Ok(Version {
        modified: v.modified,
        content: copy_content(alloc, &v.content)?,
        stats: v.stats,
    })
}
