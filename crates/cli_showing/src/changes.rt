//! What differs between two versions of an entry, named in a text.
ghost use Rattle.std.specs.Prelude.{◌≡◌, ◌++◌, IfOk, OnOk, false, map, true};
ghost use Rattle.vault_model.specs.Seen.{bare_content, bare_field};
ghost use Rattle.cli_showing.specs.History as spec;
ghost use Rattle.cli_showing.specs.History.{all_changed, comma_joined, name_if, names_changed, parts_changed};
ghost use Rattle.cli_showing.specs.inside.Names.{first_changed, put_name, put_names};

use crate::texts::append;
use outside_core::NoMemory;
use secret_core::Secret;
use std::alloc::Global;
use std::cmp::Ordering;
use vault_model::{Content, Field};

// Reports whether the icon or the custom icon differs.
fn is_icon_changed(newer: &Content, older: &Content) -> bool
    ensures { result ≡ spec.is_icon_changed (bare_content newer.now) (bare_content older.now) }
{
    newer.icon != older.icon || newer.custom_icon.cmp(&older.custom_icon).is_ne()
}

// Reports whether two versions differ in whether they expire, or when.
fn is_expiry_changed(newer: &Content, older: &Content) -> bool
    ensures { result ≡ spec.is_expiry_changed (bare_content newer.now) (bare_content older.now) }
{
    newer.expires.cmp(&older.expires).is_ne() || newer.expiry != older.expiry
}

// Reports whether the attachments differ.
fn are_attachments_changed(newer: &Content, older: &Content) -> bool
    ensures { result ≡ spec.are_attachments_changed (bare_content newer.now)
        (bare_content older.now) }
{
    newer.attachments.cmp(&older.attachments).is_ne()
}

// Reports whether the foreground or the background differs.
fn are_colours_changed(newer: &Content, older: &Content) -> bool
    ensures { result ≡ spec.are_colours_changed (bare_content newer.now) (bare_content older.now) }
{
    newer.fore.cmp(&older.fore).is_ne() || newer.back.cmp(&older.back).is_ne()
}

// Reports whether anything else differs.
#[tactic(auto, unfolding(vault_model::specs::Orders::item_cmp, vault_model::specs::Orders::association_cmp, vault_model::specs::Orders::auto_type_cmp))]
fn is_other_changed(newer: &Content, older: &Content) -> bool
    ensures { result ≡ spec.is_other_changed (bare_content newer.now) (bare_content older.now) }
{
    newer.created != older.created
        || newer.url_override.cmp(&older.url_override).is_ne()
        || newer.auto_type.cmp(&older.auto_type).is_ne()
        || newer.items.cmp(&older.items).is_ne()
        || newer.quality.cmp(&older.quality).is_ne()
}

// Puts a name after a text, and a comma before it where there is one already.
fn append_name(alloc: Global, text: &mut Secret, some: bool, name: &[u8]) -> Result<(), NoMemory>
    ensures { OnOk result ((text.new.bytes, true) ≡ put_name (text.old.bytes, some) name.now) }
{
    if some {
        append(alloc, text, b", ")?;
    }
    append(alloc, text, name)
}

// The same where something has changed. The result is whether there is a name now.
fn append_if(
    alloc: Global,
    text: &mut Secret,
    some: bool,
    changed: bool,
    name: &[u8],
) -> Result<bool, NoMemory>
    ensures { IfOk result (λ more. (text.new.bytes, more)
        ≡ put_names (name_if changed name.now) (text.old.bytes, some)) }
{
    if !changed {
        return Ok(some);
    }
    append_name(alloc, text, some, name)?;
    Ok(true)
}

// Puts the names of these fields after a text.
fn append_all(
    alloc: Global,
    text: &mut Secret,
    some: bool,
    fields: &[Field],
) -> Result<bool, NoMemory>
    ensures { IfOk result (λ more. (text.new.bytes, more)
        ≡ put_names (map (λ f. f.key) (map bare_field fields.now)) (text.old.bytes, some)) }
{
    let mut more = some;
    for field in fields {
        append_name(alloc, text, more, field.key.as_str().as_bytes())?;
        more = true;
    }
    Ok(more)
}

// Puts what the first of two lists of fields tell after a text.
fn append_first(
    alloc: Global,
    text: &mut Secret,
    some: bool,
    field: &Field,
    older: &Field,
) -> Result<bool, NoMemory>
    ensures { IfOk result (λ more. (text.new.bytes, more)
        ≡ put_names (first_changed (bare_field field.now) (bare_field older.now))
        (text.old.bytes, some)) }
{
    let name = field.key.as_str().as_bytes();
    match field.key.cmp(&older.key) {
        Ordering::Less => append_if(alloc, text, some, true, name),
        Ordering::Equal => append_if(alloc, text, some, field.cmp(older).is_ne(), name),
        Ordering::Greater => { append_if(alloc, text, some, true, older.key.as_str().as_bytes()) }
    }
}

// Puts the names of the fields that differ after a text.
fn append_fields(
    alloc: Global,
    text: &mut Secret,
    newer: &[Field],
    older: &[Field],
) -> Result<bool, NoMemory>
    ensures { IfOk result (λ more. (text.new.bytes, more)
        ≡ put_names (names_changed (map bare_field newer.now) (map bare_field older.now))
        (text.old.bytes, false)) }
{
    let mut some = false;
    let mut at = 0;
    let mut passed = 0;
    while at < newer.len() && passed < older.len() {
        let field = &newer[at];
        let other = &older[passed];
        some = append_first(alloc, text, some, field, other)?;
        match field.key.cmp(&other.key) {
            Ordering::Less => at += 1,
            Ordering::Equal => {
                at += 1;
                passed += 1;
            }
            Ordering::Greater => passed += 1,
        }
    }
    some = append_all(alloc, text, some, &newer[at..])?;
    append_all(alloc, text, some, &older[passed..])
}

// Puts the other parts that differ after a text.
fn append_parts(
    alloc: Global,
    text: &mut Secret,
    some: bool,
    newer: &Content,
    older: &Content,
) -> Result<bool, NoMemory>
    ensures { IfOk result (λ more. (text.new.bytes, more)
        ≡ put_names (parts_changed (bare_content newer.now) (bare_content older.now))
        (text.old.bytes, some)) }
{
    let tags = newer.tags.cmp(&older.tags).is_ne();
    let icon = append_if(alloc, text, some, is_icon_changed(newer, older), b"icon")?;
    let tagged = append_if(alloc, text, icon, tags, b"tags")?;
    let expiry = append_if(
        alloc,
        text,
        tagged,
        is_expiry_changed(newer, older),
        b"expiry",
    )?;
    let attachments = are_attachments_changed(newer, older);
    let attached = append_if(alloc, text, expiry, attachments, b"attachments")?;
    let colours = append_if(
        alloc,
        text,
        attached,
        are_colours_changed(newer, older),
        b"colours",
    )?;
    append_if(
        alloc,
        text,
        colours,
        is_other_changed(newer, older),
        b"other",
    )
}

/// Puts what differs of two versions after a text, with a comma and a space between each two names.
pub(crate) fn append_changes(
    alloc: Global,
    text: &mut Secret,
    newer: &Content,
    older: &Content,
) -> Result<(), NoMemory>
    ensures { OnOk result (text.new.bytes ≡ text.old.bytes
        ++ comma_joined (all_changed (bare_content newer.now) (bare_content older.now))) }
{
    let some = append_fields(
        alloc,
        text,
        newer.fields.as_slice(),
        older.fields.as_slice(),
    )?;
    append_parts(alloc, text, some, newer, older)?;
    Ok(())
}
