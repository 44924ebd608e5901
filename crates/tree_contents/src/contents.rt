//! What an entry says, after an edit.

ghost use Rattle.std.specs.Prelude.{◌≡◌, IfSome, OnOk, map, None, Some, true};
ghost use Rattle.std.specs.List.{list_all};
ghost use Rattle.std.specs.Str.{is_utf8};
ghost use Rattle.vault_model.specs.Proper.{is_proper_content};
ghost use Rattle.vault_model.specs.Seen.{bare_content, bare_field};
ghost use Rattle.tree_core.specs.FurtherChanges as spec;
ghost use Rattle.tree_core.specs.NewNodes.{edited_content, edited_fields, given_values};
ghost use Rattle.tree_core.specs.Tags.{changed_tags};

use crate::own_fields::{remove_fields, set_own_values};
use crate::texts::{text_is_utf8, texts_are_utf8, values_are_utf8};
use crate::values::set_values;
use outside_core::{List, NoMemory, Text};
use std::alloc::Global;
use tree_core::{Expiry, FurtherChange, Values, changed_tags};
use vault_model::{Content, Field, Protection, Stamp};

// Gives fields all values that are given, and takes those away that are to be.
fn edit_fields(
    alloc: Global,
    fields: &mut List<Field>,
    protect: &Protection,
    values: &Values<'_>,
    further: &FurtherChange<'_>,
) -> Result<(), NoMemory>
    ensures { OnOk result (map bare_field fields.new
        ≡ spec.without_fields (spec.further_seen further.now).unset
        (spec.with_own_values further.now.protect (spec.further_seen further.now).set
        (edited_fields protect.now (given_values values.now) (map bare_field fields.old)))) }
{
    set_values(alloc, fields, protect, values)?;
    set_own_values(
        alloc,
        fields,
        further.names,
        further.values,
        further.protect,
    )?;
    remove_fields(fields, further.unset);
    Ok(())
}

// Puts tags to a text of tags, and takes others away.
fn edit_tags(alloc: Global, text: &mut Text, further: &FurtherChange<'_>) -> Result<(), NoMemory>
    ensures is { OnOk result
        (text.new ≡ changed_tags further.now.tags.now further.now.untags.now text.old) }
    ensures utf8 { OnOk result (is_utf8 text.new ≡ true) }
{
    let new = changed_tags(alloc, text, further.tags, further.untags)?;
    text_is_utf8(new.as_str());
    *text = new;
    Ok(())
}

// Lets an entry expire at a time.
fn expire_at(content: &mut Content, time: Stamp)
    ensures { bare_content content.new ≡ record (bare_content content.old) {
      expires = true;
      expiry = time;
    } }
{
    content.expires = true;
    content.expiry = time;
}

// Sets when an entry expires.
fn set_expiry(content: &mut Content, expiry: &Expiry)
    ensures { bare_content content.new
        ≡ spec.with_expiry (Some expiry.now) (bare_content content.old) }
{
    match expiry {
        Expiry::Never => content.expires = false,
        Expiry::At(time) => expire_at(content, *time),
    }
}

// Sets when an entry expires, where that changes.
fn edit_expiry(content: &mut Content, further: &FurtherChange<'_>)
    ensures { bare_content content.new
        ≡ spec.with_expiry further.now.expiry (bare_content content.old) }
{
    if let Some(expiry) = &further.expiry {
        set_expiry(content, expiry);
    }
}

// Changes all but the time of expiry.
fn edit_parts(
    alloc: Global,
    content: &mut Content,
    protect: &Protection,
    values: &Values<'_>,
    further: &FurtherChange<'_>,
) -> Result<(), NoMemory>
    ensures is { OnOk result (bare_content content.new ≡ spec.further_changed
        (record (spec.further_seen further.now) { expiry = None })
        (edited_content protect.now (given_values values.now) (bare_content content.old))) }
    ensures utf8 { OnOk result (is_utf8 content.new.tags ≡ true) }
{
    edit_fields(alloc, &mut content.fields, protect, values, further)?;
    edit_tags(alloc, &mut content.tags, further)
}

/// Gives what a version says the values that are given, and changes its fields, its tags and when it
/// expires.
pub fn edit_content(
    alloc: Global,
    content: &mut Content,
    protect: &Protection,
    values: &Values<'_>,
    further: &FurtherChange<'_>,
) -> Result<(), NoMemory>
    requires password { IfSome values.now.password (λ password. is_utf8 password.now ≡ true) }
    requires otp { IfSome values.now.otp (λ otp. is_utf8 otp.now ≡ true) }
    requires fields { list_all (λ value. is_utf8 value.bytes) further.now.values.now ≡ true }
    ensures is { OnOk result (bare_content content.new
        ≡ spec.further_changed (spec.further_seen further.now)
        (edited_content protect.now (given_values values.now) (bare_content content.old))) }
    ensures proper { OnOk result (is_proper_content (bare_content content.old) ≡ true
        → is_proper_content (bare_content content.new) ≡ true) }
{
    values_are_utf8(values);
    texts_are_utf8(further.names);
    edit_parts(alloc, content, protect, values, further)?;
    edit_expiry(content, further);
    Ok(())
}
