//! An index of entries by the texts that they have at a place.

ghost use Rattle.std.specs.Prelude.{◌≡◌, ◌&&◌, IfOk, List, OnOk, map, option_map};
ghost use Rattle.std.specs.Cow.{cow_slice_items};
ghost use Rattle.std.specs.List.{find, list_any};
ghost use Rattle.std.specs.Str.{bytes_eq, str_to_ascii_lowercase};
ghost use Rattle.find_references.specs.declared.parts.Place.TheVariants.{In};
ghost use Rattle.find_references.specs.Fields.{has_at, is_other, part_value};
ghost use Rattle.find_references.specs.inside.Indexed.{Adds, IsIndex, Row, are_digits, compared, has_compared, row_at, where_it_has};
ghost use Rattle.uuid.specs.Text.{simple_text, upper};
ghost use Rattle.vault_model.specs.Seen.{bare_field};
ghost use Rattle.vault_model.specs.SeenNodes.{entry_row, tree_seen};
ghost use Rattle.vault_model.specs.Tree.{entry_rows};

use crate::fields::{field_value, is_named_key};
use crate::parts::{Part, Place};
use outside_core::NoMemory;
use secret_core::Secret;
use std::alloc::Global;
use std::borrow::CowSlice;
use std::collections::BTreeMap;
use uuid_core::Uuid;
use vault_model::{Entry, Field, Group};

/// The first entry at each text. The document lends the texts; ids are copied, as digits in lower
/// case.
pub(crate) type Index<'a> = BTreeMap<CowSlice<'a, u8, Global>, &'a Entry>;

// Puts an entry at a text, unless there is one.
fn add_text<'a>(
    index: &mut Index<'a>,
    text: CowSlice<'a, u8, Global>,
    entry: &'a Entry,
) -> Result<(), NoMemory>
    ensures { OnOk result (Adds
        (λ bytes. where_it_has (bytes_eq (cow_slice_items text.entry) bytes) (entry_row entry.now))
        index.old index.new) }
{
    if !index.contains_key(&text) {
        index.insert(text, entry)?;
    }
    Ok(())
}

// The digits of an id, in lower case.
fn lower_digits(alloc: Global, id: Uuid) -> Result<Vec<u8>, NoMemory>
    ensures { IfOk result (λ digits. digits.items
        ≡ str_to_ascii_lowercase (simple_text upper id)) }
{
    let mut buffer = [0; 32];
    let digits = id.encode_simple(&mut buffer);
    let mut lower = Vec::new(alloc);
    for digit in digits.as_bytes() {
        lower.push(digit.to_ascii_lowercase())?;
    }
    Ok(lower)
}

// A part of an entry, as it is compared.
fn compared_part<'a>(
    alloc: Global,
    part: Part,
    entry: &'a Entry,
) -> Result<CowSlice<'a, u8, Global>, NoMemory>
    ensures { IfOk result (λ text. cow_slice_items text
        ≡ compared (In part) (part_value part (entry_row entry.now))) }
{
    let value = match part {
        Part::Title => field_value(entry, "Title"),
        Part::UserName => field_value(entry, "UserName"),
        Part::Password => field_value(entry, "Password"),
        Part::Url => field_value(entry, "URL"),
        Part::Notes => field_value(entry, "Notes"),
        Part::Id => return Ok(CowSlice::Owned(lower_digits(alloc, entry.id)?)),
    };
    Ok(CowSlice::Borrowed(value))
}

// Puts an entry at a part of it.
fn add_part<'a>(
    alloc: Global,
    index: &mut Index<'a>,
    part: Part,
    entry: &'a Entry,
) -> Result<(), NoMemory>
    ensures { OnOk result (Adds
        (λ bytes. where_it_has (has_compared (In part) bytes (entry_row entry.now))
        (entry_row entry.now)) index.old index.new) }
{
    let text = compared_part(alloc, part, entry)?;
    add_text(index, text, entry)?;
    Ok(())
}

// Puts an entry at the value of a field that no part names.
fn add_other<'a>(index: &mut Index<'a>, field: &'a Field, entry: &'a Entry) -> Result<(), NoMemory>
    ensures { OnOk result (Adds
        (λ bytes. where_it_has (is_other (bare_field field.now)
        && bytes_eq field.now.value.bytes bytes) (entry_row entry.now)) index.old index.new) }
{
    if is_named_key(field.key.as_str()) {
        return Ok(());
    }
    let value = field.value.lend(0, field.value.len());
    add_text(index, CowSlice::Borrowed(value), entry)?;
    Ok(())
}

// Puts an entry at the values of those of some fields that no part names.
fn add_others<'a>(
    index: &mut Index<'a>,
    fields: &'a [Field],
    entry: &'a Entry,
) -> Result<(), NoMemory>
    ensures { OnOk result (Adds
        (λ bytes. where_it_has (list_any (λ f. is_other f && bytes_eq f.value bytes)
        (map bare_field fields.now)) (entry_row entry.now)) index.old index.new) }
{
    for field in fields {
        add_other(index, field, entry)?;
    }
    Ok(())
}

// Puts an entry at the texts that it has at a place.
fn add_entry<'a>(
    alloc: Global,
    index: &mut Index<'a>,
    place: Place,
    entry: &'a Entry,
) -> Result<(), NoMemory>
    ensures { OnOk result (Adds
        (λ bytes. where_it_has (has_compared place bytes (entry_row entry.now))
        (entry_row entry.now)) index.old index.new) }
{
    match place {
        Place::In(part) => add_part(alloc, index, part, entry),
        Place::OtherField => add_others(index, entry.current.content.fields.as_slice(), entry),
    }
}

// Puts entries at the texts that they have at a place.
fn add_entries<'a>(
    alloc: Global,
    index: &mut Index<'a>,
    place: Place,
    entries: &'a [Entry],
) -> Result<(), NoMemory>
    ensures { OnOk result (Adds
        (λ bytes. find (has_compared place bytes) (map entry_row entries.now))
        index.old index.new) }
{
    for entry in entries {
        add_entry(alloc, index, place, entry)?;
    }
    Ok(())
}

// The same for the entries of a group, and then of its groups.
fn add_group<'a>(
    alloc: Global,
    index: &mut Index<'a>,
    place: Place,
    group: &'a Group,
) -> Result<(), NoMemory>
    ensures { OnOk result (Adds
        (λ bytes. find (has_compared place bytes) (entry_rows (tree_seen group.now)))
        index.old index.new) }
{
    add_entries(alloc, index, place, group.entries.as_slice())?;
    for child in group.groups.as_slice() {
        add_group(alloc, index, place, child)?;
    }
    Ok(())
}

/// The index of all entries of a group, and of the groups below it, by the texts at a place.
pub(crate) fn index_of(alloc: Global, place: Place, root: &Group) -> Result<Index<'_>, NoMemory>
    ensures { IfOk result (λ index. IsIndex place (entry_rows (tree_seen root.now)) index) }
{
    let mut index = BTreeMap::new(alloc);
    add_group(alloc, &mut index, place, root)?;
    Ok(index)
}

// A text with its letters in lower case.
fn lowered(alloc: Global, text: &[u8]) -> Result<Secret, NoMemory>
    ensures { IfOk result (λ lower. lower.bytes ≡ str_to_ascii_lowercase text.now) }
{
    let mut lower = Secret::with_room(alloc, text.len())?;
    for byte in text {
        lower.push(byte.to_ascii_lowercase());
    }
    Ok(lower)
}

// Reports whether texts at a place are digits of ids.
fn are_digits(place: Place) -> bool
    ensures { result ≡ are_digits place }
{
    match place {
        Place::In(Part::Id) => true,
        _ => false,
    }
}

/// The entry that an index by the texts at a place has at one of them.
pub(crate) fn entry_at<'a>(
    alloc: Global,
    index: &Index<'a>,
    place: Place,
    text: &[u8],
) -> Result<Option<&'a Entry>, NoMemory>
    ensures { IfOk result (λ found. option_map (λ entry. entry_row entry.now) found
        ≡ row_at index.now (compared place text.now)) }
{
    if !are_digits(place) {
        return Ok(index.get(text).copied());
    }
    let digits = lowered(alloc, text)?;
    Ok(index.get(digits.lend(0, digits.len())).copied())
}
