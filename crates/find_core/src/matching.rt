//! Whether an entry matches terms whose texts are folded.

ghost use Rattle.std.specs.Prelude.{◌≡◌, IfOk, map};
ghost use Rattle.std.specs.List.{filter, list_any};
ghost use Rattle.find_core.specs.Search.{values_of};
ghost use Rattle.find_core.specs.inside.Found.{all_match_folded, has_folded, is_matched_folded};
ghost use Rattle.find_references.specs.Fields.{is_other};
ghost use Rattle.vault_model.specs.Seen.{bare_field};
ghost use Rattle.vault_model.specs.SeenNodes.{entry_record};

use crate::folding::{fits, fold};
use find_references::{SearchField, Term, field_value, is_named_key};
use outside_core::NoMemory;
use secret_core::Secret;
use std::alloc::Global;
use vault_model::{Entry, Field};

// Reports whether a value has a term's text in it, or is it.
fn has_text(alloc: Global, folded: &mut Secret, term: &Term, value: &[u8]) -> Result<bool, NoMemory>
    ensures { IfOk result (λ has. has ≡ has_folded term.now value.now) }
{
    fold(alloc, folded, value)?;
    Ok(fits(
        term.whole,
        folded.lend(0, folded.len()),
        term.text.as_str().as_bytes(),
    ))
}

// Reports whether one of some values has a term's text in it, or is it.
fn one_has_text(
    alloc: Global,
    folded: &mut Secret,
    term: &Term,
    values: &[&[u8]],
) -> Result<bool, NoMemory>
    ensures { IfOk result (λ has. has
        ≡ list_any (has_folded term.now) (map (λ v. v.now) values.now)) }
{
    for value in values {
        if has_text(alloc, folded, term, value)? {
            return Ok(true);
        }
    }
    Ok(false)
}

// The same of the values of the fields that have no names of their own.
fn other_has_text(
    alloc: Global,
    folded: &mut Secret,
    term: &Term,
    fields: &[Field],
) -> Result<bool, NoMemory>
    ensures { IfOk result (λ has. has ≡ list_any (has_folded term.now)
        (map (λ f. f.value) (filter is_other (map bare_field fields.now)))) }
{
    for field in fields {
        let value = field.value.lend(0, field.value.len());
        if !is_named_key(field.key.as_str()) && has_text(alloc, folded, term, value)? {
            return Ok(true);
        }
    }
    Ok(false)
}

// The same of the values that a term is compared with.
fn entry_has_text(
    alloc: Global,
    folded: &mut Secret,
    term: &Term,
    group: &[u8],
    entry: &Entry,
) -> Result<bool, NoMemory>
    ensures { IfOk result (λ has. has ≡ list_any (has_folded term.now)
        (values_of term.now.field group.now (entry_record entry.now))) }
{
    let title = field_value(entry, "Title");
    let user = field_value(entry, "UserName");
    let url = field_value(entry, "URL");
    let notes = field_value(entry, "Notes");
    let tags = entry.current.content.tags.as_str().as_bytes();
    match term.field {
        SearchField::Any => { one_has_text(alloc, folded, term, &[title, user, url, notes, tags]) }
        SearchField::Title => one_has_text(alloc, folded, term, &[title]),
        SearchField::UserName => one_has_text(alloc, folded, term, &[user]),
        SearchField::Password => {
            one_has_text(alloc, folded, term, &[field_value(entry, "Password")])
        }
        SearchField::Url => one_has_text(alloc, folded, term, &[url]),
        SearchField::Notes => one_has_text(alloc, folded, term, &[notes]),
        SearchField::Tags => one_has_text(alloc, folded, term, &[tags]),
        SearchField::Group => one_has_text(alloc, folded, term, &[group]),
        SearchField::Attr => {
            other_has_text(alloc, folded, term, entry.current.content.fields.as_slice())
        }
    }
}

// Reports whether a term matches an entry.
fn is_matched(
    alloc: Global,
    folded: &mut Secret,
    term: &Term,
    group: &[u8],
    entry: &Entry,
) -> Result<bool, NoMemory>
    ensures { IfOk result (λ matched. matched
        ≡ is_matched_folded group.now (entry_record entry.now) term.now) }
{
    let has = entry_has_text(alloc, folded, term, group, entry)?;
    Ok(if term.not { !has } else { has })
}

/// Reports whether an entry in a group of this name matches all terms.
pub(crate) fn all_match(
    alloc: Global,
    folded: &mut Secret,
    terms: &[Term],
    group: &[u8],
    entry: &Entry,
) -> Result<bool, NoMemory>
    ensures { IfOk result (λ matched. matched
        ≡ all_match_folded terms.now group.now (entry_record entry.now)) }
{
    for term in terms {
        if !is_matched(alloc, folded, term, group, entry)? {
            return Ok(false);
        }
    }
    Ok(true)
}
