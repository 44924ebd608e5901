//! What words ask for of an entry's further fields, of its tags, and of when it expires.
ghost use Rattle.std.specs.Prelude.{◌≡◌, IfOk};
ghost use Rattle.std.specs.List.{list_all};
ghost use Rattle.cli_options.specs.declared.forms.CommandOption.TheVariants as option;
ghost use Rattle.cli_options.specs.Said.{texts_of};
ghost use Rattle.cli_options.specs.SaidWords.{Gives, said_seen, text_seen, texts_among};
ghost use Rattle.cli_parse.specs.Fields as spec;
ghost use Rattle.doc_forms.specs.Values as values;
ghost use Rattle.tree_core.specs.Tags as tags;

use cli_needs::FurtherAsked;
use cli_options::{
    CommandOption, RepeatedText, SaidWords, WordsFail, is_given, place_of, text_of, texts_of,
};
use outside_core::{List, NoMemory, Text};
use std::alloc::Global;
use tree_core::{Expiry, is_tag};
use vault_model::{Stamp, stamp_of_iso};

// Reports whether a name is one of the five fields that every entry has.
fn is_standard_name(name: &str) -> bool
    ensures { result ≡ spec.is_standard_name name.now }
{
    name == "Title" || name == "UserName" || name == "Password" || name == "URL" || name == "Notes"
}

/// Reports whether a field of one's own may have this name.
pub fn is_own_name(name: &str) -> bool
    ensures { result ≡ spec.is_own_name name.now }
{
    !name.is_empty() && !is_standard_name(name)
}

// Reports whether all texts of an option are names of fields of one's own.
fn are_own_names(repeated: &[RepeatedText], option: CommandOption) -> bool
    ensures { result ≡ list_all spec.is_own_name (texts_among repeated.now option) }
{
    for text in repeated {
        if place_of(text.option) == place_of(option) && !is_own_name(text.text.as_str()) {
            return false;
        }
    }
    true
}

// Reports whether all texts of an option are one tag each.
fn are_tags(repeated: &[RepeatedText], option: CommandOption) -> bool
    ensures { result ≡ list_all tags.is_tag (texts_among repeated.now option) }
{
    for text in repeated {
        if place_of(text.option) == place_of(option) && !is_tag(text.text.as_str()) {
            return false;
        }
    }
    true
}

// Reports whether what is said fits together.
fn is_fit_further(said: &SaidWords<'_, '_>) -> bool
    ensures { result ≡ spec.is_fit_further (said_seen said.now) }
{
    are_own_names(said.repeated, CommandOption::Set)
        && are_own_names(said.repeated, CommandOption::Unset)
        && are_tags(said.repeated, CommandOption::Tag)
        && are_tags(said.repeated, CommandOption::Untag)
        && (!is_given(said, CommandOption::Protect) || is_given(said, CommandOption::Set))
}

// The time that `YYYY-MM-DDThh:mm:ssZ` writes.
fn iso_time(text: &[u8]) -> Option<Stamp>
    ensures { result ≡ values.iso_time text.now }
{
    stamp_of_iso(text)
}

/// When an entry expires by a text: `never`, or at a time `YYYY-MM-DDThh:mm:ssZ`.
pub fn expiry_named(text: &str) -> Option<Expiry>
    ensures { result ≡ spec.expiry_named text.now }
{
    if text == "never" {
        return Some(Expiry::Never);
    }
    match iso_time(text.as_bytes()) {
        Some(time) => Some(Expiry::At(time)),
        None => None,
    }
}

// When an entry expires from now on, if that is to change.
fn expiry_asked(text: Option<&str>) -> Option<Option<Expiry>>
    ensures { result ≡ spec.expiry_asked (text_seen text.entry) }
{
    match text {
        Some(text) => match expiry_named(text) {
            Some(expiry) => Some(Some(expiry)),
            None => None,
        },
        None => Some(None),
    }
}

// The texts of an entry's further change.
#[derive(Drop)]
struct FurtherTexts {
    set: List<Text>,
    unset: List<Text>,
    tags: List<Text>,
    untags: List<Text>,
}

// The texts of an entry's further change.
fn further_texts(alloc: Global, said: &SaidWords<'_, '_>) -> Result<FurtherTexts, NoMemory>
    ensures set { IfOk result (λ t. t.set ≡ texts_of option.Set (said_seen said.now)) }
    ensures unset { IfOk result (λ t. t.unset ≡ texts_of option.Unset (said_seen said.now)) }
    ensures tags { IfOk result (λ t. t.tags ≡ texts_of option.Tag (said_seen said.now)) }
    ensures untags { IfOk result (λ t. t.untags ≡ texts_of option.Untag (said_seen said.now)) }
{
    let set = texts_of(alloc, said, CommandOption::Set)?;
    let unset = match texts_of(alloc, said, CommandOption::Unset) {
        Ok(unset) => unset,
        Err(fail) => {
            drop(set);
            return Err(fail);
        }
    };
    let tags = match texts_of(alloc, said, CommandOption::Tag) {
        Ok(tags) => tags,
        Err(fail) => {
            drop(set);
            drop(unset);
            return Err(fail);
        }
    };
    match texts_of(alloc, said, CommandOption::Untag) {
        Ok(untags) => Ok(FurtherTexts {
            set,
            unset,
            tags,
            untags,
        }),
        Err(fail) => {
            drop(set);
            drop(unset);
            drop(tags);
            Err(fail)
        }
    }
}

/// What else of an entry is to change, if it fits together.
pub(crate) fn further_of(alloc: Global, said: &SaidWords<'_, '_>) -> Result<FurtherAsked, WordsFail>
    ensures { Gives (λ further. further) result (spec.further_of (said_seen said.now)) }
{
    if !is_fit_further(said) {
        return Err(WordsFail::Wrong);
    }
    let Some(expiry) = expiry_asked(text_of(said, CommandOption::Expires)) else {
        return Err(WordsFail::Wrong);
    };
    let texts = further_texts(alloc, said)?;
    Ok(FurtherAsked {
        set: texts.set,
        protect: is_given(said, CommandOption::Protect),
        unset: texts.unset,
        tags: texts.tags,
        untags: texts.untags,
        expiry,
    })
}
