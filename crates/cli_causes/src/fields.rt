//! Finding what is wrong in what is said of an entry's further fields, of its tags, and of when it
//! expires.
ghost use Rattle.std.specs.Prelude.{◌≡◌, IfOk};
ghost use Rattle.std.specs.Option.{option_or};
ghost use Rattle.cli_causes.specs.Fields as spec;
ghost use Rattle.cli_options.specs.SaidWords.{said_seen, text_seen, texts_among};

use crate::cause::Cause;
use cli_options::{CommandOption, RepeatedText, SaidWords, is_given, place_of, text_of};
use cli_parse::{expiry_named, is_own_name};
use outside_core::{NoMemory, Text};
use std::alloc::Global;
use tree_core::is_tag;

// The first text of an option that no field of one's own may have as its name.
fn first_wrong_name<'a>(repeated: &'a [RepeatedText], option: CommandOption) -> Option<&'a str>
    ensures { text_seen result ≡ spec.first_wrong_name (texts_among repeated.now option) }
{
    for text in repeated {
        if place_of(text.option) == place_of(option) && !is_own_name(text.text.as_str()) {
            return Some(text.text.as_str());
        }
    }
    None
}

// The first text of an option that is no tag.
fn first_wrong_tag<'a>(repeated: &'a [RepeatedText], option: CommandOption) -> Option<&'a str>
    ensures { text_seen result ≡ spec.first_wrong_tag (texts_among repeated.now option) }
{
    for text in repeated {
        if place_of(text.option) == place_of(option) && !is_tag(text.text.as_str()) {
            return Some(text.text.as_str());
        }
    }
    None
}

// A name that no field of one's own may have.
fn wrong_name(alloc: Global, option: CommandOption, name: &str) -> Result<Cause, NoMemory>
    ensures { IfOk result (λ cause. cause ≡ spec.wrong_name option name.now) }
{
    if name.is_empty() {
        Ok(Cause::EmptyFieldName(option))
    } else {
        Ok(Cause::StandardField(option, Text::of(alloc, name)?))
    }
}

// The first name of an option that no field of one's own may have.
fn names_cause(
    alloc: Global,
    option: CommandOption,
    said: &SaidWords<'_, '_>,
) -> Result<Option<Cause>, NoMemory>
    ensures { IfOk result (λ cause. cause ≡ spec.names_cause option (said_seen said.now)) }
{
    match first_wrong_name(said.repeated, option) {
        Some(name) => Ok(Some(wrong_name(alloc, option, name)?)),
        None => Ok(None),
    }
}

// The first text of an option that is no tag.
fn tags_cause(
    alloc: Global,
    option: CommandOption,
    said: &SaidWords<'_, '_>,
) -> Result<Option<Cause>, NoMemory>
    ensures { IfOk result (λ cause. cause ≡ spec.tags_cause option (said_seen said.now)) }
{
    match first_wrong_tag(said.repeated, option) {
        Some(tag) => Ok(Some(Cause::UnknownTag(option, Text::of(alloc, tag)?))),
        None => Ok(None),
    }
}

// The first name that no field of one's own may have.
fn all_names_cause(alloc: Global, said: &SaidWords<'_, '_>) -> Result<Option<Cause>, NoMemory>
    ensures { IfOk result (λ cause. cause ≡ spec.all_names_cause (said_seen said.now)) }
{
    match names_cause(alloc, CommandOption::Set, said)? {
        Some(cause) => Ok(Some(cause)),
        None => names_cause(alloc, CommandOption::Unset, said),
    }
}

// The first text that is no tag.
fn all_tags_cause(alloc: Global, said: &SaidWords<'_, '_>) -> Result<Option<Cause>, NoMemory>
    ensures { IfOk result (λ cause. cause ≡ spec.all_tags_cause (said_seen said.now)) }
{
    match tags_cause(alloc, CommandOption::Tag, said)? {
        Some(cause) => Ok(Some(cause)),
        None => tags_cause(alloc, CommandOption::Untag, said),
    }
}

// A text that is no time at which an entry expires.
fn expiry_cause(alloc: Global, text: Option<&str>) -> Result<Option<Cause>, NoMemory>
    ensures { IfOk result (λ cause. cause ≡ spec.expiry_cause (text_seen text.entry)) }
{
    match text {
        Some(text) if expiry_named(text).is_none() => {
            Ok(Some(Cause::UnknownTime(Text::of(alloc, text)?)))
        }
        _ => Ok(None),
    }
}

// Values are to be hidden, and there are none, or a text is no time.
fn expiring_cause(alloc: Global, said: &SaidWords<'_, '_>) -> Result<Option<Cause>, NoMemory>
    ensures { IfOk result (λ cause. cause ≡ spec.expiring_cause (said_seen said.now)) }
{
    if is_given(said, CommandOption::Protect) && !is_given(said, CommandOption::Set) {
        return Ok(Some(Cause::NeedsSet));
    }
    expiry_cause(alloc, text_of(said, CommandOption::Expires))
}

// A text is no tag, values are to be hidden and there are none, or a text is no time.
fn tags_or_expiring_cause(
    alloc: Global,
    said: &SaidWords<'_, '_>,
) -> Result<Option<Cause>, NoMemory>
    ensures { IfOk result (λ cause. cause
        ≡ option_or (spec.all_tags_cause (said_seen said.now))
        (spec.expiring_cause (said_seen said.now))) }
{
    match all_tags_cause(alloc, said)? {
        Some(cause) => Ok(Some(cause)),
        None => expiring_cause(alloc, said),
    }
}

/// What else of an entry is to change does not fit together.
pub(crate) fn further_cause(
    alloc: Global,
    said: &SaidWords<'_, '_>,
) -> Result<Option<Cause>, NoMemory>
    ensures { IfOk result (λ cause. cause ≡ spec.further_cause (said_seen said.now)) }
{
    match all_names_cause(alloc, said)? {
        Some(cause) => Ok(Some(cause)),
        None => tags_or_expiring_cause(alloc, said),
    }
}
