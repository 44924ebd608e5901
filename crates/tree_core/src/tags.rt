//! The tags of an entry, which are one text.

ghost use Rattle.std.specs.Prelude.{◌≡◌, [], ◌∷◌, ◌++◌, IfOk, OnOk, position, string_bytes};
ghost use Rattle.std.specs.List.{filter};
ghost use Rattle.std.specs.Str.{trim};
ghost use Rattle.tree_core.specs.Tags as spec;

use std::alloc::Global;
use vault_model::outside_core::{List, NoMemory, Text};

// Where the first byte is that parts two tags.
fn tag_end(text: &[u8]) -> Option<usize>
    ensures { result ≡ position spec.parts_tags text.now }
{
    text.iter().position(|byte| *byte == b';' || *byte == b',')
}

/// Reports whether a text is one tag: the only tag in it is the text itself. Takes no memory.
pub fn is_tag(text: &str) -> bool
    ensures { result ≡ spec.is_tag text.now }
{
    match tag_end(text.as_bytes()) {
        Some(_) => false,
        None => !text.is_empty() && text == text.trim(),
    }
}

// Reports whether a text is among others.
fn is_among(text: &str, others: &[Text]) -> bool
    ensures { result ≡ spec.is_among text.now others.now }
{
    others.iter().any(|other| text == other.as_str())
}

// Puts a tag after others.
fn put_tag(alloc: Global, tag: &str, tags: &mut List<Text>) -> Result<(), NoMemory>
    ensures { OnOk result (tags.new ≡ tags.old ++ tag.now ∷ []) }
{
    match tags.push(Text::of(alloc, tag)?) {
        Ok(()) => Ok(()),
        Err(_) => Err(NoMemory),
    }
}

// Puts what is in a text, without white space around it, after other tags, where there is something.
fn put_trimmed(alloc: Global, text: &str, tags: &mut List<Text>) -> Result<(), NoMemory>
    ensures { OnOk result (tags.new ≡ tags.old ++ filter spec.has_bytes (trim text.now ∷ [])) }
{
    let tag = text.trim();
    if tag.is_empty() {
        return Ok(());
    }
    put_tag(alloc, tag, tags)
}

// Puts the tags in a text after others.
fn put_tags_in(alloc: Global, text: &str, tags: &mut List<Text>) -> Result<(), NoMemory>
    ensures { OnOk result (tags.new ≡ tags.old ++ spec.tags_in text.now) }
{
    let mut rest = text;
    while let Some(at) = tag_end(rest.as_bytes()) {
        put_trimmed(alloc, &rest[..at], tags)?;
        rest = &rest[at + 1..];
    }
    put_trimmed(alloc, rest, tags)
}

// Puts further tags after others, each unless it is there.
fn put_missing(alloc: Global, more: &[Text], tags: &mut List<Text>) -> Result<(), NoMemory>
    ensures { OnOk result (tags.new ≡ spec.with_tags more.now tags.old) }
{
    for tag in more {
        if !is_among(tag.as_str(), tags.as_slice()) {
            put_tag(alloc, tag.as_str(), tags)?;
        }
    }
    Ok(())
}

// Puts the tags in a text, and further ones, into a list that is empty.
fn gather(alloc: Global, text: &str, more: &[Text], tags: &mut List<Text>) -> Result<(), NoMemory>
    ensures { OnOk result (tags.new ≡ spec.with_tags more.now (tags.old ++ spec.tags_in text.now)) }
{
    put_tags_in(alloc, text, tags)?;
    put_missing(alloc, more, tags)
}

// Writes a mark and a tag at the end of a text.
fn write_tag(text: &mut String, mark: &str, tag: &str) -> Result<(), NoMemory>
    ensures { OnOk result
        (string_bytes text.new ≡ string_bytes text.old ++ mark.now ++ tag.now) }
{
    text.push_str(mark)?;
    text.push_str(tag)?;
    Ok(())
}

// Writes the text that tags without others are at the end of a text.
fn write_joined(text: &mut String, tags: &[Text], others: &[Text]) -> Result<(), NoMemory>
    ensures { OnOk result (string_bytes text.new ≡ string_bytes text.old
        ++ spec.joined_tags (spec.without_tags others.now tags.now)) }
{
    let mut mark = "";
    for tag in tags {
        if is_among(tag.as_str(), others) {
            continue;
        }
        write_tag(text, mark, tag.as_str())?;
        mark = ";";
    }
    Ok(())
}

// The text that tags without others are.
fn joined(alloc: Global, tags: &[Text], others: &[Text]) -> Result<Text, NoMemory>
    ensures { IfOk result
        (λ text. text ≡ spec.joined_tags (spec.without_tags others.now tags.now)) }
{
    let mut text = String::new(alloc);
    match write_joined(&mut text, tags, others) {
        Ok(()) => Text::of(alloc, text.as_str()),
        Err(refusal) => Err(refusal),
    }
}

/// A text of tags, with tags after the others, each unless it is there, and without tags that are
/// taken away. The text is the tags in it, each without white space around it, with a semicolon
/// between each two; where nothing is put to it or taken away, it is as it was.
pub fn changed_tags(
    alloc: Global,
    text: &Text,
    tags: &[Text],
    untags: &[Text],
) -> Result<Text, NoMemory>
    ensures { IfOk result (λ new. new ≡ spec.changed_tags tags.now untags.now text.now) }
{
    if tags.is_empty() && untags.is_empty() {
        return Text::of(alloc, text.as_str());
    }
    let mut gathered = List::new(alloc);
    match gather(alloc, text.as_str(), tags, &mut gathered) {
        Ok(()) => joined(alloc, gathered.as_slice(), untags),
        Err(refusal) => Err(refusal),
    }
}
