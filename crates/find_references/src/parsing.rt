//! Reading terms.

ghost use Rattle.std.specs.Prelude.{◌≡◌, [], ◌∷◌, ◌++◌, false, OnOk};
ghost use Rattle.outside_core.specs.Results.{Returns};
ghost use Rattle.find_references.specs.Results.{meaning_of};
ghost use Rattle.find_references.specs.SeenTerms.{found_seen, signs_seen};
ghost use Rattle.find_references.specs.Terms as spec;
ghost use Rattle.find_references.specs.Terms.{is_quote, is_space, terms_of};

use crate::fail::FindFail;
use crate::terms::{SearchField, Term, Terms};
use outside_core::{List, NoMemory, Text};
use std::alloc::Global;

// The field of a name.
fn field_named(word: &str) -> Option<SearchField>
    ensures { result ≡ spec.field_named word.now }
{
    match word {
        "title" | "t" => Some(SearchField::Title),
        "username" | "user" | "u" => Some(SearchField::UserName),
        "password" | "pass" | "p" => Some(SearchField::Password),
        "url" => Some(SearchField::Url),
        "notes" | "n" => Some(SearchField::Notes),
        "tags" => Some(SearchField::Tags),
        "group" | "g" => Some(SearchField::Group),
        "attr" => Some(SearchField::Attr),
        _ => None,
    }
}

// The signs that a text begins with, and what follows them.
#[derive(Clone, Copy)]
struct Signs<'a> {
    not: bool,
    whole: bool,
    following: &'a str,
}

// The signs that a text begins with.
fn signs_before(text: &str) -> Signs<'_>
    ensures { signs_seen result ≡ spec.signs_before false false text.now }
{
    let mut not = false;
    let mut whole = false;
    let mut following = text;
    'signs: loop {
        if let Some(rest) = following.strip_prefix('!') {
            not = true;
            following = rest;
        } else if let Some(rest) = following.strip_prefix('-') {
            not = true;
            following = rest;
        } else if let Some(rest) = following.strip_prefix('+') {
            whole = true;
            following = rest;
        } else {
            return Signs {
                not,
                whole,
                following,
            };
        }
    }
}

// The field that a text begins with, and what follows it.
fn field_before(text: &str) -> (SearchField, &str)
    ensures field { result.0 ≡ (spec.field_before text.now).field }
    ensures following { result.1.now ≡ (spec.field_before text.now).following }
{
    if let Some((word, following)) = text.split_once(':') {
        if let Some(field) = field_named(word) {
            return (field, following);
        }
    }
    (SearchField::Any, text)
}

// What is before the first byte of this kind, or up to the end, and what follows it.
fn cut_at_space(text: &str) -> (&str, &str)
    ensures text { result.0.now ≡ (spec.cut_at is_space text.now).text }
    ensures following { result.1.now ≡ (spec.cut_at is_space text.now).following }
{
    match text.split_once(' ') {
        Some(parts) => parts,
        None => (text, ""),
    }
}

// The same up to a quotation mark.
fn cut_at_quote(text: &str) -> (&str, &str)
    ensures text { result.0.now ≡ (spec.cut_at is_quote text.now).text }
    ensures following { result.1.now ≡ (spec.cut_at is_quote text.now).following }
{
    match text.split_once('"') {
        Some(parts) => parts,
        None => (text, ""),
    }
}

// A term's text, and what follows it.
fn text_before(text: &str) -> (&str, &str)
    ensures text { result.0.now ≡ (spec.text_before text.now).text }
    ensures following { result.1.now ≡ (spec.text_before text.now).following }
{
    match text.strip_prefix('"') {
        Some(quoted) => cut_at_quote(quoted),
        None => cut_at_space(text),
    }
}

// A term as a text has it, and what follows it.
#[derive(Clone, Copy)]
struct Found<'a> {
    not: bool,
    whole: bool,
    field: SearchField,
    text: &'a str,
    following: &'a str,
}

// The term that a text begins with.
#[tactic(auto, unfolding(crate::specs::Terms::term_before))]
fn term_before(text: &str) -> Found<'_>
    ensures { found_seen result ≡ spec.term_before text.now }
{
    let Signs {
        not,
        whole,
        following,
    } = signs_before(text);
    let (field, following) = field_before(following);
    let (text, following) = text_before(following);
    Found {
        not,
        whole,
        field,
        text,
        following,
    }
}

// Adds a term.
fn add_term(alloc: Global, terms: &mut Terms, found: Found<'_>) -> Result<(), NoMemory>
    ensures { OnOk result (terms.new ≡ terms.old ++ (found_seen found.entry).term ∷ []) }
{
    let term = Term {
        not: found.not,
        whole: found.whole,
        field: found.field,
        text: Text::of(alloc, found.text)?,
    };
    match terms.push(term) {
        Ok(()) => Ok(()),
        Err(_term) => Err(NoMemory),
    }
}

/// The terms of a search. They are separated by spaces, and each is any of the signs `!`, `-` and
/// `+`, then a field and a colon or nothing, then a text up to a space, or in quotation marks.
pub fn parse_terms(alloc: Global, text: &str) -> Result<Terms, FindFail>
    ensures { Returns meaning_of (λ terms. terms) result (terms_of text.now) }
{
    let mut terms = List::new(alloc);
    let mut rest = text;
    while !rest.is_empty() {
        match rest.strip_prefix(' ') {
            Some(following) => rest = following,
            None => {
                let found = term_before(rest);
                if found.text.is_empty() {
                    return Err(FindFail::EmptyTerm(text.len() - rest.len()));
                }
                add_term(alloc, &mut terms, found)?;
                rest = found.following;
            }
        }
    }
    if terms.len() == 0 {
        return Err(FindFail::EmptyTerm(0));
    }
    Ok(terms)
}
