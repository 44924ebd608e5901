//! The entries that terms match.

ghost use Rattle.std.specs.Prelude.{◌≡◌, ◌++◌, IfOk, OnOk, map};
ghost use Rattle.find_core.specs.Folding as folding;
ghost use Rattle.find_core.specs.Search as spec;
ghost use Rattle.find_core.specs.Search.{entries_found, found_in, passing};
ghost use Rattle.find_core.specs.inside.Found.{all_match_folded, folded_term};
ghost use Rattle.find_references.specs.Results.{meaning_of};
ghost use Rattle.outside_core.specs.Results.{Returns};
ghost use Rattle.vault_model.specs.SeenDoc.{doc_seen};
ghost use Rattle.vault_model.specs.SeenNodes.{entry_row, tree_seen};

use crate::matching::all_match;
use caseless::default_case_fold_str;
use find_references::{FindFail, Term, Terms};
use outside_core::{List, NoMemory, Text};
use secret_core::Secret;
use std::alloc::Global;
use uuid_core::Uuid;
use vault_model::{Doc, Entry, Group, Tri};

/// Ids of entries.
pub type Ids = List<Uuid>;

// A text with full case folding.
#[tactic(auto, unfolding(crate::specs::Folding::case_folded))]
fn case_folded(alloc: Global, text: &str) -> Result<Text, NoMemory>
    ensures { IfOk result (λ folded. folded ≡ folding.case_folded text.now) }
{
    let folded = default_case_fold_str(alloc, text)?;
    Text::of(alloc, folded.as_str())
}

// The same terms with their texts folded.
fn folded_terms(alloc: Global, terms: &[Term]) -> Result<Terms, NoMemory>
    ensures { IfOk result (λ folded. folded ≡ map folded_term terms.now) }
{
    let mut all = List::new(alloc);
    for term in terms {
        let term = Term {
            not: term.not,
            whole: term.whole,
            field: term.field,
            text: case_folded(alloc, term.text.as_str())?,
        };
        if all.push(term).is_err() {
            return Err(NoMemory);
        }
    }
    Ok(all)
}

// Reports whether a group's entries are searched.
fn is_searched(above: bool, searching: Tri) -> bool
    ensures { result ≡ spec.is_searched above searching }
{
    match searching {
        Tri::Inherit => above,
        Tri::No => false,
        Tri::Yes => true,
    }
}

// Adds those of a group's entries that match; `folded` is memory for one value at a time.
fn add_matched(
    alloc: Global,
    terms: &[Term],
    folded: &mut Secret,
    ids: &mut Ids,
    group: &[u8],
    entries: &[Entry],
) -> Result<(), NoMemory>
    ensures { OnOk result (ids.new ≡ ids.old
        ++ passing (all_match_folded terms.now) group.now (map entry_row entries.now)) }
{
    for entry in entries {
        if all_match(alloc, folded, terms, group, entry)? && ids.push(entry.id).is_err() {
            return Err(NoMemory);
        }
    }
    Ok(())
}

// Adds the entries of a group and below it that match.
fn add_found(
    alloc: Global,
    terms: &[Term],
    folded: &mut Secret,
    ids: &mut Ids,
    above: bool,
    group: &Group,
) -> Result<(), NoMemory>
    ensures { OnOk result (ids.new ≡ ids.old
        ++ found_in (all_match_folded terms.now) above (tree_seen group.now)) }
{
    let searched = is_searched(above, group.state.content.searching);
    if searched {
        let name = group.state.content.name.as_str().as_bytes();
        add_matched(alloc, terms, folded, ids, name, group.entries.as_slice())?;
    }
    for child in group.groups.as_slice() {
        add_found(alloc, terms, folded, ids, searched, child)?;
    }
    Ok(())
}

/// The entries of a document that match all terms, in document order. Entries of groups that are
/// not to be searched are passed over.
#[tactic(auto, unfolding(crate::specs::Search::entries_found))]
pub fn search(alloc: Global, doc: &Doc, terms: &Terms) -> Result<Ids, FindFail>
    ensures { Returns meaning_of (λ ids. ids) result
        (Ok (entries_found terms.now (doc_seen doc.now))) }
{
    let terms = folded_terms(alloc, terms.as_slice())?;
    let mut folded = Secret::with_room(alloc, 0)?;
    let mut ids = List::new(alloc);
    add_found(
        alloc,
        terms.as_slice(),
        &mut folded,
        &mut ids,
        true,
        &doc.root,
    )?;
    Ok(ids)
}
