//! `search` on a document.
ghost use Rattle.std.specs.Prelude.{IfErr};
ghost use Rattle.find_references.specs.Results.{meaning_of};
ghost use Rattle.outside_core.specs.Results as results;
ghost use Rattle.vault_model.specs.SeenDoc.{doc_seen};
ghost use Rattle.cli_messages.specs.Phases.{IsPlainStop, Returns};
ghost use Rattle.cli_showing.specs.Showing.{entries_shown};
ghost use Rattle.cli_showing.specs.inside.Searching.{entries_sought};

use crate::paths::paths_of;
use crate::refusals::unfound;
use cli_messages::{Reason, Stop, refused};
use find_core::{Ids, search};
use find_references::{FindFail, parse_terms};
use outside_core::NoMemory;
use secret_core::Secret;
use std::alloc::Global;
use vault_model::Doc;

// The entries that match the terms in a text.
fn ids_of(alloc: Global, doc: &Doc, words: &str) -> Result<Ids, FindFail>
    ensures { results.Returns meaning_of (λ ids. ids) result
        (entries_sought words.now (doc_seen doc.now)) }
{
    let terms = parse_terms(alloc, words)?;
    let found = search(alloc, doc, &terms);
    drop(terms);
    found
}

/// What `search` prints of the entries that match the terms in a text, in memory that is wiped,
/// since a title may be secret.
#[tactic(auto, unfolding(crate::specs::Showing::entries_shown))]
pub fn search_entries(alloc: Global, doc: &Doc, term: &str, file: &str) -> Result<Secret, Stop>
    ensures told { Returns (λ text. text.bytes) result
        (entries_shown file.now term.now (doc_seen doc.now)) }
    ensures cause { IfErr result IsPlainStop }
{
    let ids = match ids_of(alloc, doc, term) {
        Ok(ids) => ids,
        Err(fail) => return Err(unfound(alloc, fail, file)),
    };
    if ids.len() == 0 {
        drop(ids);
        return Err(refused(alloc, Reason::NoResult, file));
    }
    let paths = paths_of(alloc, doc, ids.as_slice());
    drop(ids);
    match paths {
        Ok(text) => Ok(text),
        Err(NoMemory) => Err(Stop::NoMemory),
    }
}
