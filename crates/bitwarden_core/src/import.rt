//! The document of an export.

ghost use Rattle.std.specs.Prelude.{◌≡◌, map, true};
ghost use Rattle.std.specs.List.{list_all};
ghost use Rattle.bitwarden_core.specs.Documents as spec;
ghost use Rattle.bitwarden_core.specs.Documents.{bitwarden_document};
ghost use Rattle.bitwarden_forms.specs.Exports.{items_in};
ghost use Rattle.bitwarden_forms.specs.Kinds.{is_not_nil};
ghost use Rattle.bitwarden_forms.specs.Refusals.{Returns};
ghost use Rattle.bitwarden_forms.specs.ImportTree.Outcome.{sound_document};
ghost use Rattle.bitwarden_forms.specs.ImportTree.SeenDrafts.{placed_seen};
ghost use Rattle.bitwarden_forms.specs.ImportTree.Trees.{placed_document};
ghost use Rattle.serde_json.specs.View.{view};
ghost use Rattle.vault_model.specs.SeenDoc.{doc_seen};

use crate::placing::read_places;
use bitwarden_forms::import_tree::{ImportedPlace, TreeFail, placed_document};
use bitwarden_forms::{BitwardenFail, read_export};
use serde_json::Value;
use std::alloc::Global;
use vault_model::{Doc, Stamp};

// A refusal of a tree, as one of the export.
fn of_tree(refusal: TreeFail) -> BitwardenFail
    ensures { result ≡ spec.of_tree refusal }
{
    match refusal {
        TreeFail::DuplicateId(id) => BitwardenFail::DuplicateId(id),
        TreeFail::TooDeep(id) => BitwardenFail::TooDeep(id),
        TreeFail::NoMemory => BitwardenFail::NoMemory,
    }
}

// The document of places.
fn document_of(alloc: Global, now: Stamp, places: Vec<ImportedPlace>) -> Result<Doc, BitwardenFail>
    ensures { Returns doc_seen result (spec.as_export
        (sound_document (placed_document now (map placed_seen places.items)))) }
{
    match placed_document(alloc, now, places) {
        Ok(doc) => Ok(doc),
        Err(refusal) => Err(of_tree(refusal)),
    }
}

// The document of an export in which no id is nil.
fn document_at(alloc: Global, now: Stamp, export: &Value) -> Result<Doc, BitwardenFail>
    requires { list_all is_not_nil (items_in (view export.now)) ≡ true }
    ensures { Returns doc_seen result (spec.document_at now (view export.now)) }
{
    let places = read_places(alloc, now, export)?;
    document_of(alloc, now, places)
}

/// The document that an unencrypted export of Bitwarden in JSON of these bytes is imported as.
///
/// Each folder gives a group below the root for each name between the slashes of its name, and each
/// item an entry in the group of its folder, or in the root. Every time is now that the export does
/// not give. A password that an item had before is that of a version before the current one.
///
/// # Errors
///
/// The first that holds in the order of [`BitwardenFail`]'s variants.
pub fn import_bitwarden(alloc: Global, bytes: &[u8], now: Stamp) -> Result<Doc, BitwardenFail>
    ensures { Returns doc_seen result (bitwarden_document bytes.now now) }
{
    let export = read_export(alloc, bytes)?;
    let imported = document_at(alloc, now, &export);
    drop(export);
    imported
}
