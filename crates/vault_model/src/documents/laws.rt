//! What every document keeps.
ghost use Rattle.vault_model.specs.SeenDoc.{doc_seen};
ghost use Rattle.vault_model.specs.Tree.{IsDoc};

use crate::documents::Doc;

/// What is seen of a document has its parts in order.
pub fn parts_in_order(doc: &Doc)
    ensures { IsDoc (doc_seen doc.now) }
{}
