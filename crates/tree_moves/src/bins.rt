//! The group that removed nodes go into.

ghost use Rattle.std.specs.Prelude.{◌≡◌};
ghost use Rattle.vault_model.specs.SeenDoc.{doc_seen};
ghost use Rattle.tree_core.specs.After as spec;

use tree_steps::has_group;
use vault_model::Doc;

/// Reports whether the bin has to be made before something is put into it: recycling is enabled, and
/// the bin's id names no group. Takes no memory.
pub fn needs_bin(doc: &Doc) -> bool
    ensures { result ≡ spec.needs_bin (doc_seen doc.now) }
{
    let bin = doc.meta.bin.value;
    bin.enabled && !has_group(&doc.root, bin.id)
}
