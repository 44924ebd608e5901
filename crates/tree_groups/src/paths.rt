//! Paths of new groups.

ghost use Rattle.std.specs.Prelude.{◌≡◌};
ghost use Rattle.vault_model.specs.SeenDoc.{doc_seen};
ghost use Rattle.tree_core.specs.After.{is_group_taken};
ghost use Rattle.tree_core.specs.NewPaths as spec;

use tree_core::{is_group_path, without_slashes};
use vault_model::Doc;

// Reports whether a path names the root: it is empty but for one slash at its start and one at its
// end.
fn names_root(path: &[u8]) -> bool
    ensures { result ≡ spec.names_root path.now }
{
    without_slashes(path).is_empty()
}

// Reports whether a new group cannot have a path: another group has it, or it names the root.
pub(crate) fn is_taken(doc: &Doc, path: &[u8]) -> bool
    ensures { result ≡ is_group_taken path.now (doc_seen doc.now) }
{
    is_group_path(doc, path) || names_root(path)
}
