//! Entries restored.

ghost use Rattle.std.specs.Prelude.{◌≡◌, IfOk, map, true};
ghost use Rattle.vault_model.specs.Bare.{BareContent};
ghost use Rattle.vault_model.specs.Proper.{is_proper_content};
ghost use Rattle.vault_model.specs.Seen.{bare_content};
ghost use Rattle.vault_model.specs.SeenDoc.{doc_seen};
ghost use Rattle.vault_model.specs.SeenNodes.{bare_version, entry_record};
ghost use Rattle.vault_model.specs.Tree.{is_proper_entry};
ghost use Rattle.tree_core.specs.After.{Changes, after_restore, changed_content};

use crate::changing::{Versions, change_versions, versions_saying};
use outside_core::NoMemory;
use std::alloc::Global;
use tree_core::{TreeFail, version_numbered};
use tree_steps::{entry_named, time_after};
use vault_making::copies::copy_content;
use vault_model::{Content, Doc, Entry, Meta, Stamp, entry_stamp};

// The versions of an entry that says the same as another version from this time on.
fn restored_versions(
    alloc: Global,
    entry: &Entry,
    meta: &Meta,
    content: &Content,
    time: Stamp,
) -> Result<Versions, NoMemory>
    ensures is { IfOk result (λ versions. record (entry_record entry.now) {
      current = bare_version versions.current;
      history = map bare_version versions.history;
    } ≡ changed_content meta.now (λ (_ : BareContent). bare_content content.now) time
        (entry_record entry.now)) }
    ensures proper { IfOk result (λ versions. is_proper_content (bare_content content.now) ≡ true
        → is_proper_entry (entry_record entry.now) ≡ true
        → is_proper_entry (record (entry_record entry.now) {
          current = bare_version versions.current;
          history = map bare_version versions.history;
        }) ≡ true) }
{
    let content = copy_content(alloc, content)?;
    versions_saying(alloc, entry, meta, content, time)
}

/// Makes the entry that a path names say again what its version of this number says: the current one
/// has 0, the newest of its history 1, and so on. It says so in a new version that is made now, or a
/// second after the newest of the others if that is later; the other versions are its history, in
/// rising order, of which the longest suffix within the limits of the database stays. A refusal
/// changes nothing.
pub fn restore(
    alloc: Global,
    doc: &mut Doc,
    path: &str,
    number: u64,
    now: Stamp,
) -> Result<(), TreeFail>
    ensures { Changes (after_restore path.now number now (doc_seen doc.old))
        result (doc_seen doc.old) (doc_seen doc.new) }
{
    let held = match entry_named(doc, path) {
        Ok(held) => held,
        Err(fail) => return Err(fail),
    };
    let Some(version) = version_numbered(held.entry, number) else {
        return Err(TreeFail::NoVersion(number));
    };
    let time = time_after(now, entry_stamp(held.entry))?;
    let (group, id) = (held.group, held.entry.id);
    match restored_versions(alloc, held.entry, &doc.meta, &version.content, time) {
        Ok(versions) => {
            change_versions(doc, group, id, versions);
            Ok(())
        }
        Err(_) => Err(TreeFail::NoMemory),
    }
}
