//! The versions of an entry that comes to say something else.

ghost use Rattle.std.specs.Prelude.{◌≡◌, IfOk, map, true};
ghost use Rattle.vault_model.specs.Bare.{BareContent};
ghost use Rattle.vault_model.specs.Proper.{is_proper_content};
ghost use Rattle.vault_model.specs.Seen.{bare_content};
ghost use Rattle.vault_model.specs.SeenDoc.{doc_seen};
ghost use Rattle.vault_model.specs.SeenNodes.{bare_version, entry_record};
ghost use Rattle.vault_model.specs.Shape.{BareVersion};
ghost use Rattle.vault_model.specs.Tree.{IsDoc, is_proper_entry};
ghost use Rattle.tree_core.specs.After.{changed_content};
ghost use Rattle.tree_core.specs.Histories.{settled_history, with_version};
ghost use Rattle.tree_edits.specs.Versions.{with_versions};

use crate::histories::rising_versions;
use crate::limits::limit_history;
use outside_core::{List, NoMemory};
use std::alloc::Global;
use tree_steps::set_versions;
use uuid_core::Uuid;
use vault_model::{Content, Doc, Entry, Meta, Stamp, Stats, Version};

// The history of an entry that comes to say something else: all its versions, within the limits.
fn past_versions(alloc: Global, entry: &Entry, meta: &Meta) -> Result<List<Version>, NoMemory>
    ensures { IfOk result (λ history. (version : BareVersion) → record (entry_record entry.now) {
      current = version;
      history = map bare_version history;
    } ≡ settled_history meta.now.settings.value.history_items meta.now.settings.value.history_size
        (with_version version (entry_record entry.now))) }
{
    let settings = &meta.settings.value;
    let mut history = rising_versions(alloc, entry)?;
    limit_history(&mut history, settings.history_items, settings.history_size);
    Ok(history)
}

/// The versions of an entry that says something else: the new one, and the others as its history.
#[derive(Drop)]
pub(crate) struct Versions {
    pub(crate) current: Version,
    pub(crate) history: List<Version>,
}

/// The versions of an entry that says this from a time on.
pub(crate) fn versions_saying(
    alloc: Global,
    entry: &Entry,
    meta: &Meta,
    content: Content,
    time: Stamp,
) -> Result<Versions, NoMemory>
    ensures is { IfOk result (λ versions. record (entry_record entry.now) {
      current = bare_version versions.current;
      history = map bare_version versions.history;
    } ≡ changed_content meta.now (λ (_ : BareContent). bare_content content) time
        (entry_record entry.now)) }
    ensures proper { IfOk result (λ versions. is_proper_content (bare_content content) ≡ true
        → is_proper_entry (entry_record entry.now) ≡ true
        → is_proper_entry (record (entry_record entry.now) {
          current = bare_version versions.current;
          history = map bare_version versions.history;
        }) ≡ true) }
{
    let stats = Stats {
        accessed: time,
        usage: entry.current.stats.usage,
    };
    match past_versions(alloc, entry, meta) {
        Ok(history) => Ok(Versions {
            current: Version {
                modified: time,
                content,
                stats,
            },
            history,
        }),
        Err(fail) => {
            drop(content);
            Err(fail)
        }
    }
}

/// Gives the entry of this id in the group of another other versions. Takes no memory.
pub(crate) fn change_versions(doc: &mut Doc, group: Uuid, id: Uuid, versions: Versions)
    requires { IsDoc (with_versions group id (bare_version versions.current)
        (map bare_version versions.history) (doc_seen doc.old)) }
    ensures { doc_seen doc.new ≡ with_versions group id (bare_version versions.current)
        (map bare_version versions.history) (doc_seen doc.old) }
{
    set_versions(&mut doc.root, group, id, versions.current, versions.history);
}
