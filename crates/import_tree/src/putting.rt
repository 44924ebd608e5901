//! Entries put into groups that their names lead to.

ghost use Rattle.std.specs.Prelude.{◌≡◌, ◌++◌, OnErr, OnOk, map, position, bytes_eq};
ghost use Rattle.import_tree.specs.SeenDrafts.{rows_seen};
ghost use Rattle.import_tree.specs.Trees as spec;
ghost use Rattle.tree_core.specs.Changes.{with_group};
ghost use Rattle.vault_model.specs.SeenNodes.{entry_row, tree_seen};
ghost use Rattle.vault_model.specs.Walk.{name_of};
ghost use Rattle.vault_model.specs.declared.nodes.Group.{out-Group};

use outside_core::{List, NoMemory, Text};
use std::alloc::Global;
use tree_groups::new_group;
use tree_groups::tree_steps::put_last;
use uuid_core::Uuid;
use vault_model::{Entry, Group, Stamp};

// Reports whether a group has this name.
fn has_name(group: &Group, name: &str) -> bool
    ensures { result ≡ bytes_eq (name_of (tree_seen group.now)) name.now }
{
    group.state.content.name.as_str() == name
}

// The place of the first group of this name.
fn place_of(groups: &[Group], name: &str) -> Option<usize>
    ensures { result ≡ position (λ g. bytes_eq (name_of (tree_seen g)) name.now) groups.now }
{
    groups.iter().position(|group| has_name(group, name))
}

// Puts an entry after others, if there is one. The only refusal is that memory ran out; it changes
// nothing.
fn put_own(entries: &mut List<Entry>, entry: Option<Entry>) -> Result<(), NoMemory>
    ensures ok { OnOk result (map entry_row entries.new
        ≡ map entry_row entries.old ++ rows_seen entry) }
    ensures err { OnErr result (entries.new ≡ entries.old) }
{
    match entry {
        Some(entry) => put_last(entries, entry),
        None => Ok(()),
    }
}

// Puts a new group after the other groups of a group, with an entry put into it by its names. The
// only refusal is that memory ran out; it changes nothing.
#[cycle(putting)]
fn put_filled(
    alloc: Global,
    group: &mut Group,
    mut new: Group,
    names: &[Text],
    now: Stamp,
    entry: Option<Entry>,
) -> Result<(), NoMemory>
    ensures ok { OnOk result (tree_seen group.new ≡ with_group
        (spec.with_rows now names.now (rows_seen entry) (tree_seen new)) (tree_seen group.old)) }
    ensures err { OnErr result (tree_seen group.new ≡ tree_seen group.old) }
{
    match put_entry(alloc, &mut new, names, now, entry) {
        Ok(()) => put_last(&mut group.groups, new),
        Err(fail) => {
            drop(new);
            Err(fail)
        }
    }
}

// Puts a new group of a name after the other groups of a group, with an entry in it, or in the group
// to which more names lead from it. The only refusal is that memory ran out; it changes nothing.
#[cycle(putting)]
fn put_new(
    alloc: Global,
    group: &mut Group,
    name: &str,
    names: &[Text],
    now: Stamp,
    entry: Option<Entry>,
) -> Result<(), NoMemory>
    ensures ok { OnOk result (tree_seen group.new ≡ with_group (spec.new_groups now
        (out-Group group.old).id name.now names.now (rows_seen entry)) (tree_seen group.old)) }
    ensures err { OnErr result (tree_seen group.new ≡ tree_seen group.old) }
{
    let id = Uuid::new_v5(&group.id, name.as_bytes());
    match new_group(alloc, id, name, now) {
        Ok(new) => put_filled(alloc, group, new, names, now, entry),
        Err(fail) => {
            drop(entry);
            Err(fail)
        }
    }
}

/// Puts an entry, if there is one, after the others of the group to which names lead. Groups that are
/// not there are made, each as the last in its group. The only refusal is that memory ran out; it
/// changes nothing.
#[cycle(putting)]
pub(crate) fn put_entry(
    alloc: Global,
    group: &mut Group,
    names: &[Text],
    now: Stamp,
    entry: Option<Entry>,
) -> Result<(), NoMemory>
    ensures ok { OnOk result (tree_seen group.new
        ≡ spec.with_rows now names.now (rows_seen entry) (tree_seen group.old)) }
    ensures err { OnErr result (tree_seen group.new ≡ tree_seen group.old) }
{
    let [name, names @ ..] = names else {
        return put_own(&mut group.entries, entry);
    };
    let name = name.as_str();
    let Some(at) = place_of(group.groups.as_slice(), name) else {
        return put_new(alloc, group, name, names, now, entry);
    };
    match group.groups.get_mut(at) {
        Some(below) => put_entry(alloc, below, names, now, entry),
        None => {
            drop(entry);
            Err(NoMemory)
        }
    }
}
