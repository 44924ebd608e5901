//! The names of nodes by their ids.
ghost use Rattle.std.specs.Prelude.{◌≡◌, IfOk, OnOk, map};
ghost use Rattle.vault_model.specs.SeenDoc.{doc_seen};
ghost use Rattle.vault_model.specs.SeenNodes.{entry_row, tree_seen};
ghost use Rattle.cli_merging.specs.Names as spec;
ghost use Rattle.cli_merging.specs.Reports.{name_in};

use merge_tables::tables::Table;
use outside_core::NoMemory;
use std::alloc::Global;
use std::marker::Model;
use tree_core::title;
use uuid_core::Uuid;
use vault_model::{Doc, Entry, Group};

/// A name or a title, which a document lends.
#[derive(Drop)]
pub(crate) struct LentName<'a> {
    name: &'a [u8],
}

impl<'a> Model for LentName<'a> {
    ghost use Rattle.std.specs.Prelude.{List, ℕ};

    ghost Value = { List ℕ };

    ghost view = { λ lent. lent.name.now };
}

/// The names of groups and the titles of entries by their ids, which documents lend.
pub(crate) type Names<'a> = Table<LentName<'a>>;

/// The name at an id; nothing where there is none.
pub(crate) fn name_at<'a>(names: &Names<'a>, id: &Uuid) -> &'a [u8]
    ensures { result.now ≡ spec.name_at names.now id.now }
{
    match names.get(id) {
        Some(lent) => lent.name,
        None => &[],
    }
}

// Puts a name at an id, unless one is there. A refusal means that memory ran out.
fn put_name<'a>(names: &mut Names<'a>, id: Uuid, name: &'a [u8]) -> Result<(), NoMemory>
    ensures { OnOk result (names.new ≡ spec.with_name id name.now names.old) }
{
    if names.get(&id).is_none() {
        names.put(id, LentName { name })?;
    }
    Ok(())
}

// Puts the titles of entries, one after another. A refusal means that memory ran out.
fn put_titles<'a>(names: &mut Names<'a>, entries: &'a [Entry]) -> Result<(), NoMemory>
    ensures { OnOk result (names.new ≡ spec.with_titles (map entry_row entries.now) names.old) }
{
    for entry in entries {
        put_name(names, entry.id, title(entry))?;
    }
    Ok(())
}

// Puts the names of a group and of all that is in it. A refusal means that memory ran out.
fn put_group<'a>(names: &mut Names<'a>, group: &'a Group) -> Result<(), NoMemory>
    ensures { OnOk result (names.new ≡ spec.with_tree (tree_seen group.now) names.old) }
{
    put_name(
        names,
        group.id,
        group.state.content.name.as_str().as_bytes(),
    )?;
    put_titles(names, group.entries.as_slice())?;
    for child in group.groups.as_slice() {
        put_group(names, child)?;
    }
    Ok(())
}

/// The names of all nodes of a document.
pub(crate) fn names_of<'a>(alloc: Global, doc: &'a Doc) -> Result<Names<'a>, NoMemory>
    ensures { IfOk result (λ names. spec.name_at names ≡ name_in (doc_seen doc.now)) }
{
    let mut names = Table::new(alloc);
    put_group(&mut names, &doc.root)?;
    Ok(names)
}
