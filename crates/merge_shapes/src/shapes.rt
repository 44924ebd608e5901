//! A document as a shape.
ghost use Rattle.std.specs.Prelude.{◌≡◌, [], IfOk, OnOk, map};
ghost use Rattle.std.specs.FinMap.{empty, from_entries};
ghost use Rattle.vault_model.specs.SeenDoc.{doc_seen};
ghost use Rattle.vault_model.specs.Tree.{shape_of};
ghost use Rattle.merge_reading.specs.Rows.{tomb_row};
ghost use Rattle.merge_nodes.specs.Shapes.{meta_of, shape};
ghost use Rattle.merge_shapes.specs.NodeTables.{HasNodes};

use crate::nodes::{NodeTables, add_group};
use merge_nodes::shapes::{Shape, ShapeMeta};
use merge_tables::icons::{LentIcon, LentItem};
use merge_tables::tables::Table;
use outside_core::NoMemory;
use std::alloc::Global;
use vault_model::{Doc, Icon, Item, Meta, Stamp, Tombstone};

/// The nodes of a document side by side.
fn nodes_of<'a>(alloc: Global, doc: &'a Doc) -> Result<NodeTables<'a>, NoMemory>
    ensures { IfOk result (λ n. HasNodes (shape_of (doc_seen doc.now)) n) }
{
    let mut nodes = NodeTables {
        entries: Table::new(alloc),
        groups: Table::new(alloc),
        children: Table::new(alloc),
    };
    match add_group(alloc, &doc.root, &mut nodes) {
        Ok(()) => Ok(nodes),
        Err(failed) => {
            drop(nodes);
            Err(failed)
        }
    }
}

/// Puts the tombstones of a document by their ids where none are. A refusal means that memory ran
/// out.
fn put_tombs(table: &mut Table<Stamp>, tombs: &[Tombstone]) -> Result<(), NoMemory>
    requires { table.old ≡ empty }
    ensures { OnOk result (table.new ≡ from_entries (map tomb_row tombs.now)) }
{
    let mut at = tombs.len();
    while at > 0 {
        at -= 1;
        table.put(tombs[at].id, tombs[at].deleted)?;
    }
    Ok(())
}

/// Puts the icons of a document, lent, where none are. A refusal means that memory ran out.
fn push_icons<'a>(lent: &mut Vec<LentIcon<'a>>, icons: &'a [Icon]) -> Result<(), NoMemory>
    requires { lent.old.items ≡ [] }
    ensures { OnOk result (lent.new.items ≡ icons.now) }
{
    for icon in icons {
        lent.push(LentIcon::new(icon))?;
    }
    Ok(())
}

/// Puts the custom items of a document, lent, where none are. A refusal means that memory ran out.
fn push_items<'a>(lent: &mut Vec<LentItem<'a>>, items: &'a [Item]) -> Result<(), NoMemory>
    requires { lent.old.items ≡ [] }
    ensures { OnOk result (lent.new.items ≡ items.now) }
{
    for item in items {
        lent.push(LentItem::new(item))?;
    }
    Ok(())
}

/// What a document says of itself but its icons and custom items, lent.
fn bare_meta<'a>(alloc: Global, meta: &'a Meta) -> ShapeMeta<'a>
    ensures { meta_of result ≡ record meta.now { icons = []; items = [] } }
{
    ShapeMeta {
        name: &meta.name,
        description: &meta.description,
        user: &meta.user,
        bin: &meta.bin,
        templates: &meta.templates,
        settings: &meta.settings,
        icons: Vec::new(alloc),
        items: Vec::new(alloc),
        view: meta.view,
    }
}

/// Puts the tombstones, the icons and the custom items of a document into its shape. A refusal
/// means that memory ran out.
fn put_rows<'a>(lent: &mut Shape<'a>, doc: &'a Doc) -> Result<(), NoMemory>
    requires tombs { lent.old.tombs ≡ empty }
    requires meta { meta_of lent.old.meta
        ≡ record (doc_seen doc.now).meta { icons = []; items = [] } }
    ensures { OnOk result (shape lent.new ≡ record (shape lent.old) {
      tombs = from_entries (map tomb_row (doc_seen doc.now).tombs);
      meta = (doc_seen doc.now).meta;
    }) }
{
    put_tombs(&mut lent.tombs, doc.tombs.as_slice())?;
    push_icons(&mut lent.meta.icons, doc.meta.icons.as_slice())?;
    push_items(&mut lent.meta.items, doc.meta.items.as_slice())?;
    Ok(())
}

/// The document with its nodes side by side.
pub fn shape_of<'a>(alloc: Global, doc: &'a Doc) -> Result<Shape<'a>, NoMemory>
    ensures { IfOk result (λ s. shape s ≡ shape_of (doc_seen doc.now)) }
{
    let nodes = nodes_of(alloc, doc)?;
    let mut lent = Shape {
        root: doc.root.id,
        entries: nodes.entries,
        groups: nodes.groups,
        children: nodes.children,
        tombs: Table::new(alloc),
        meta: bare_meta(alloc, &doc.meta),
    };
    match put_rows(&mut lent, doc) {
        Ok(()) => Ok(lent),
        Err(failed) => {
            drop(lent);
            Err(failed)
        }
    }
}
