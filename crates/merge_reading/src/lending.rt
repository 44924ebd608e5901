//! A document read as a database, which its parts are lent to.
ghost use Rattle.std.specs.Prelude.{◌≡◌, cond, IfOk, OnOk, map};
ghost use Rattle.std.specs.FinMap.{from_entries, insert};
ghost use Rattle.std.specs.List.{filter};
ghost use Rattle.vault_model.specs.SeenDoc.{doc_seen};
ghost use Rattle.vault_model.specs.Shape.{shared_of};
ghost use Rattle.vault_model.specs.Tree.{IsDoc, db_in, rooted};
ghost use Rattle.merge_tables.specs.Databases.{database, shared_meta};
ghost use Rattle.merge_reading.specs.Rows.{icon_row, is_other, item_row, tomb_row};

use crate::reading::columns_of;
use merge_tables::databases::Database;
use merge_tables::icons::{ItemTable, LentIcon, LentItem, LentKey};
use merge_tables::ids::is_same;
use merge_tables::metas::LentMeta;
use merge_tables::tables::Table;
use outside_core::NoMemory;
use std::alloc::Global;
use uuid_core::Uuid;
use vault_model::{Doc, Icon, Item, Meta, Stamp, Tombstone};

/// Puts a tombstone where it is not the root's. A refusal means that memory ran out.
fn put_tomb(table: &mut Table<Stamp>, root: &Uuid, tomb: Tombstone) -> Result<(), NoMemory>
    ensures { OnOk result (table.new ≡ cond (is_other root.now tomb)
        (insert table.old tomb.id tomb.deleted) table.old) }
{
    if !is_same(root, &tomb.id) {
        table.put(tomb.id, tomb.deleted)?;
    }
    Ok(())
}

/// The tombstones of a document under another root.
fn tombs_of(alloc: Global, tombs: &[Tombstone], root: &Uuid) -> Result<Table<Stamp>, NoMemory>
    ensures { IfOk result (λ t. t
        ≡ from_entries (map tomb_row (filter (is_other root.now) tombs.now))) }
{
    let mut table = Table::new(alloc);
    let mut at = tombs.len();
    while at > 0 {
        at -= 1;
        put_tomb(&mut table, root, tombs[at])?;
    }
    Ok(table)
}

/// The icons of a document, lent.
fn icons_of<'a>(alloc: Global, icons: &'a [Icon]) -> Result<Table<LentIcon<'a>>, NoMemory>
    ensures { IfOk result (λ t. t ≡ from_entries (map icon_row icons.now)) }
{
    let mut table = Table::new(alloc);
    let mut at = icons.len();
    while at > 0 {
        at -= 1;
        table.put(icons[at].id, LentIcon::new(&icons[at]))?;
    }
    Ok(table)
}

/// The custom items of a document, lent.
fn items_of<'a>(alloc: Global, items: &'a [Item]) -> Result<ItemTable<'a>, NoMemory>
    ensures { IfOk result (λ t. t ≡ from_entries (map item_row items.now)) }
{
    let mut table = ItemTable::new(alloc);
    let mut at = items.len();
    while at > 0 {
        at -= 1;
        table.put(LentKey::new(&items[at].key), LentItem::new(&items[at]))?;
    }
    Ok(table)
}

/// What a document says of itself, lent.
fn lent_meta<'a>(alloc: Global, meta: &'a Meta) -> Result<LentMeta<'a>, NoMemory>
    ensures { IfOk result (λ m. shared_meta m ≡ shared_of meta.now) }
{
    Ok(LentMeta {
        name: &meta.name,
        description: &meta.description,
        user: &meta.user,
        bin: &meta.bin,
        templates: &meta.templates,
        settings: &meta.settings,
        icons: icons_of(alloc, meta.icons.as_slice())?,
        items: items_of(alloc, meta.items.as_slice())?,
    })
}

/// The database of a document, its root under another id.
pub fn database_of<'a>(alloc: Global, doc: &'a Doc, root: Uuid) -> Result<Database<'a>, NoMemory>
    requires { IsDoc (rooted (doc_seen doc.now) root) }
    ensures { IfOk result (λ d. database d ≡ db_in (rooted (doc_seen doc.now) root)) }
{
    let columns = columns_of(alloc, doc, root)?;
    let tombs = tombs_of(alloc, doc.tombs.as_slice(), &root)?;
    let meta = lent_meta(alloc, &doc.meta)?;
    Ok(Database {
        root,
        entries: columns.entries,
        groups: columns.groups,
        places: columns.places,
        tombs,
        meta,
    })
}
