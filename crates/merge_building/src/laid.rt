//! The document of a shape.
ghost use Rattle.std.specs.Prelude.{◌≡◌, true, IfOk, map};
ghost use Rattle.std.specs.FinMap.{contains_key, entries};
ghost use Rattle.vault_model.specs.SeenDoc.{doc_seen};
ghost use Rattle.vault_model.specs.Tree.{IsDoc, LEVELS, doc_of};
ghost use Rattle.merge_nodes.specs.Shapes.{shape};
ghost use Rattle.merge_building.specs.Tombs.{tomb_of};

use crate::building::group_at;
use merge_nodes::shapes::Shape;
use merge_tables::tables::Table;
use outside_core::{List, NoMemory};
use std::alloc::Global;
use vault_making::copies::put_last;
use vault_model::{Doc, Meta, Stamp, Tombstone};

/// So many levels below the root are built; a document has one less.
const BELOW: u64 = 128;

/// The tombstones of a table, by rising id.
fn tombs_in(alloc: Global, table: &Table<Stamp>) -> Result<List<Tombstone>, NoMemory>
    ensures { IfOk result (λ ts. ts ≡ map tomb_of (entries table.now)) }
{
    let mut tombs = List::new(alloc);
    for (id, deleted) in table.iter() {
        put_last(
            &mut tombs,
            Tombstone {
                id: *id,
                deleted: *deleted,
            },
        )?;
    }
    Ok(tombs)
}

/// The document of a shape that is one, of what it says of itself and its tombstones.
fn with_root(
    alloc: Global,
    from: &Shape,
    meta: Meta,
    tombs: List<Tombstone>,
) -> Result<Doc, NoMemory>
    requires doc { IsDoc (doc_of LEVELS (shape from.now)) }
    requires root { contains_key (shape from.now).groups (shape from.now).root ≡ true }
    requires meta { meta ≡ (shape from.now).meta }
    requires tombs { tombs ≡ map tomb_of (entries (shape from.now).tombs) }
    ensures { IfOk result (λ d. doc_seen d ≡ doc_of LEVELS (shape from.now)) }
{
    let row = from.groups.get(&from.root).unwrap();
    match group_at(alloc, from, BELOW, from.root, row) {
        Ok(root) => Ok(Doc { meta, root, tombs }),
        Err(failed) => {
            drop(meta);
            Err(failed)
        }
    }
}

/// The document of a shape that is one.
pub fn laid_doc(alloc: Global, from: &Shape, meta: Meta) -> Result<Doc, NoMemory>
    requires doc { IsDoc (doc_of LEVELS (shape from.now)) }
    requires root { contains_key (shape from.now).groups (shape from.now).root ≡ true }
    requires meta { meta ≡ (shape from.now).meta }
    ensures { IfOk result (λ d. doc_seen d ≡ doc_of LEVELS (shape from.now)) }
{
    match tombs_in(alloc, &from.tombs) {
        Ok(tombs) => with_root(alloc, from, meta, tombs),
        Err(failed) => {
            drop(meta);
            Err(failed)
        }
    }
}
