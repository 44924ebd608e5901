//! The databases that are joined.
ghost use Rattle.std.specs.Prelude.{◌≡◌, [], ◌∷◌, None, IfOk, OnOk, map};
ghost use Rattle.vault_model.specs.SeenDoc.{doc_seen};
ghost use Rattle.vault_model.specs.Tree.{db_in};
ghost use Rattle.merge_core.specs.Refusals.{least, members, root_clashes};
ghost use Rattle.merge_tables.specs.Databases.{database, databases};

use merge_reading::lending::database_of;
use merge_tables::databases::Database;
use outside_core::NoMemory;
use std::alloc::Global;
use vault_model::Doc;

/// The database of a document under its own root.
fn own_database<'a>(alloc: Global, doc: &'a Doc) -> Result<Database<'a>, NoMemory>
    ensures { IfOk result (λ d. database d ≡ db_in (doc_seen doc.now)) }
{
    let read = database_of(alloc, doc, doc.root.id)?;
    Ok(read)
}

/// Puts the databases that are joined where none are. A refusal means that memory ran out.
fn push_members<'a>(
    alloc: Global,
    copies: &mut Vec<Database<'a>>,
    target: &'a Doc,
    sources: &'a [Doc],
) -> Result<(), NoMemory>
    requires none { copies.old.items ≡ [] }
    requires clear { least (root_clashes (doc_seen target.now ∷ map doc_seen sources.now)) ≡ None }
    ensures { OnOk result (databases copies.new.items
        ≡ members (doc_seen target.now) (map doc_seen sources.now)) }
{
    let own = own_database(alloc, target)?;
    copies.push(own)?;
    for source in sources {
        let copy = database_of(alloc, source, target.root.id)?;
        copies.push(copy)?;
    }
    Ok(())
}

/// The databases that are joined: the target's, and each source's under the target's root.
pub fn members_of<'a>(
    alloc: Global,
    target: &'a Doc,
    sources: &'a [Doc],
) -> Result<Vec<Database<'a>>, NoMemory>
    requires { least (root_clashes (doc_seen target.now ∷ map doc_seen sources.now)) ≡ None }
    ensures { IfOk result (λ ms. databases ms.items
        ≡ members (doc_seen target.now) (map doc_seen sources.now)) }
{
    let mut copies = Vec::new(alloc);
    match push_members(alloc, &mut copies, target, sources) {
        Ok(()) => Ok(copies),
        Err(failed) => {
            drop(copies);
            Err(failed)
        }
    }
}
