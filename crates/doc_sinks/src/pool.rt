//! The pool of a document.

ghost use Rattle.std.specs.Prelude.{◌≡◌, IfOk, map, true};
ghost use Rattle.doc_spelling.specs.DocForms.SeenDocuments.{pool_item};
ghost use Rattle.doc_spelling.specs.Pool as spec;
ghost use Rattle.doc_spelling.specs.Ranges.{are_bytes};
ghost use Rattle.vault_model.specs.SeenDoc.{doc_seen};

use crate::gathering::gather_group;
use crate::pairs::Pair;
use outside_core::{List, NoMemory};
use std::alloc::Global;
use std::collections::BTreeMap;
use std::marker::Model;
use vault_model::{Attachment, Doc, PoolItem};

/// The pool of a document: the bytes of its attachments, each once with whether they are hidden, in
/// the order in which the written document names them first.
#[derive(Drop)]
pub struct Pool<'a> {
    items: List<PoolItem>,
    numbers: BTreeMap<Pair<'a>, u64>,
}

impl<'a> Model for Pool<'a> {
    ghost use Rattle.doc_spelling.specs.DocForms.SeenDocuments.{pool_item};
    ghost use Rattle.doc_sinks.specs.Gathering.{HasNumbers};
    ghost use Rattle.doc_spelling.specs.Pool.{PoolPair};
    ghost use Rattle.std.specs.Prelude.{List, map};

    ghost Value = { List PoolPair };

    ghost view = { λ pool. map pool_item pool.items };

    ghost invariant = { λ pool. HasNumbers pool.numbers (map pool_item pool.items) };
}

impl<'a> Pool<'a> {
    /// That of a document.
    pub fn of(alloc: Global, doc: &'a Doc) -> Result<Pool<'a>, NoMemory>
        ensures { IfOk result (λ pool. pool ≡ spec.pool_of (doc_seen doc.now)) }
    {
        let mut items = List::new(alloc);
        let mut numbers = BTreeMap::new(alloc);
        gather_group(&mut items, &mut numbers, &doc.root)?;
        Ok(Pool { items, numbers })
    }

    /// Lends the binaries.
    pub fn items(&self) -> &[PoolItem]
        ensures { map pool_item result.now ≡ self.now }
    {
        self.items.as_slice()
    }

    /// The number of an attachment's bytes; of bytes that are not in the pool, how many are.
    pub fn number_of(&self, file: &'a Attachment) -> u64
        ensures number { result ≡ spec.number_in self.now
            (file.now.bytes.value.bytes, file.now.hidden) }
        ensures fits { are_bytes file.now.bytes.value.bytes ≡ true }
    {
        match self.numbers.get(&Pair::of(file)) {
            Some(number) => *number,
            None => self.items.len() as u64,
        }
    }
}

/// The pool of a document.
pub fn pool_of(alloc: Global, doc: &Doc) -> Result<List<PoolItem>, NoMemory>
    ensures { IfOk result (λ items. map pool_item items ≡ spec.pool_of (doc_seen doc.now)) }
{
    let pool = Pool::of(alloc, doc)?;
    let Pool { items, numbers: _ } = pool;
    Ok(items)
}
