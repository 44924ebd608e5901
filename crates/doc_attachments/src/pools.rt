//! Binaries, found by the numbers by which attachments refer to them.

ghost use Rattle.doc_forms.specs.Attachments as spec;
ghost use Rattle.doc_forms.specs.SeenDocuments.{pool_item};
ghost use Rattle.doc_forms.specs.SeenDrafts.{binary_seen};
ghost use Rattle.doc_attachments.specs.Lists.{IsPushed};
ghost use Rattle.doc_attachments.specs.Pools.{Finds};
ghost use Rattle.std.specs.Option.{option_copied};
ghost use Rattle.std.specs.Prelude.{◌≡◌, ◌++◌, [], ◌∷◌, IfOk, OnOk, length, map, option_map};

use doc_forms::Binary;
use outside_core::{List, NoMemory};
use secret_core::Secret;
use std::alloc::Global;
use std::collections::BTreeMap;
use std::marker::Model;
use std::rc::Rc;
use vault_model::PoolItem;

/// Puts an item after the others.
pub(crate) fn push<T: Drop>(list: &mut List<T>, item: T) -> Result<(), NoMemory>
    ensures { OnOk result (list.new ≡ list.old ++ item ∷ []) }
{
    match list.push(item) {
        Ok(()) => Ok(()),
        Err(_item) => Err(NoMemory),
    }
}

/// The same bytes, which one more shares.
pub(crate) fn share_bytes(bytes: &Rc<Secret>) -> Result<Rc<Secret>, NoMemory>
    ensures { IfOk result (λ b. b.value.bytes ≡ bytes.now.value.bytes) }
{
    match bytes.clone() {
        Ok(bytes) => Ok(bytes),
        Err(_) => Err(NoMemory),
    }
}

/// Puts what was made after the others, or else refuses.
pub(crate) fn push_made<T: Drop>(
    list: &mut List<T>,
    made: Result<T, NoMemory>,
) -> Result<(), NoMemory>
    ensures { OnOk result (IsPushed list.old made list.new) }
{
    match made {
        Ok(item) => push(list, item),
        Err(refusal) => Err(refusal),
    }
}

/// The binary of this number that a file keeps apart. Its bytes are shared.
fn numbered(number: u64, item: &PoolItem) -> Result<Binary, NoMemory>
    ensures { IfOk result (λ b. binary_seen b ∷ []
        ≡ spec.binaries_from number (pool_item item.now ∷ [])) }
{
    match share_bytes(&item.bytes) {
        Ok(bytes) => Ok(Binary {
            number,
            bytes,
            hidden: item.hidden,
        }),
        Err(refusal) => Err(refusal),
    }
}

/// The binaries that a file keeps apart, by their order from 0 on. Their bytes are shared.
pub(crate) fn number_binaries(alloc: Global, given: &[PoolItem]) -> Result<List<Binary>, NoMemory>
    ensures { IfOk result (λ l. map binary_seen l ≡ spec.binaries_from 0
        (map pool_item given.now)) }
{
    let mut binaries = List::new(alloc);
    let mut number = 0;
    for item in given {
        if let Err(refusal) = push_made(&mut binaries, numbered(number, item)) {
            drop(binaries);
            return Err(refusal);
        }
        number += 1;
    }
    Ok(binaries)
}

/// Some binaries, with the position of the last one of each number.
#[derive(Drop)]
pub(crate) struct Pool<'a> {
    binaries: &'a [Binary],
    positions: BTreeMap<u64, usize>,
}

impl<'a> Model for Pool<'a> {
    ghost use Rattle.doc_forms.specs.Metas.{ReadBinary};
    ghost use Rattle.doc_forms.specs.SeenDrafts.{binary_seen};
    ghost use Rattle.doc_attachments.specs.Pools.{Finds};
    ghost use Rattle.std.specs.Prelude.{List, map};

    ghost Value = { List ReadBinary };

    ghost view = { λ p. map binary_seen p.binaries.now };

    ghost invariant = { λ p. Finds p.positions p.binaries.now };
}

/// The position of the last binary of each number.
fn positions_of(alloc: Global, binaries: &[Binary]) -> Result<BTreeMap<u64, usize>, NoMemory>
    ensures { IfOk result (λ positions. Finds positions binaries.now) }
{
    let mut positions = BTreeMap::new(alloc);
    for position in 0..binaries.len() {
        positions.insert(binaries[position].number, position)?;
    }
    Ok(positions)
}

impl<'a> Pool<'a> {
    /// A pool of these binaries.
    pub(crate) fn new(alloc: Global, binaries: &'a [Binary]) -> Result<Pool<'a>, NoMemory>
        ensures { IfOk result (λ pool. pool ≡ map binary_seen binaries.now) }
    {
        let positions = positions_of(alloc, binaries)?;
        Ok(Pool {
            binaries,
            positions,
        })
    }

    /// The binary of a number: the last that has it.
    pub(crate) fn get(&self, number: u64) -> Option<&Binary>
        ensures { option_map binary_seen (option_copied result) ≡ spec.binary_of self.now number }
    {
        match self.positions.get(&number) {
            Some(position) => self.binaries.get(*position),
            None => None,
        }
    }
}
