//! Lists in which a key occurs once, in the order of the keys' bytes.

ghost use Rattle.std.specs.Prelude.{◌≡◌, ◌≤◌, ◌++◌, List, ℕ, [], length, take, drop, true, Ok};
ghost use Rattle.std.specs.Ordering.{is_gt, is_eq};
ghost use Rattle.vault_model.specs.Orders.{bytes_cmp};
ghost use Rattle.vault_model.specs.Proper.{rises};
ghost use Rattle.doc_forms.specs.Refusals.{Returns};
ghost use Rattle.doc_forms.specs.Tables as spec;

use doc_forms::{AttachmentDraft, DocFail};
use outside_core::List;
use std::alloc::Global;
use std::marker::Model;
use vault_model::{Field, Icon, Item};

/// What has a key.
pub trait Keyed: Drop {
    ghost key: { Self → List ℕ };

    /// The key's bytes.
    fn key(&self) -> &[u8]
        ensures { result.now ≡ key self.now };
}

impl Keyed for Item {
    ghost key = { λ i. i.key };

    fn key(&self) -> &[u8] {
        self.key.as_str().as_bytes()
    }
}

impl Keyed for Icon {
    ghost key = { λ i. i.id };

    fn key(&self) -> &[u8] {
        self.id.as_bytes()
    }
}

impl Keyed for Field {
    ghost key = { λ f. f.key };

    fn key(&self) -> &[u8] {
        self.key.as_str().as_bytes()
    }
}

impl Keyed for AttachmentDraft {
    ghost key = { λ f. f.name };

    fn key(&self) -> &[u8] {
        self.name.as_str().as_bytes()
    }
}

/// Whether a key comes after another.
fn comes_after(key: &[u8], other: &[u8]) -> bool
    ensures { result ≡ is_gt (bytes_cmp key.now other.now) }
{
    key.cmp(other).is_gt()
}

/// Whether two keys are one.
fn is_same(key: &[u8], other: &[u8]) -> bool
    ensures { result ≡ is_eq (bytes_cmp key.now other.now) }
{
    key.cmp(other).is_eq()
}

/// How many items have lesser keys than this one.
fn position_in<T: Keyed>(list: &[T], key: &[u8]) -> usize
    ensures position { result ≡ spec.position_of T.key key.now list.now }
    ensures within { result ≤ length list.now }
{
    for (position, item) in list.iter().enumerate() {
        if !comes_after(key, item.key()) {
            return position;
        }
    }
    list.len()
}

/// A list whose keys rise. Contracts see it as the list of its items.
#[derive(Drop)]
pub struct KeyedList<T: Keyed> {
    items: List<T>,
}

impl<T: Keyed> Model for KeyedList<T> {
    ghost use Rattle.std.specs.Prelude.{◌≡◌, List, true};
    ghost use Rattle.vault_model.specs.Proper.{rises};

    ghost Value = { List T };

    ghost view = { λ l. l.items };

    ghost invariant = { λ l. rises T.key l.items ≡ true };
}

impl<T: Keyed> KeyedList<T> {
    /// An empty list, which will grow by this allocator.
    pub fn new(alloc: Global) -> KeyedList<T>
        ensures { result ≡ [] }
    {
        KeyedList {
            items: List::new(alloc),
        }
    }

    /// How many items have lesser keys than this one. A key that comes after the last one is
    /// compared with that alone, so that items which come in their order are put in linear time.
    fn position(&self, key: &[u8]) -> usize
        ensures position { result ≡ spec.position_of T.key key.now self.now }
        ensures within { result ≤ length self.now }
    {
        match self.items.as_slice().last() {
            Some(last) if comes_after(key, last.key()) => self.items.len(),
            _ => position_in(self.items.as_slice(), key),
        }
    }

    /// Puts an item into the list, in the place of that of its key.
    pub fn put(&mut self, item: T) -> Result<(), DocFail>
        ensures { Returns (λ _. self.new) result (Ok (spec.put T.key item self.old)) }
    {
        let at = self.position(item.key());
        put_at(&mut self.items, at, item)
    }

    /// The items.
    pub fn into_list(self) -> List<T>
        ensures { result ≡ self }
    {
        self.items
    }
}

/// Removes the item at an index, where that has the key.
fn remove_same<T: Keyed>(list: &mut List<T>, at: usize, key: &[u8])
    requires { at ≤ length list.old }
    ensures { list.new ≡ take at list.old ++ spec.without_key T.key key.now (drop at list.old) }
{
    match list.get(at) {
        Some(found) if is_same(key, found.key()) => {}
        _ => return,
    }
    let _ = list.remove(at);
}

/// Puts an item into a list at the position of its key, in the place of an item that has it.
fn put_at<T: Keyed>(list: &mut List<T>, at: usize, item: T) -> Result<(), DocFail>
    requires position { at ≡ spec.position_of T.key (T.key item) list.old }
    requires within { at ≤ length list.old }
    ensures put { Returns (λ _. list.new) result (Ok (spec.put T.key item list.old)) }
    ensures rising { rises T.key list.old ≡ true → rises T.key list.new ≡ true }
{
    remove_same(list, at, item.key());
    match list.insert(at, item) {
        Ok(()) => Ok(()),
        Err(_) => Err(DocFail::NoMemory),
    }
}
