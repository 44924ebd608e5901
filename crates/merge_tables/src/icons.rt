//! Icons and custom items of a database, which documents lend.
ghost use Rattle.std.specs.Prelude.{◌≡◌, OnOk, OnErr};
ghost use Rattle.std.specs.Option.{option_copied};
ghost use Rattle.std.specs.Ordering.{as_partial_cmp, eq_by_cmp};
ghost use Rattle.std.specs.Cmp.{eq_by_cmp_equiv, partial_equiv_from_equiv, partial_order_from_total};
ghost use Rattle.std.specs.FinMap as map;
ghost use Rattle.std.proofs.Common.{refl};
ghost use Rattle.vault_model.specs.Orders.{bytes_cmp, icon_cmp, later_item_cmp};
ghost use Rattle.vault_model.specs.Unite.{greater, unite};
ghost use Rattle.vault_model.proofs.Orders.{bytes_order};

use crate::rows;
use crate::tables::Table;
use outside_core::{NoMemory, Text};
use std::alloc::Global;
use std::cmp::Ordering;
use std::marker::Model;
use uuid_core::Uuid;
use vault_model::{Icon, Item};

/// An icon that a document lends.
#[derive(Drop)]
pub struct LentIcon<'a> {
    icon: &'a Icon,
}

impl<'a> Model for LentIcon<'a> {
    ghost use Rattle.vault_model.specs.declared.metas.Icon.{Icon};

    ghost Value = { Icon };

    ghost view = { λ i. i.icon.now };
}

/// A custom item that a document lends.
#[derive(Drop)]
pub struct LentItem<'a> {
    item: &'a Item,
}

impl<'a> Model for LentItem<'a> {
    ghost use Rattle.vault_model.specs.declared.contents.Item.{Item};

    ghost Value = { Item };

    ghost view = { λ i. i.item.now };
}

/// The key of a custom item that a document lends.
#[derive(Drop)]
pub struct LentKey<'a> {
    key: &'a Text,
}

impl<'a> Model for LentKey<'a> {
    ghost use Rattle.std.specs.Prelude.{List, ℕ};

    ghost Value = { List ℕ };

    ghost view = { λ k. k.key.now };
}

impl<'a> PartialEq for LentKey<'a> {
    ghost eq = { eq_by_cmp bytes_cmp };

    ghost laws = { partial_equiv_from_equiv (eq_by_cmp_equiv bytes_order.total) };

    fn eq(&self, other: &LentKey<'a>) -> bool {
        self.cmp(other).is_eq()
    }
}

impl<'a> Eq for LentKey<'a> {
    ghost laws = { eq_by_cmp_equiv bytes_order.total };
}

impl<'a> PartialOrd for LentKey<'a> {
    ghost partial_cmp = { as_partial_cmp bytes_cmp };

    ghost laws = { partial_order_from_total bytes_order.total };

    fn partial_cmp(&self, other: &LentKey<'a>) -> Option<Ordering> {
        Some(self.cmp(other))
    }
}

impl<'a> Ord for LentKey<'a> {
    ghost cmp = { bytes_cmp };

    ghost total = { bytes_order.total };

    ghost matches_partial_cmp = { λ x y. refl };

    ghost matches_eq = { λ x y. refl };

    fn cmp(&self, other: &LentKey<'a>) -> Ordering {
        self.key.cmp(other.key)
    }
}

/// Orders icons by their times and then by the rest.
#[tactic(auto, unfolding(vault_model::specs::Orders::icon_cmp))]
pub fn compare_icons(first: &Icon, second: &Icon) -> Ordering
    ensures { result ≡ icon_cmp first.now second.now }
{
    first.changed.cmp(&second.changed).then(
        first.id.cmp(&second.id).then(
            first
                .bytes
                .cmp(&second.bytes)
                .then(first.name.cmp(&second.name)),
        ),
    )
}

/// Orders custom items by their times and then by the rest.
#[tactic(auto, unfolding(vault_model::specs::Orders::later_item_cmp))]
fn compare_items(first: &Item, second: &Item) -> Ordering
    ensures { result ≡ later_item_cmp first.now second.now }
{
    first.changed.cmp(&second.changed).then(
        first
            .key
            .cmp(&second.key)
            .then(first.value.cmp(&second.value)),
    )
}

impl<'a> LentIcon<'a> {
    /// The icon, lent.
    pub fn new(icon: &'a Icon) -> LentIcon<'a>
        ensures { result ≡ icon.now }
    {
        LentIcon { icon }
    }

    /// The icon itself.
    pub fn icon(&self) -> &'a Icon
        ensures { result.now ≡ self.now }
    {
        self.icon
    }

    /// The later of two icons, and of one time the greater.
    fn later(&self, other: &LentIcon<'a>) -> LentIcon<'a>
        ensures { result ≡ greater icon_cmp self.now other.now }
    {
        let icon = if compare_icons(self.icon, other.icon).is_lt() {
            other.icon
        } else {
            self.icon
        };
        LentIcon { icon }
    }

    /// The same icon, to be kept elsewhere.
    pub fn again(&self) -> LentIcon<'a>
        ensures { result ≡ self.now }
    {
        LentIcon { icon: self.icon }
    }
}

impl<'a> LentItem<'a> {
    /// The item, lent.
    pub fn new(item: &'a Item) -> LentItem<'a>
        ensures { result ≡ item.now }
    {
        LentItem { item }
    }

    /// The item itself.
    pub fn item(&self) -> &'a Item
        ensures { result.now ≡ self.now }
    {
        self.item
    }

    /// The later of two items, and of one time the greater.
    fn later(&self, other: &LentItem<'a>) -> LentItem<'a>
        ensures { result ≡ greater later_item_cmp self.now other.now }
    {
        let item = if compare_items(self.item, other.item).is_lt() {
            other.item
        } else {
            self.item
        };
        LentItem { item }
    }

    /// The same item, to be kept elsewhere.
    pub fn again(&self) -> LentItem<'a>
        ensures { result ≡ self.now }
    {
        LentItem { item: self.item }
    }
}

impl<'a> LentKey<'a> {
    /// The key, lent.
    pub fn new(key: &'a Text) -> LentKey<'a>
        ensures { result ≡ key.now }
    {
        LentKey { key }
    }

    /// The same key, to be kept elsewhere.
    fn again(&self) -> LentKey<'a>
        ensures { result ≡ self.now }
    {
        LentKey { key: self.key }
    }
}

/// The custom items of a database, which contracts see as the map from their keys.
#[derive(Drop)]
pub struct ItemTable<'a> {
    rows: Vec<(LentKey<'a>, LentItem<'a>)>,
}

impl<'a> Model for ItemTable<'a> {
    ghost use Rattle.std.specs.Prelude.{T};
    ghost use Rattle.std.specs.FinMap.{FinMap, code, from_sorted, is_sorted};
    ghost use Rattle.vault_model.specs.Orders.{bytes_cmp};
    ghost use Rattle.vault_model.specs.declared.contents.Item.{Item};
    ghost use Rattle.merge_tables.specs.Codes.{bytes_code, item_code};

    ghost Value = { FinMap bytes_cmp Item };

    ghost coded = { code bytes_code item_code };

    ghost view = { λ t. from_sorted t.rows.items };

    ghost invariant = { λ t. T (is_sorted bytes_cmp t.rows.items) };
}

impl<'a> ItemTable<'a> {
    /// No items.
    pub fn new(alloc: Global) -> ItemTable<'a>
        ensures { result ≡ map.empty }
    {
        ItemTable {
            rows: Vec::new(alloc),
        }
    }

    /// The item of a key.
    pub fn get(&self, key: &LentKey<'a>) -> Option<&LentItem<'a>>
        ensures { option_copied result ≡ map.get self.now key.now }
    {
        rows::find(self.rows.as_slice(), key)
    }

    /// The keys and items, by rising key.
    pub fn rows(&self) -> &[(LentKey<'a>, LentItem<'a>)]
        ensures { result.now ≡ map.entries self.now }
    {
        self.rows.as_slice()
    }

    /// Puts an item at a key, in the place of any that was there. A refusal means that memory ran
    /// out, and changes nothing.
    pub fn put(&mut self, key: LentKey<'a>, item: LentItem<'a>) -> Result<(), NoMemory>
        ensures ok { OnOk result (self.new ≡ map.insert self.old key.entry item.entry) }
        ensures err { OnErr result (self.new ≡ self.old) }
    {
        rows::put(&mut self.rows, key, item)?;
        Ok(())
    }

    /// Adds an item; where there is one of its key the later stays. A refusal means that memory ran
    /// out.
    fn add(&mut self, key: &LentKey<'a>, item: &LentItem<'a>) -> Result<(), NoMemory>
        ensures { OnOk result (self.new ≡ unite (greater later_item_cmp)
            (map.insert map.empty key.now item.now) self.old) }
    {
        let joined = match self.get(key) {
            Some(before) => item.later(before),
            None => item.again(),
        };
        let name = key.again();
        self.put(name, joined)?;
        Ok(())
    }

    /// Adds items one by one. A refusal means that memory ran out.
    pub fn add_all(&mut self, more: &ItemTable<'a>) -> Result<(), NoMemory>
        ensures { OnOk result (self.new ≡ unite (greater later_item_cmp) more.now self.old) }
    {
        for (key, item) in more.rows() {
            self.add(key, item)?;
        }
        Ok(())
    }
}

/// Adds an icon; where there is one of its id the later stays. A refusal means that memory ran out.
fn add_icon<'a>(
    icons: &mut Table<LentIcon<'a>>,
    id: Uuid,
    icon: &LentIcon<'a>,
) -> Result<(), NoMemory>
    ensures { OnOk result (icons.new ≡ unite (greater icon_cmp) (map.insert map.empty id icon.now)
        icons.old) }
{
    let joined = match icons.get(&id) {
        Some(before) => icon.later(before),
        None => icon.again(),
    };
    icons.put(id, joined)?;
    Ok(())
}

/// Adds icons one by one. A refusal means that memory ran out.
pub fn add_icons<'a>(
    icons: &mut Table<LentIcon<'a>>,
    more: &Table<LentIcon<'a>>,
) -> Result<(), NoMemory>
    ensures { OnOk result (icons.new ≡ unite (greater icon_cmp) more.now icons.old) }
{
    for (id, icon) in more.iter() {
        add_icon(icons, *id, icon)?;
    }
    Ok(())
}
