//! What a database says of itself, lent by documents.
ghost use Rattle.std.specs.Prelude.{◌≡◌, IfOk, OnOk};
ghost use Rattle.vault_model.specs.Join.{timed_join, meta_join};
ghost use Rattle.vault_model.specs.Orders.{bin_cmp, bytes_cmp, protection_cmp, settings_cmp};
ghost use Rattle.merge_tables.specs.Databases.{shared_meta};

use crate::icons::{ItemTable, LentIcon, add_icons};
use crate::tables::Table;
use outside_core::{NoMemory, Text};
use std::alloc::Global;
use std::cmp::Ordering;
use uuid_core::Uuid;
use vault_model::{Bin, MetaSettings, Protection, Timed};

/// The values that every copy of a database shares.
#[derive(Drop)]
pub struct LentMeta<'a> {
    pub name: &'a Timed<Text>,
    pub description: &'a Timed<Text>,
    pub user: &'a Timed<Text>,
    pub bin: &'a Timed<Bin>,
    pub templates: &'a Timed<Uuid>,
    pub settings: &'a Timed<MetaSettings>,
    pub icons: Table<LentIcon<'a>>,
    pub items: ItemTable<'a>,
}

/// Orders the settings of the bin: off below on, then by its id.
#[tactic(auto, unfolding(vault_model::specs::Orders::bin_cmp))]
pub fn compare_bins(first: &Bin, second: &Bin) -> Ordering
    ensures { result ≡ bin_cmp first.now second.now }
{
    first
        .enabled
        .cmp(&second.enabled)
        .then(first.id.cmp(&second.id))
}

/// Orders what is hidden, field by field.
#[tactic(auto, unfolding(vault_model::specs::Orders::protection_cmp))]
fn compare_protections(first: &Protection, second: &Protection) -> Ordering
    ensures { result ≡ protection_cmp first.now second.now }
{
    first.title.cmp(&second.title).then(
        first.user.cmp(&second.user).then(
            first.password.cmp(&second.password).then(
                first
                    .url
                    .cmp(&second.url)
                    .then(first.notes.cmp(&second.notes)),
            ),
        ),
    )
}

/// Orders settings, field by field.
#[tactic(auto, unfolding(vault_model::specs::Orders::settings_cmp))]
pub fn compare_settings(first: &MetaSettings, second: &MetaSettings) -> Ordering
    ensures { result ≡ settings_cmp first.now second.now }
{
    let last = first.history_items.cmp(&second.history_items).then(
        first
            .history_size
            .cmp(&second.history_size)
            .then(first.key_force_once.cmp(&second.key_force_once)),
    );
    first.color.cmp(&second.color).then(
        first.days.cmp(&second.days).then(
            first.key_rec.cmp(&second.key_rec).then(
                first.key_force.cmp(&second.key_force).then(compare_protections(
                    &first.protect,
                    &second.protect,
                ).then(last)),
            ),
        ),
    )
}

/// The later of two texts, and of one time the greater.
fn later_text<'a>(first: &'a Timed<Text>, second: &'a Timed<Text>) -> &'a Timed<Text>
    ensures { result.now ≡ timed_join bytes_cmp first.now second.now }
{
    let order = first
        .changed
        .cmp(&second.changed)
        .then(first.value.cmp(&second.value));
    if order.is_lt() { second } else { first }
}

/// The later of two settings of the bin, and of one time the greater.
fn later_bin<'a>(first: &'a Timed<Bin>, second: &'a Timed<Bin>) -> &'a Timed<Bin>
    ensures { result.now ≡ timed_join bin_cmp first.now second.now }
{
    let order = first
        .changed
        .cmp(&second.changed)
        .then(compare_bins(&first.value, &second.value));
    if order.is_lt() { second } else { first }
}

/// The later of two ids, and of one time the greater.
fn later_id<'a>(first: &'a Timed<Uuid>, second: &'a Timed<Uuid>) -> &'a Timed<Uuid>
    ensures { result.now ≡ timed_join bytes_cmp first.now second.now }
{
    let order = first
        .changed
        .cmp(&second.changed)
        .then(first.value.cmp(&second.value));
    if order.is_lt() { second } else { first }
}

/// The later of two settings, and of one time the greater.
fn later_settings<'a>(
    first: &'a Timed<MetaSettings>,
    second: &'a Timed<MetaSettings>,
) -> &'a Timed<MetaSettings>
    ensures { result.now ≡ timed_join settings_cmp first.now second.now }
{
    let order = first
        .changed
        .cmp(&second.changed)
        .then(compare_settings(&first.value, &second.value));
    if order.is_lt() { second } else { first }
}

impl<'a> LentMeta<'a> {
    /// The same values, to be changed elsewhere. A refusal means that memory ran out.
    pub fn again(&self, alloc: Global) -> Result<LentMeta<'a>, NoMemory>
        ensures { IfOk result (λ m. shared_meta m ≡ shared_meta self.now) }
    {
        let mut icons = Table::new(alloc);
        add_icons(&mut icons, &self.icons)?;
        let mut items = ItemTable::new(alloc);
        items.add_all(&self.items)?;
        Ok(LentMeta {
            name: self.name,
            description: self.description,
            user: self.user,
            bin: self.bin,
            templates: self.templates,
            settings: self.settings,
            icons,
            items,
        })
    }

    /// Takes in the values of another copy, each where it is the later one. A refusal means that
    /// memory ran out.
    pub fn absorb(&mut self, other: &LentMeta<'a>) -> Result<(), NoMemory>
        ensures { OnOk result
            (shared_meta self.new ≡ meta_join (shared_meta other.now) (shared_meta self.old)) }
    {
        add_icons(&mut self.icons, &other.icons)?;
        self.items.add_all(&other.items)?;
        self.name = later_text(other.name, self.name);
        self.description = later_text(other.description, self.description);
        self.user = later_text(other.user, self.user);
        self.bin = later_bin(other.bin, self.bin);
        self.templates = later_id(other.templates, self.templates);
        self.settings = later_settings(other.settings, self.settings);
        Ok(())
    }
}
