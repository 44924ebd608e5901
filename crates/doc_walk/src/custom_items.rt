//! Custom items.

ghost use Rattle.std.specs.Prelude.{◌≡◌, []};
ghost use Rattle.doc_forms.specs.Children.{by_name};
ghost use Rattle.doc_forms.specs.Tables as spec;
ghost use Rattle.doc_walk.specs.Steps.{Steps};
ghost use Rattle.doc_walk.specs.Tags.{contents_step};

use crate::containers::{Parts, read_whole};
use crate::element_times::never;
use crate::walk::{Tag, Walk};
use doc_forms::DocFail;
use doc_values::{KeyedList, TextValue, TimeValue};
use outside_core::{List, Text};
use std::alloc::Global;
use vault_model::Item;

impl Parts for Item {
    ghost use Rattle.vault_model.specs.declared.contents.Item.{Item};

    ghost Bare = { Item };

    ghost seen = { λ i. i };

    ghost child = { λ s. by_name s (spec.item_rows s) };

    fn read_child(&mut self, walk: &mut Walk<'_>, tag: &Tag<'_>) -> Result<(), DocFail> {
        match tag.name {
            "Key" => walk.keep::<TextValue>(tag, &mut self.key),
            "Value" => walk.keep::<TextValue>(tag, &mut self.value),
            "LastModificationTime" => walk.keep::<TimeValue>(tag, &mut self.changed),
            _ => walk.pass(tag),
        }
    }
}

/// An item of which nothing is known yet.
fn no_item(alloc: Global) -> Item
    ensures { result ≡ spec.no_item }
{
    Item {
        key: Text::new(alloc),
        value: Text::new(alloc),
        changed: never(),
    }
}

impl Parts for KeyedList<Item> {
    ghost use Rattle.std.specs.Prelude.{List};
    ghost use Rattle.vault_model.specs.declared.contents.Item.{Item};

    ghost Bare = { List Item };

    ghost seen = { λ l. l };

    ghost child = { λ s. by_name s (spec.items_rows s) };

    fn read_child(&mut self, walk: &mut Walk<'_>, tag: &Tag<'_>) -> Result<(), DocFail> {
        match tag.name {
            "Item" => {
                let item = read_whole(walk, tag, no_item(walk.alloc()))?;
                self.put(item)
            }
            _ => walk.pass(tag),
        }
    }
}

/// The items of a `CustomData`, whose start tag was given, put in their place.
pub fn custom_data(walk: &mut Walk<'_>, tag: &Tag<'_>, into: &mut List<Item>) -> Result<(), DocFail>
    ensures { Steps (λ _. into.new) walk.old walk.new result
        (contents_step (λ s. by_name s (spec.items_rows s)) [] tag.now) }
{
    let first: KeyedList<Item> = KeyedList::new(walk.alloc());
    match read_whole(walk, tag, first) {
        Ok(items) => {
            *into = items.into_list();
            Ok(())
        }
        Err(refusal) => Err(refusal),
    }
}
